//! Signed integers, and numbers that may be missing, through their items.
use super::super::asserts::assert_found;
use super::items::are_same;
use super::samples::numbers;
use super::values::{is_bad, is_built, items_of};
use flat_form::Flat;
use std::alloc::{AllocError, Global};

// Whether a value's items are these numbers, and these build it.
fn is_saved_as<T: Flat + Drop + PartialEq>(
    alloc: Global,
    value: &T,
    row: &[u64],
) -> Result<bool, AllocError> {
    let found = items_of(alloc, value)?;
    let wanted = numbers(alloc, row)?;
    Ok(are_same(&found, &wanted) && is_built(alloc, &wanted, 0, value, row.len()))
}

// Whether nothing is built of a number of values that is neither 0 nor 1.
fn is_two_bad(alloc: Global) -> Result<bool, AllocError> {
    let items = numbers(alloc, &[2, 7, 8])?;
    Ok(is_bad::<Option<u64>>(alloc, &items, 0))
}

#[test]
fn saves_signed_integers_and_what_may_be_missing(rt: HostRuntime) {
    let alloc = rt.alloc();
    let half = 1u64 << 63;
    for (number, bits) in [
        (i64::MIN, half),
        (i64::MAX, half - 1),
        (0, 0),
        (-1, u64::MAX),
    ] {
        assert_found(&rt, is_saved_as(alloc, &number, &[bits]), &number);
    }
    for (number, high, low) in [
        (i128::MIN, half, 0),
        (i128::MAX, half - 1, u64::MAX),
        (-1, u64::MAX, u64::MAX),
    ] {
        assert_found(&rt, is_saved_as(alloc, &number, &[high, low]), &high);
    }
    for (value, row) in [(None, &[0u64] as &[u64]), (Some(7u64), &[1, 7])] {
        assert_found(&rt, is_saved_as(alloc, &value, row), &row.len());
    }
    assert_found(&rt, is_two_bad(alloc), &"two values that may be missing");
}
