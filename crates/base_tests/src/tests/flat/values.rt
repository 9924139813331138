//! Values through their items: what is built, and where nothing is.
use super::super::asserts::assert_found;
use super::samples::{atom, dims, key, numbers};
use atom_record::{Atom, DimKey, MetricKey};
use flat_form::{Flat, FlatError, Items, rebuild, save};
use sd_base::Seq;
use std::alloc::{AllocError, Global};

// A number and a key, one after the other.
fn number_and_key(alloc: Global) -> Result<Items, AllocError> {
    let mut items = Items::new(alloc);
    7u64.flatten(alloc, &mut items)?;
    push_key(alloc, &mut items)?;
    Ok(items)
}

fn push_key(alloc: Global, items: &mut Items) -> Result<(), AllocError> {
    let key = key(alloc)?;
    key.flatten(alloc, items)
}

// The items of a value alone.
pub fn items_of<T: Flat>(alloc: Global, value: &T) -> Result<Items, AllocError> {
    let mut items = Items::new(alloc);
    value.flatten(alloc, &mut items)?;
    Ok(items)
}

// Whether this value stands at the place, up to the next one.
pub fn is_built<T: Flat + Drop + PartialEq>(
    alloc: Global,
    items: &Items,
    place: usize,
    value: &T,
    next: usize,
) -> bool {
    match T::build(alloc, items, place) {
        Ok((built, end)) => built == *value && end == next,
        Err(_) => false,
    }
}

// Whether this value is rebuilt.
fn is_rebuilt<T: Flat + Drop + PartialEq>(alloc: Global, value: &T) -> bool {
    match rebuild(alloc, value) {
        Ok(copy) => copy == *value,
        Err(_) => false,
    }
}

// Whether no value of this type stands at the place.
pub fn is_bad<T: Flat + Drop>(alloc: Global, items: &Items, place: usize) -> bool {
    matches!(T::build(alloc, items, place), Err(FlatError::Bad))
}

// Whether a list is saved in so many bytes.
fn is_saved_in(alloc: Global, list: &Seq<u64>, len: usize) -> bool {
    match save(alloc, list) {
        Ok(bytes) => bytes.len() == len,
        Err(_) => false,
    }
}

// Whether the number and the key have this value at the place, up to the next one.
fn is_in_sample<T: Flat + Drop + PartialEq>(
    alloc: Global,
    place: usize,
    value: &T,
    next: usize,
) -> Result<bool, AllocError> {
    let items = number_and_key(alloc)?;
    Ok(is_built(alloc, &items, place, value, next))
}

// Whether a key is built of its items.
fn builds_key(alloc: Global) -> Result<bool, AllocError> {
    let key = key(alloc)?;
    Ok(is_in_sample(alloc, 1, &key, 3) == Ok(true))
}

// Whether dimensions are built of their item, and rebuilt.
fn builds_dims(alloc: Global) -> Result<bool, AllocError> {
    let dims = dims(alloc)?;
    Ok(is_rebuilt(alloc, &dims) && is_in_sample(alloc, 1, &dims, 2) == Ok(true))
}

// Whether a pair of a number and a key is built of their items, and rebuilt.
fn builds_pair(alloc: Global) -> Result<bool, AllocError> {
    let pair = (7u64, key(alloc)?);
    Ok(is_rebuilt(alloc, &pair) && is_in_sample(alloc, 0, &pair, 3) == Ok(true))
}

// Whether a value is built of its own items, which are so many.
fn is_built_again<T: Flat + Drop + PartialEq>(
    alloc: Global,
    value: &T,
    len: usize,
) -> Result<bool, AllocError> {
    let items = items_of(alloc, value)?;
    Ok(items.len() == len && is_built(alloc, &items, 0, value, len))
}

// Whether an atom is built of its item.
fn builds_atom(alloc: Global) -> Result<bool, AllocError> {
    let atom = atom(alloc)?;
    Ok(is_built_again(alloc, &atom, 1) == Ok(true))
}

// Whether these items build this list.
fn is_list(alloc: Global, list: &Seq<u64>, row: &[u64]) -> Result<bool, AllocError> {
    let items = numbers(alloc, row)?;
    Ok(is_built(alloc, &items, 0, list, row.len()))
}

// Whether a list of three is built of its length and its numbers.
fn builds_three(alloc: Global) -> Result<bool, AllocError> {
    let list = Seq::from_slice(alloc, &[3, 1, 2])?;
    Ok(is_list(alloc, &list, &[3, 3, 1, 2]) == Ok(true))
}

// Adds the numbers below 1,000.
fn push_long(list: &mut Seq<u64>) -> Result<(), AllocError> {
    for number in 0..1000u64 {
        list.push(number)?;
    }
    Ok(())
}

// Whether a list of the numbers below 1,000 is rebuilt, and is 1,001 items, of nine bytes each.
fn builds_long(alloc: Global) -> Result<bool, AllocError> {
    let mut list = Seq::new(alloc);
    push_long(&mut list)?;
    Ok(
        is_rebuilt(alloc, &list)
            && is_saved_in(alloc, &list, 9009)
            && is_built_again(alloc, &list, 1001) == Ok(true),
    )
}

// Whether no key, no dimensions and no atom stand at the place.
fn is_no_tree(alloc: Global, items: &Items, place: usize) -> bool {
    is_bad::<MetricKey>(alloc, items, place)
        && is_bad::<DimKey>(alloc, items, place)
        && is_bad::<Atom>(alloc, items, place)
}

// Whether no number, no pair of them and no list stand at the place.
fn is_no_number(alloc: Global, items: &Items, place: usize) -> bool {
    is_bad::<u64>(alloc, items, place)
        && is_bad::<(u64, u64)>(alloc, items, place)
        && is_bad::<Seq<u64>>(alloc, items, place)
}

// Whether nothing but the number at place 0 and the key at place 1 stands at the place.
fn is_nothing_else(alloc: Global, place: usize) -> Result<bool, AllocError> {
    let items = number_and_key(alloc)?;
    let is_so = (place == 1 || is_no_tree(alloc, &items, place))
        && (place == 0 || is_no_number(alloc, &items, place));
    Ok(is_so)
}

#[test]
fn builds_nothing_of_other_items(rt: HostRuntime) {
    for place in 0..5 {
        assert_found(&rt, is_nothing_else(rt.alloc(), place), &place);
    }
}

// Whether a list that is cut is none, and its last number no pair.
fn is_cut_bad(alloc: Global) -> Result<bool, AllocError> {
    let items = numbers(alloc, &[3, 1, 2])?;
    Ok(is_bad::<Seq<u64>>(alloc, &items, 0) && is_bad::<(u64, u64)>(alloc, &items, 2))
}

#[test]
fn builds_values_of_their_items(rt: HostRuntime) {
    let alloc = rt.alloc();
    assert_found(&rt, builds_key(alloc), &"a key");
    assert_found(&rt, builds_dims(alloc), &"dimensions");
    assert_found(&rt, builds_pair(alloc), &"a pair");
    assert_found(&rt, builds_atom(alloc), &"an atom");
    assert_found(&rt, builds_three(alloc), &"a list of three");
    assert_found(&rt, builds_long(alloc), &"a long list");
    assert_found(&rt, is_cut_bad(alloc), &"a list that is cut");
}
