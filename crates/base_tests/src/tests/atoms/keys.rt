//! Keys of metrics: they are found by what they hold, and copied whole.
use super::super::asserts::assert_found;
use atom_record::{DimKey, Leaf, MetricKey, Slice, Value};
use sd_base::Seq;
use std::alloc::{AllocError, Global};
use std::collections::HashMap;

/// Adds a value of each kind that is a number.
fn push_numbers(values: &mut Seq<Value>) -> Result<(), AllocError> {
    values.push(Value::Int(-1))?;
    values.push(Value::Long(1))?;
    values.push(Value::Bool(true))?;
    values.push(Value::Bits32(1))
}

/// Adds a value of each kind that is a text.
fn push_texts(alloc: Global, values: &mut Seq<Value>, text: &[u8]) -> Result<(), AllocError> {
    values.push(Value::Str(Seq::from_slice(alloc, text)?))?;
    values.push(Value::Raw(Seq::from_slice(alloc, text)?))
}

/// One value of each kind, with this text.
pub fn values(alloc: Global, text: &[u8]) -> Result<Seq<Value>, AllocError> {
    let mut values = Seq::new(alloc);
    push_numbers(&mut values)?;
    push_texts(alloc, &mut values, text)?;
    Ok(values)
}

/// Adds one leaf of each form, with this text.
fn push_leaves(alloc: Global, leaves: &mut DimKey, text: &[u8]) -> Result<(), AllocError> {
    leaves.push(Leaf::Missing)?;
    leaves.push(Leaf::One(Value::Int(1)))?;
    leaves.push(Leaf::Many(values(alloc, text)?))
}

/// One leaf of each form, with this text, so many times.
fn leaves(alloc: Global, text: &[u8], times: usize) -> Result<DimKey, AllocError> {
    let mut leaves = DimKey::new(alloc);
    for _ in 0..times {
        push_leaves(alloc, &mut leaves, text)?;
    }
    Ok(leaves)
}

/// Adds one slice of each form.
fn push_slices(slices: &mut Seq<Slice>) -> Result<(), AllocError> {
    slices.push(Slice::Plain {
        atom_id: 7,
        value: -1,
    })?;
    slices.push(Slice::Group {
        atom_id: 8,
        group: 3,
    })
}

/// One slice of each form, so many times.
fn slices(alloc: Global, times: usize) -> Result<Seq<Slice>, AllocError> {
    let mut slices = Seq::new(alloc);
    for _ in 0..times {
        push_slices(&mut slices)?;
    }
    Ok(slices)
}

/// A key with so many leaves and slices of each form, and this text.
fn key(alloc: Global, text: &[u8], times: usize) -> Result<MetricKey, AllocError> {
    let dims = leaves(alloc, text, times)?;
    let slices = slices(alloc, times)?;
    Ok(MetricKey { dims, slices })
}

/// Gives the key with the text `a` the number 1.
fn push_row(alloc: Global, rows: &mut HashMap<MetricKey, u32>) -> Result<(), AllocError> {
    let key = key(alloc, b"a", 1)?;
    rows.insert(key, 1)?;
    Ok(())
}

/// What stands in a map under a key with this text, or 0.
fn number_of(
    alloc: Global,
    rows: &HashMap<MetricKey, u32>,
    text: &[u8],
) -> Result<u32, AllocError> {
    let key = key(alloc, text, 1)?;
    Ok(match rows.get(&key) {
        Some(number) => *number,
        None => 0,
    })
}

/// What is found under a key with this text, where only a key with the text `a` has a number.
fn found(alloc: Global, text: &[u8]) -> Result<u32, AllocError> {
    let mut rows = HashMap::new(alloc);
    push_row(alloc, &mut rows)?;
    number_of(alloc, &rows, text)
}

#[test]
fn equal_keys_made_apart_are_found(rt: HostRuntime) {
    assert!(rt; found(rt.alloc(), b"a") == Ok(1));
    assert!(rt; found(rt.alloc(), b"b") == Ok(0));
}

/// Whether the dimensions alone are copied whole.
fn are_dims_copied(alloc: Global, dims: &DimKey) -> Result<bool, AllocError> {
    let copy = dims.clone_key(alloc)?;
    Ok(copy == *dims)
}

/// Whether a key is copied whole.
fn is_copied(alloc: Global, key: &MetricKey) -> Result<bool, AllocError> {
    let copy = key.clone_key(alloc)?;
    Ok(copy == *key)
}

/// Whether a key and its dimensions alone are copied whole.
fn are_both_copied(alloc: Global, key: &MetricKey) -> bool {
    is_copied(alloc, key) == Ok(true) && are_dims_copied(alloc, &key.dims) == Ok(true)
}

/// Whether the key with each form so many times has this many leaves, and it and its dimensions are copied whole.
fn are_copies_whole(alloc: Global, times: usize, leaves: usize) -> Result<bool, AllocError> {
    let key = key(alloc, b"a", times)?;
    Ok(key.dims.len() == leaves && are_both_copied(alloc, &key))
}

#[test]
fn copies_of_keys_equal_their_sources(rt: HostRuntime) {
    // 3,000 leaves and 2,000 slices in the largest.
    for &(times, leaves) in &[(0, 0), (1, 3), (1_000, 3_000)] {
        assert_found(&rt, are_copies_whole(rt.alloc(), times, leaves), &times);
    }
}
