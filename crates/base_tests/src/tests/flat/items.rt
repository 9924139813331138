//! Items and their bytes.
ghost use Rattle.flat_form.specs.Savable.{AreSavable};
ghost use Rattle.flat_form.specs.ItemRange.{ReadsItems};

use super::super::asserts::{assert_found, assert_holds};
use super::samples::{ATOM, CHUNK, DIMS, NUM, SLICES, items};
use atom_record::Bytes;
use flat_form::{FlatError, Item, Items, decode_items, encode_items};
use std::alloc::{AllocError, Global};

// The bytes of one item of each kind, in the order of the sample.
const ROWS: &[&[u8]] = &[NUM, DIMS, SLICES, ATOM, CHUNK];

// The items that these bytes spell.
fn read(alloc: Global, bytes: &[u8]) -> Result<Items, FlatError>
    ensures { ReadsItems bytes.now result }
{
    decode_items(alloc, Bytes::from_slice(alloc, bytes)?)
}

// Whether the same item, or none, stands at two places.
fn same_item(one: &Items, place: usize, other: &Items, other_place: usize) -> bool {
    match (one.at(place), other.at(other_place)) {
        (Ok(one), Ok(other)) => one == other,
        _ => false,
    }
}

fn is_bad(alloc: Global, bytes: &[u8]) -> bool {
    matches!(read(alloc, bytes), Err(FlatError::Bad))
}

// Whether these bytes spell one item, the one at this place.
fn is_read_as(alloc: Global, bytes: &[u8], expected: &Items, place: usize) -> bool {
    match read(alloc, bytes) {
        Ok(read) => read.len() == 1 && same_item(&read, 0, expected, place),
        Err(_) => false,
    }
}

// Whether two lists have the same items.
pub fn are_same(one: &Items, other: &Items) -> bool {
    let mut same = one.len() == other.len();
    for place in 0..one.len() {
        same &= same_item(one, place, other, place);
    }
    same
}

// Whether these bytes spell these items.
fn are_read(alloc: Global, bytes: &[u8], expected: &Items) -> bool {
    match read(alloc, bytes) {
        Ok(read) => are_same(&read, expected),
        Err(_) => false,
    }
}

// Whether these items are spelled by these bytes.
fn are_spelled(alloc: Global, items: Items, bytes: &[u8]) -> bool
    requires { AreSavable items }
{
    match encode_items(alloc, items) {
        Ok(spelled) => spelled.as_slice() == bytes,
        Err(_) => false,
    }
}

// Whether so many items stand in these bytes, and are spelled by them again.
fn is_spelled_again(alloc: Global, bytes: &[u8], number: usize) -> bool {
    match read(alloc, bytes) {
        Ok(items) => items.len() == number && are_spelled(alloc, items, bytes),
        Err(_) => false,
    }
}

// Whether there are five items, and each row spells the one at its place.
fn are_rows_read(alloc: Global, expected: &Items) -> bool {
    let mut all = expected.len() == 5 && matches!(expected.at(5), Ok(None));
    for (place, bytes) in ROWS.iter().enumerate() {
        all &= is_read_as(alloc, bytes, expected, place);
    }
    all
}

// Whether the items of the sample are those of the rows.
fn are_all_read(alloc: Global) -> Result<bool, AllocError> {
    let expected = items(alloc)?;
    Ok(are_rows_read(alloc, &expected))
}

// Whether no part of these bytes spells an item.
fn is_no_part_read(alloc: Global, bytes: &[u8]) -> bool {
    let mut all = true;
    for len in 1..bytes.len() {
        all &= is_bad(alloc, &bytes[..len]);
    }
    all
}

#[test]
fn decodes_no_part_of_an_item_and_encodes_each(rt: HostRuntime) {
    for bytes in ROWS {
        assert_holds(&rt, is_no_part_read(rt.alloc(), bytes), &bytes);
        assert_holds(&rt, is_spelled_again(rt.alloc(), bytes, 1), &bytes);
    }
}

// Adds the bytes of all items, one after the other.
fn push_all(whole: &mut Vec<u8>) -> Result<(), AllocError> {
    for bytes in ROWS {
        whole.extend_from_slice(bytes)?;
    }
    Ok(())
}

// Whether these bytes spell the five items of the sample, and are spelled by them.
fn is_whole(alloc: Global, whole: &[u8]) -> Result<bool, AllocError> {
    let expected = items(alloc)?;
    Ok(are_read(alloc, whole, &expected) && is_spelled_again(alloc, whole, 5))
}

// Whether the bytes of all items, one after the other, are read and spelled.
fn is_row_whole(alloc: Global) -> Result<bool, AllocError> {
    let mut whole = Vec::new(alloc);
    push_all(&mut whole)?;
    is_whole(alloc, &whole)
}

// Whether a number after no items is spelled by its bytes.
fn is_number_spelled(alloc: Global) -> Result<bool, AllocError> {
    let mut items = Items::new(alloc);
    items.push(Item::Num(258))?;
    Ok(are_spelled(alloc, items, NUM))
}

// Whether no items are spelled by no bytes.
fn are_none_spelled(alloc: Global) -> bool {
    let items = Items::new(alloc);
    are_spelled(alloc, items, b"")
}

// Adds 65,537 bytes.
fn push_long(bytes: &mut Vec<u8>) -> Result<(), AllocError> {
    for _turn in 0..65_537u32 {
        bytes.push(7)?;
    }
    Ok(())
}

// Whether a chunk of 65,537 bytes, which two bytes can't count, is read and spelled again.
fn is_long_chunk_spelled(alloc: Global) -> Result<bool, AllocError> {
    let mut bytes = Vec::from_slice(alloc, b"\x05\x01\0\x01\0")?;
    push_long(&mut bytes)?;
    Ok(is_spelled_again(alloc, &bytes, 1))
}

#[test]
fn decodes_and_encodes_items(rt: HostRuntime) {
    let alloc = rt.alloc();
    assert_found(&rt, are_all_read(alloc), &"each item");
    assert_found(&rt, is_row_whole(alloc), &"items in a row");
    assert_holds(&rt, are_none_spelled(alloc), &"no items");
    assert_found(&rt, is_number_spelled(alloc), &"a number");
    assert_found(&rt, is_long_chunk_spelled(alloc), &"a long chunk");
}

// Bytes of no items.
const BAD: &[&[u8]] = &[
    // tags that aren't known
    b"\0",
    b"\x06",
    b"\x02\x01\0\x03",
    b"\x03\x01\x03",
    b"\x02\x01\0\x01\x07",
    // a Bool of 2
    b"\x02\x01\0\x01\x03\x02",
    // an atom with a fault
    b"\x04\x04\0\0\0\0\0",
    // bytes after the entries of an atom
    b"\x04\x05\0\x05\0\0\0\0",
    // counts past what is there
    b"\x02\xff\xff",
    b"\x03\xff",
    b"\x05\xff\xff\xff\xff",
    // a byte left over
    b"\x01\0\0\0\0\0\0\0\0\0",
];

#[test]
fn refuses_bytes_of_no_items(rt: HostRuntime) {
    for bytes in BAD {
        assert_holds(&rt, is_bad(rt.alloc(), bytes), &bytes);
    }
}
