//! The rows: items by words, and whether they can be spelled, and in how many bytes.
use super::random::Dice;
use super::words::{are_items_of, items_of};
use atom_record::Bytes;
use flat_form::{FlatError, Items, can_be_spelled, decode_items, encode_items, spelled_len};
use std::alloc::{AllocError, Global};
use test_tools::{Row, Table, Tester, unsigned};

/// The table of items.
pub struct Spellings;

impl Table for Spellings {
    fn marks(&self) -> &'static str {
        "items can bytes random"
    }

    fn run(&self, alloc: Global, tester: &mut Tester, row: &Row<'_>) -> Result<(), AllocError> {
        if row.has("random") {
            return run_random(alloc, tester, row.word("random"));
        }
        match items_of(alloc, row.word("items"))? {
            Some(items) => run_items(alloc, tester, row, &items),
            None => tester.differs("an item that isn't known", row.word("items")),
        }
    }
}

fn run_items(
    alloc: Global,
    tester: &mut Tester,
    row: &Row<'_>,
    items: &Items,
) -> Result<(), AllocError> {
    tester.case();
    tester.holds(
        "each item stands where it was put",
        are_items_of(alloc, items, row.word("items"))?,
    )?;
    let can = can_be_spelled(alloc, items)?;
    tester.same_text("can", row.word("can"), if can { "yes" } else { "no" })?;
    let wanted = unsigned(row.word("bytes")).unwrap_or(0);
    tester.same_number("bytes", wanted, spelled_len(items))?;
    tester.holds("they go through bytes", can == is_spelled(alloc, items)?)
}

/// Whether items can be spelled, are, in as many bytes as is told, and are read again.
fn is_spelled(alloc: Global, items: &Items) -> Result<bool, AllocError> {
    let copy = copy_of(alloc, items)?;
    if !can_be_spelled(alloc, &copy)? {
        return Ok(false);
    }
    let bytes = encode_items(alloc, copy)?;
    Ok(bytes.len() as u64 == spelled_len(items) && are_read(alloc, bytes, items)?)
}

/// The same items.
fn copy_of(alloc: Global, items: &Items) -> Result<Items, AllocError> {
    let mut copy = Items::new(alloc);
    for place in 0..items.len() {
        if let Some(item) = items.at(place)? {
            copy.push(item)?;
        }
    }
    Ok(copy)
}

/// Whether both have the same items.
fn are_same(one: &Items, other: &Items) -> Result<bool, AllocError> {
    for place in 0..one.len() {
        if one.at(place)? != other.at(place)? {
            return Ok(false);
        }
    }
    Ok(one.len() == other.len())
}

/// Whether these bytes are read as these items.
fn are_read(alloc: Global, bytes: Bytes, items: &Items) -> Result<bool, AllocError> {
    match decode_items(alloc, bytes) {
        Ok(read) => are_same(&read, items),
        Err(FlatError::Bad) => Ok(false),
        Err(FlatError::Memory) => Err(AllocError),
    }
}

/// So many random lists.
fn run_random(alloc: Global, tester: &mut Tester, count: &str) -> Result<(), AllocError> {
    let mut dice = Dice::new();
    for _ in 0..unsigned(count).unwrap_or(0) {
        let items = dice.items(alloc)?;
        tester.case();
        tester.holds("it goes through bytes", is_spelled(alloc, &items)?)?;
    }
    Ok(())
}
