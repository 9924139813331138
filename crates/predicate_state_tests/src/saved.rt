//! Tables through their items.
use super::keys::{key_of, table_text};
use flat_form::{Flat, FlatError, Item, Items, rebuild};
use predicate_state::PredTable;
use std::alloc::{AllocError, Global};
use test_tools::{Row, Tester, unsigned};

/// The items of a text: numbers, and keys after a `k`.
fn items_of(alloc: Global, text: &str) -> Result<Items, AllocError> {
    let mut items = Items::new(alloc);
    for word in text.split_whitespace() {
        match word.strip_prefix('k') {
            Some(key) => items.push(Item::Dims(key_of(alloc, key)?))?,
            None => items.push(Item::Num(unsigned(word).unwrap_or(0)))?,
        }
    }
    Ok(items)
}

/// Builds the table of a row's items, and compares what it is, or that there is none.
pub fn run_built(alloc: Global, tester: &mut Tester, row: &Row<'_>) -> Result<(), AllocError> {
    tester.case();
    let items = items_of(alloc, row.word("items"))?;
    let found = built_text(alloc, &items)?;
    tester.same_text("built", row.word("built"), found.as_str())
}

/// What is built of items, as `9 of 1 keys, Unknown else, 3:2 dropped 7`.
fn built_text(alloc: Global, items: &Items) -> Result<String, AllocError> {
    match PredTable::build(alloc, items, 0) {
        Ok((table, next)) => {
            let (keys, truth) = (table.len(), table.any(&[]));
            let entries = table_text(alloc, &table)?;
            format!(in alloc; "{next} of {keys} keys, {truth:?} else, {entries}")
        }
        Err(FlatError::Bad) => String::from_str(alloc, "Bad"),
        Err(FlatError::Memory) => Err(AllocError),
    }
}

/// Rebuilds a table, and compares its entries, and how many items it had.
pub fn run_rebuilt(
    alloc: Global,
    tester: &mut Tester,
    row: &Row<'_>,
    table: &PredTable,
) -> Result<(), AllocError> {
    tester.case();
    let mut items = Items::new(alloc);
    table.flatten(alloc, &mut items)?;
    if row.has("count") {
        let wanted = unsigned(row.word("count")).unwrap_or(0);
        tester.same_number("items", wanted, items.len() as u64)?;
    }
    match rebuild(alloc, table) {
        Ok(copy) => compare_copy(alloc, tester, table, &copy),
        Err(FlatError::Memory) => Err(AllocError),
        Err(FlatError::Bad) => tester.differs("not rebuilt", ""),
    }
}

/// Compares a copy's entries, its drops and the truth of an absent key.
fn compare_copy(
    alloc: Global,
    tester: &mut Tester,
    table: &PredTable,
    copy: &PredTable,
) -> Result<(), AllocError> {
    let wanted = table_text(alloc, table)?;
    let found = table_text(alloc, copy)?;
    tester.same_text("rebuilt", wanted.as_str(), found.as_str())?;
    let absent = key_of(alloc, "-1")?;
    tester.holds(
        "truth once rebuilt",
        table.truth(&absent) == copy.truth(&absent),
    )
}
