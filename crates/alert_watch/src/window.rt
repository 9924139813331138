//! The tables of a window: the open part's first, then those of the parts before it, the latest first.
ghost use Rattle.std.specs.Prelude.{◌≡◌, ◌<◌, ◌≤◌, true, length, All, IfOk, OnOk, OnErr};
ghost use Rattle.bucket_meaning.specs.Limits.{most_keys};
ghost use Rattle.alert_watch.specs.WindowParts.{IsEmptyTable, table_sum, finds_room, RaisesAt, CountsOne, Turns};

use atom_record::MetricKey;
use dim_table::{Admit, Guarded};
use std::alloc::{AllocError, Global};

/// How often each key came in a part.
pub(crate) type KeyCounts = Guarded<MetricKey, u64>;

// So many empty tables.
pub(crate) fn empty_tables(
    alloc: Global,
    bound: usize,
    parts: u32,
) -> Result<Vec<KeyCounts>, AllocError>
    requires least { 1 ≤ bound }
    requires most { bound ≤ most_keys }
    ensures parts { IfOk result (λ tables. length tables.items ≡ parts) }
    ensures empty { IfOk result (λ tables. All (IsEmptyTable bound) tables.items) }
{
    let mut tables = Vec::new(alloc);
    for _turn in 0..parts {
        let table = Guarded::new(alloc, bound);
        tables.push(table)?;
    }
    Ok(tables)
}

// The sum of a key's numbers in these tables.
pub(crate) fn sum_of(tables: &[KeyCounts], key: &MetricKey) -> u64
    ensures { result ≡ table_sum key.now tables.now }
{
    let mut sum: u64 = 0;
    for table in tables {
        let number = table.find(key).copied().unwrap_or(0);
        sum = sum.saturating_add(number);
    }
    sum
}

// Whether a key has a row in a table, or would get one.
pub(crate) fn finds_room(table: &KeyCounts, key: &MetricKey) -> bool
    ensures { result ≡ finds_room key.now table.now }
{
    table.place_of(key).is_some() || table.len() != table.bound()
}

// One arrival more of a key that finds room.
pub(crate) fn count_one(table: &mut KeyCounts, key: &MetricKey) -> Result<(), AllocError>
    requires room { finds_room key.now table.old ≡ true }
    ensures counted { OnOk result (CountsOne table.old table.new key.now) }
    ensures err { OnErr result (table.new ≡ table.old) }
{
    match table.admit_copy(key, 0)? {
        Admit::At(place) => raise(table, place),
        Admit::Full => {}
    }
    Ok(())
}

// Raises the number in the row at a place.
fn raise(table: &mut KeyCounts, place: usize)
    ensures bound { table.new.bound ≡ table.old.bound }
    ensures dropped { table.new.dropped ≡ table.old.dropped }
    ensures raised { RaisesAt table.old table.new place }
{
    if let Some(count) = table.value_at(place) {
        *count = count.saturating_add(1);
    }
}

// The last table is emptied, and becomes the first.
pub(crate) fn turn(tables: &mut [KeyCounts])
    requires { 0 < length tables.old }
    ensures len { length tables.new ≡ length tables.old }
    ensures turned { Turns tables.old tables.new 1 }
{
    tables.rotate_right(1);
    tables[0].clear();
}
