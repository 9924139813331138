//! Arrivals and saved tables that were worked out by hand.
use super::super::asserts::{assert_found, assert_holds};
use super::samples::numbers;
use dim_table::Admit::{At, Full};
use dim_table::{Admit, Guarded, MAX_KEYS};
use flat_form::{Flat, FlatError, Items, rebuild};
use std::alloc::{AllocError, Global};
use std::process::Abort;

// Counts an arrival in its key's row.
fn count(table: &mut Guarded<u32, u64>, key: u32) -> Result<Admit, AllocError> {
    let admit = table.admit(key, 0)?;
    if let At(place) = admit
        && let Some(times) = table.value_at(place)
    {
        *times = times.saturating_add(1);
    }
    Ok(admit)
}

// Whether an arrival of this key is answered so.
fn answers(table: &mut Guarded<u32, u64>, key: u32, admit: Admit) -> bool {
    match count(table, key) {
        Ok(answer) => answer == admit,
        Err(AllocError) => false,
    }
}

// Whether this key with this value stands at the place.
fn has_row(table: &Guarded<u32, u64>, place: usize, key: u32, value: u64) -> bool {
    match table.pair(place) {
        Some((other, times)) => *other == key && *times == value,
        None => false,
    }
}

// Whether the table has these rows and no others.
fn has_rows(table: &Guarded<u32, u64>, rows: &[(u32, u64)]) -> bool {
    let mut same = table.len() == rows.len();
    for (place, (key, value)) in rows.iter().enumerate() {
        same &= has_row(table, place, *key, *value);
    }
    same
}

// Asserts that each arrival of a key is answered so, and that so many are dropped then.
fn assert_arrivals(rt: &impl Abort, table: &mut Guarded<u32, u64>, rows: &[(u32, Admit, u64)]) {
    for &(key, admit, dropped) in rows {
        assert_holds(
            rt,
            answers(table, key, admit) && table.dropped() == dropped,
            &key,
        );
    }
}

// Arrivals in a table of two keys.
const FIRST: &[(u32, Admit, u64)] = &[
    (7, At(0), 0),
    (9, At(1), 0),
    (8, Full, 1),
    (7, At(0), 1),
    (8, Full, 2),
];

#[test]
fn admits_the_first_keys_and_counts_each_other_arrival(rt: HostRuntime) {
    let mut table = Guarded::new(rt.alloc(), 2);
    assert_arrivals(&rt, &mut table, FIRST);
    assert!(rt; has_rows(&table, &[(7, 2), (9, 1)]) && table.bound() == 2);
}

// Whether an arrival of each key is counted or dropped.
fn count_all(table: &mut Guarded<u32, u64>, keys: &[u32]) -> bool {
    let mut all = true;
    for key in keys {
        all &= count(table, *key).is_ok();
    }
    all
}

// Whether what a bucket has is given away: the rows, the drops and the bound.
fn gives_rows(table: &mut Guarded<u32, u64>) -> bool {
    let closed = table.take_rows();
    has_rows(&closed, &[(7, 2), (9, 1)]) && closed.dropped() == 2 && closed.bound() == 2
}

// Arrivals in the next bucket.
const NEXT: &[(u32, Admit, u64)] = &[(8, At(0), 0), (7, At(1), 0), (9, Full, 1)];

#[test]
fn begins_each_bucket_with_no_keys_and_no_drops(rt: HostRuntime) {
    let mut table = Guarded::new(rt.alloc(), 2);
    assert!(rt; count_all(&mut table, &[7, 9, 8, 7, 8]));
    assert!(rt; gives_rows(&mut table));
    assert!(rt; has_rows(&table, &[]) && table.dropped() == 0 && table.bound() == 2);
    assert_arrivals(&rt, &mut table, NEXT);
    assert!(rt; has_rows(&table, &[(8, 1), (7, 1)]) && table.dropped() == 1);
}

// Whether three keys are counted, and found where they stand.
fn finds_three(table: &mut Guarded<u32, u64>) -> bool {
    count_all(table, &[4, 2, 6])
        && table.place_of(&2) == Some(1)
        && table.place_of(&6) == Some(2)
        && table.place_of(&5).is_none()
}

// Whether the first is removed once, and the others close up.
fn removes_the_first(table: &mut Guarded<u32, u64>) -> bool {
    table.remove(&4) == Some(1)
        && table.remove(&4).is_none()
        && has_rows(table, &[(2, 1), (6, 1)])
        && table.place_of(&6) == Some(1)
}

// Whether a table that is cleared has no keys, and keeps its drops.
fn is_cleared(table: &mut Guarded<u32, u64>) -> bool {
    table.clear();
    table.is_empty() && table.dropped() == 5 && table.place_of(&2).is_none()
}

#[test]
fn closes_up_after_a_removal(rt: HostRuntime) {
    let mut table = Guarded::restore(rt.alloc(), 3, 5);
    assert!(rt; finds_three(&mut table));
    assert!(rt; removes_the_first(&mut table));
    assert!(rt; answers(&mut table, 4, At(2)));
    assert!(rt; is_cleared(&mut table));
}

// Whether a million arrivals of 3,000 keys are each answered by the key's place.
fn answers_a_million(table: &mut Guarded<u32, u64>) -> bool {
    let mut all = true;
    for arrival in 0..1_000_000u32 {
        all &= answers(table, arrival % 3000, At(arrival as usize % 3000));
    }
    all
}

#[test]
fn a_million_arrivals_of_known_keys_take_little_time(rt: HostRuntime) {
    assert!(rt; MAX_KEYS == 3000);
    let mut table = Guarded::new(rt.alloc(), 3000);
    assert!(rt; answers_a_million(&mut table));
    assert!(rt; table.len() == 3000 && table.dropped() == 0 && has_row(&table, 2999, 2999, 333));
}

// Whether a table takes as many keys as it may, and drops one.
fn fill(table: &mut Guarded<u64, u64>) -> bool {
    let mut all = true;
    for key in 0..3001u64 {
        all &= table.admit(key, key).is_ok();
    }
    all
}

// Whether a table is full, with its drop.
fn is_full(table: &Guarded<u64, u64>) -> bool {
    table.len() == 3000
        && table.bound() == 3000
        && table.dropped() == 1
        && table.place_of(&0) == Some(0)
        && table.place_of(&2999) == Some(2999)
}

// Whether a full table is rebuilt, with its drop.
fn is_rebuilt(alloc: Global, table: &Guarded<u64, u64>) -> bool {
    match rebuild(alloc, table) {
        Ok(copy) => is_full(&copy),
        Err(_) => false,
    }
}

// How many items a table is.
fn count_items(alloc: Global, table: &Guarded<u64, u64>) -> Result<usize, AllocError> {
    let mut items = Items::new(alloc);
    table.flatten(alloc, &mut items)?;
    Ok(items.len())
}

#[test]
fn a_full_table_is_rebuilt(rt: HostRuntime) {
    let mut table = Guarded::new(rt.alloc(), 3000);
    assert!(rt; fill(&mut table));
    assert!(rt; is_rebuilt(rt.alloc(), &table));
    assert!(rt; count_items(rt.alloc(), &table) == Ok(6003));
}

fn is_bad(alloc: Global, items: &Items) -> bool {
    matches!(
        Guarded::<u64, u64>::build(alloc, items, 0),
        Err(FlatError::Bad)
    )
}

// Whether these items, and no more of them, build a table of so many rows.
fn is_built(alloc: Global, items: &Items, len: usize) -> bool {
    match Guarded::<u64, u64>::build(alloc, items, 0) {
        Ok((table, next)) => table.len() == len && next == items.len(),
        Err(_) => false,
    }
}

// Whether these numbers build a table of so many rows, or where no length is given nothing at all.
fn is_judged(alloc: Global, row: &[u64], len: Option<usize>) -> Result<bool, AllocError> {
    let items = numbers(alloc, row)?;
    Ok(match len {
        Some(len) => is_built(alloc, &items, len),
        None => is_bad(alloc, &items),
    })
}

// Numbers, and the length of the table that they are.
const TABLES: &[(&[u64], Option<usize>)] = &[
    (&[2, 5, 2, 7, 70, 8, 80], Some(2)),
    (&[2, 5, 1, 7, 70], Some(1)),
    (&[1, 0, 0], Some(0)),
    (&[3000, 5, 0], Some(0)),
    // a key twice, at the second row and at the third
    (&[2, 5, 2, 7, 70, 7, 80], None),
    (&[3, 5, 3, 7, 70, 8, 80, 7, 70], None),
    // a row past the bound
    (&[1, 5, 2, 7, 70, 8, 80], None),
    // a bound that no table has
    (&[0, 5, 0], None),
    (&[3001, 5, 0], None),
    // a row that is cut, and a head that is
    (&[2, 5, 2, 7, 70, 8], None),
    (&[2, 5], None),
    (&[], None),
];

#[test]
fn builds_the_tables_that_may_be_and_no_others(rt: HostRuntime) {
    for &(row, len) in TABLES {
        assert_found(&rt, is_judged(rt.alloc(), row, len), &row);
    }
}
