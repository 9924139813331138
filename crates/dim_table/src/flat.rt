//! The flat form of a table: its bound, its count of drops, and its rows.
ghost use Rattle.std.proofs.Common.{refl};
ghost use Rattle.flat_form.specs.Bounded.{short_head};
ghost use Rattle.std.specs.Prelude.{◌≡◌, ℕ, ◌+◌, ◌<◌, ◌≤◌, [], ◌++◌, List, length, Err, MatchResult, OnOk, OnErr, All, IsTrue, ◌↔◌};
ghost use Rattle.std.specs.List.{flat_map};
ghost use Rattle.flat_form.specs.Flat.{IsFront, IsValidPair, pair_items};
ghost use Rattle.dim_table.specs.Table.{Table, IsBounded};
ghost use Rattle.dim_table.specs.TableItems.{AreRows, BuildsRows};

use crate::{Guarded, MAX_KEYS};
use flat_form::{Flat, FlatError, Items};
use sd_base::Exact;
use std::alloc::{AllocError, Global};
use std::hash::Hash;

// Adds the items of one row.
fn flatten_row<K: Flat, V: Flat>(
    key: &K,
    value: &V,
    alloc: Global,
    out: &mut Items,
) -> Result<(), AllocError>
    ensures added { OnOk result
        (out.new ≡ out.old ++ pair_items K.flat V.flat (key.now, value.now)) }
    ensures valid { OnOk result (IsValidPair K.valid V.valid (key.now, value.now)) }
    ensures err { OnErr result (IsFront out.old out.new) }
{
    key.flatten(alloc, out)?;
    value.flatten(alloc, out)
}

// Adds the items of all rows.
fn flatten_rows<K: Flat + Exact + Hash + Drop, V: Flat + Drop>(
    table: &Guarded<K, V>,
    alloc: Global,
    out: &mut Items,
) -> Result<(), AllocError>
    ensures added { OnOk result
        (out.new ≡ out.old ++ flat_map (pair_items K.flat V.flat) table.now.rows) }
    ensures valid { OnOk result (All (IsValidPair K.valid V.valid) table.now.rows) }
    ensures err { OnErr result (IsFront out.old out.new) }
{
    let count = table.len();
    for place in 0..count {
        let Some((key, value)) = table.pair(place) else {
            return Ok(());
        };
        flatten_row(key, value, alloc, out)?;
    }
    Ok(())
}

// Each row of a table is valid.
fn show_rows<K: Flat + Exact + Hash + Drop, V: Flat + Drop>(table: &Guarded<K, V>)
    ensures { All (IsValidPair K.valid V.valid) table.now.rows }
{
    let count = table.len();
    for place in 0..count {
        let Some((key, value)) = table.pair(place) else {
            return;
        };
        show_row(key, value);
    }
}

// Both parts of a row are valid.
fn show_row<K: Flat, V: Flat>(key: &K, value: &V)
    ensures { IsValidPair K.valid V.valid (key.now, value.now) }
{
    key.show_valid();
    value.show_valid();
}

// One more row of a table, with a key that the table doesn't have. The answer is the place after it.
fn build_row<K: Flat + Exact + Hash + Drop, V: Flat + Drop>(
    alloc: Global,
    items: &Items,
    place: usize,
    table: &mut Guarded<K, V>,
) -> Result<usize, FlatError>
    ensures { (empty : Table K V) (first n count : ℕ)
        → AreRows K.valid V.valid K.flat V.flat empty items.now first n table.old place
        → n < count → count ≤ empty.bound
        → MatchResult result
        (λ next. AreRows K.valid V.valid K.flat V.flat empty items.now first (n + 1) table.new next)
        (λ e. BuildsRows K.valid V.valid K.flat V.flat empty items.now first count (Err e)) }
{
    let ((key, value), after) = <(K, V)>::build(alloc, items, place)?;
    if table.place_of(&key).is_some() {
        return Err(FlatError::Bad);
    }
    table.admit(key, value)?;
    Ok(after)
}

// A table of so many rows, which stand one after the other.
fn build_rows<K: Flat + Exact + Hash + Drop, V: Flat + Drop>(
    alloc: Global,
    items: &Items,
    place: usize,
    count: u64,
    empty: Guarded<K, V>,
) -> Result<(Guarded<K, V>, usize), FlatError>
    requires empty { empty.rows ≡ [] }
    requires fits { IsBounded count empty.bound }
    ensures { BuildsRows K.valid V.valid K.flat V.flat empty items.now place count result }
{
    let mut table = empty;
    let mut next = place;
    for _turn in 0..count {
        next = build_row(alloc, items, next, &mut table)?;
    }
    Ok((table, next))
}

// Whether a table with this bound may hold so many rows.
fn may_hold(count: u64, bound: u64) -> bool
    ensures { IsTrue result ↔ IsBounded count bound }
{
    1 <= bound && bound <= MAX_KEYS as u64 && count <= bound
}

impl<K: Flat + Exact + Hash + Drop, V: Flat + Drop> Flat for Guarded<K, V> {
    ghost use Rattle.dim_table.specs.TableItems.{table_items, IsTable, table_entries, table_bounded, table_few, table_savable};
    ghost use Rattle.flat_form.specs.Flat.{IsValidPair};

    ghost flat = { table_items K.flat V.flat };

    ghost valid = { IsTable K.valid V.valid };

    ghost savable = { λ table. All (IsValidPair K.savable V.savable) table.rows };

    ghost head = { 3 };

    ghost short = { short_head 3 refl };

    ghost entries = { table_entries K.flat V.flat };

    ghost bounded = { table_bounded K.flat V.flat K.valid V.valid };

    ghost few = { table_few K.flat V.flat };

    ghost spells = { table_savable K.flat V.flat K.valid V.valid K.savable V.savable K.spells V.spells };

    fn show_valid(&self) {
        let _bound = self.bound();
        let _count = self.len();
        show_rows(self);
    }

    fn flatten(&self, alloc: Global, out: &mut Items) -> Result<(), AllocError> {
        let count = self.len() as u64;
        let head = ((self.bound() as u64, self.dropped()), count);
        head.flatten(alloc, out)?;
        flatten_rows(self, alloc, out)
    }

    fn build(
        alloc: Global,
        items: &Items,
        place: usize,
    ) -> Result<(Guarded<K, V>, usize), FlatError> {
        let (head, middle) = <((u64, u64), u64)>::build(alloc, items, place)?;
        let ((bound, dropped), count) = head;
        if !may_hold(count, bound) {
            return Err(FlatError::Bad);
        }
        let empty = Guarded::restore(alloc, bound as usize, dropped);
        build_rows(alloc, items, middle, count, empty)
    }
}
