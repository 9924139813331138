//! The flat forms of the states of an id, and of a book.
ghost use Rattle.std.proofs.Common.{refl};
ghost use Rattle.flat_form.specs.Bounded.{short_head};
ghost use Rattle.std.specs.Prelude.{◌≡◌, ◌≤◌, ◌++◌, ◌↔◌, [], All, IsTrue, IfSome, IfNone, OnOk, OnErr};
ghost use Rattle.std.specs.List.{flat_map};
ghost use Rattle.flat_form.specs.Flat.{Anything, IsFront, Builds, dims_items};
ghost use Rattle.dim_table.specs.TableItems.{BuildsRows};
ghost use Rattle.state_slicer.specs.StateItems.{state_items, FitsState, state_row_items, IsStateRow, HasNarrowId, IsStateTable};

use crate::states::{IdStates, MAX_STATE_KEYS};
use crate::{MAX_IDS, StateBook};
use atom_record::DimKey;
use dim_table::Guarded;
use flat_form::{Flat, FlatError, Item, Items};
use std::alloc::{AllocError, Global};

// Each state of an id is a number of 32 bits.
fn show_rows(states: &IdStates)
    ensures { All IsStateRow states.now.rows }
{
    for place in 0..states.len() {
        let Some((_key, _state)) = states.pair(place) else {
            return;
        };
    }
}

// Adds a key and its state.
fn flatten_row(key: &DimKey, state: i32, alloc: Global, out: &mut Items) -> Result<(), AllocError>
    ensures added { OnOk result (out.new ≡ out.old ++ state_row_items (key.now, state)) }
    ensures err { OnErr result (IsFront out.old out.new) }
{
    key.flatten(alloc, out)?;
    out.push(Item::Num(u64::from(state.cast_unsigned())))
}

// Adds all keys of an id, each with its state.
fn flatten_rows(states: &IdStates, alloc: Global, out: &mut Items) -> Result<(), AllocError>
    ensures added { OnOk result (out.new ≡ out.old ++ flat_map state_row_items states.now.rows) }
    ensures valid { OnOk result (All IsStateRow states.now.rows) }
    ensures err { OnErr result (IsFront out.old out.new) }
{
    for place in 0..states.len() {
        let Some((key, state)) = states.pair(place) else {
            return Ok(());
        };
        flatten_row(key, state, alloc, out)?;
    }
    Ok(())
}

// The state that stands at a place, and the place after it.
fn build_state(alloc: Global, items: &Items, place: usize) -> Result<(i32, usize), FlatError>
    ensures { Builds FitsState state_items items.now place result }
{
    let (number, next) = u64::build(alloc, items, place)?;
    if number > u64::from(u32::MAX) {
        return Err(FlatError::Bad);
    }
    Ok(((number as u32).cast_signed(), next))
}

// The key and the state that stand at a place, and the place after them.
fn build_row(
    alloc: Global,
    items: &Items,
    place: usize,
) -> Result<((DimKey, i32), usize), FlatError>
    ensures { Builds IsStateRow state_row_items items.now place result }
{
    let (key, middle) = DimKey::build(alloc, items, place)?;
    let (state, next) = build_state(alloc, items, middle)?;
    Ok(((key, state), next))
}

// The states of so many keys, which stand one after the other.
fn build_rows(
    alloc: Global,
    items: &Items,
    place: usize,
    count: u64,
    empty: IdStates,
) -> Result<(IdStates, usize), FlatError>
    requires empty { empty.rows ≡ [] }
    requires fits { count ≤ empty.bound }
    ensures { BuildsRows Anything FitsState dims_items state_items
        empty items.now place count result }
{
    let mut states = empty;
    let mut next = place;
    for _turn in 0..count {
        let ((key, state), after) = build_row(alloc, items, next)?;
        if states.has(&key) {
            return Err(FlatError::Bad);
        }
        states.append(key, state)?;
        next = after;
    }
    Ok((states, next))
}

impl Flat for IdStates {
    ghost use Rattle.state_slicer.specs.StateItems.{states_items, AreStates, HaveShortKeys, states_entries, states_bounded, states_few, states_savable};

    ghost flat = { states_items };

    ghost valid = { AreStates };

    ghost savable = { HaveShortKeys };

    ghost head = { 3 };

    ghost short = { short_head 3 refl };

    ghost entries = { states_entries };

    ghost bounded = { states_bounded };

    ghost few = { states_few };

    ghost spells = { states_savable };

    fn show_valid(&self) {
        let _count = self.len();
        show_rows(self);
    }

    fn flatten(&self, alloc: Global, out: &mut Items) -> Result<(), AllocError> {
        let count = self.len() as u64;
        let head = ((MAX_STATE_KEYS as u64, self.drops()), count);
        head.flatten(alloc, out)?;
        flatten_rows(self, alloc, out)
    }

    fn build(alloc: Global, items: &Items, place: usize) -> Result<(IdStates, usize), FlatError> {
        let (head, middle) = <((u64, u64), u64)>::build(alloc, items, place)?;
        let ((bound, dropped), count) = head;
        if bound != MAX_STATE_KEYS as u64 || count > bound {
            return Err(FlatError::Bad);
        }
        let empty = IdStates::restore(alloc, dropped);
        build_rows(alloc, items, middle, count, empty)
    }
}

// Whether each id of a table is one of 32 bits.
fn have_narrow_ids(table: &Guarded<u64, IdStates>) -> bool
    ensures { IsTrue result ↔ All HasNarrowId table.now.rows }
{
    for place in 0..table.len() {
        let Some((id, _states)) = table.pair(place) else {
            return false;
        };
        if *id > u64::from(u32::MAX) {
            return false;
        }
    }
    true
}

// The book that has this table, or none where no book has it.
fn restore(alloc: Global, ids: Guarded<u64, IdStates>) -> Option<StateBook>
    ensures made { IfSome result (λ book. (book ≡ ids) × IsStateTable ids) }
    ensures none { IfNone result (¬ IsStateTable ids) }
{
    if ids.bound() != MAX_IDS || !have_narrow_ids(&ids) {
        return None;
    }
    Some(StateBook { ids, alloc })
}

impl Flat for StateBook {
    ghost use Rattle.state_slicer.specs.StateItems.{state_book_items, IsStateBook, HasShortKeys, state_book_entries, state_book_bounded, state_book_few, state_book_savable};

    ghost flat = { state_book_items };

    ghost valid = { IsStateBook };

    ghost savable = { HasShortKeys };

    ghost head = { 3 };

    ghost short = { short_head 3 refl };

    ghost entries = { state_book_entries };

    ghost bounded = { state_book_bounded };

    ghost few = { state_book_few };

    ghost spells = { state_book_savable };

    fn show_valid(&self) {
        self.ids.show_valid();
    }

    fn flatten(&self, alloc: Global, out: &mut Items) -> Result<(), AllocError> {
        self.ids.flatten(alloc, out)
    }

    fn build(alloc: Global, items: &Items, place: usize) -> Result<(StateBook, usize), FlatError> {
        let (ids, next) = <Guarded<u64, IdStates>>::build(alloc, items, place)?;
        let Some(book) = restore(alloc, ids) else {
            return Err(FlatError::Bad);
        };
        Ok((book, next))
    }
}
