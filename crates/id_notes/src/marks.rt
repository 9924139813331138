//! Marks of low ids, so that an id that nobody hears costs no look-up.
ghost use Rattle.std.specs.Prelude.{◌≡◌, ◌≢◌, ℕ, ◌<◌, ◌≤◌, true, false, length, slice_index_or, OnOk};
ghost use Rattle.id_notes.specs.Marks.{is_marked};

use std::alloc::AllocError;

// The ids below it have marks. Few atoms have a higher one.
const MARKED_IDS: u32 = 65_536;

/// Whether an id is marked, as all are that have no mark.
pub(crate) fn is_marked(marks: &[bool], id: u32) -> bool
    ensures { result ≡ is_marked marks.now id }
{
    if id >= MARKED_IDS {
        return true;
    }
    match marks.get(id as usize) {
        Some(mark) => *mark,
        None => false,
    }
}

/// Marks an id, unless it has no mark.
pub(crate) fn mark(marks: &mut Vec<bool>, id: u32) -> Result<(), AllocError>
    ensures own { OnOk result (is_marked marks.new.items id ≡ true) }
    ensures others { (other : ℕ) → other ≢ id → is_marked marks.new.items other ≡ is_marked marks.old.items other }
{
    if id >= MARKED_IDS {
        return Ok(());
    }
    let place = id as usize;
    lengthen(marks, place + 1)?;
    marks[place] = true;
    Ok(())
}

// So many marks at least.
fn lengthen(marks: &mut Vec<bool>, len: usize) -> Result<(), AllocError>
    ensures same { (id : ℕ) → slice_index_or marks.new.items id false ≡ slice_index_or marks.old.items id false }
    ensures long { OnOk result (len ≤ length marks.new.items) }
{
    if len <= marks.len() {
        return Ok(());
    }
    marks.resize(len, false)
}

/// Notes a place of a low id.
pub(crate) fn note_place(places: &mut Vec<usize>, id: u32, place: usize) -> Result<(), AllocError> {
    if id >= MARKED_IDS {
        return Ok(());
    }
    let at = id as usize;
    if places.len() <= at {
        places.resize(at + 1, 0)?;
    }
    places[at] = place;
    Ok(())
}

/// Takes the mark of an id away, if it has one.
pub(crate) fn unmark(marks: &mut [bool], id: u32)
    ensures { (other : ℕ) → other ≢ id → is_marked marks.new other ≡ is_marked marks.old other }
{
    let place = id as usize;
    if place < marks.len() {
        marks[place] = false;
    }
}
