//! Lists of slots in a row, each under its place.
ghost use Rattle.std.specs.Prelude.{◌≡◌, ◌≢◌, ℕ, ◌<◌, ◌^◌, [], ◌∷◌, ◌++◌, length, OnOk, OnErr};
ghost use Rattle.matcher_table.specs.Hanging.{slots_at, LeavesList};

use crate::id_lists::{leave_one, push_slot};
use std::alloc::{AllocError, Global};

/// The list at a place; past the end it is empty.
pub(crate) fn list_at(lists: &[Vec<usize>], at: usize) -> &[usize]
    ensures { result.now ≡ slots_at lists.now at }
{
    match lists.get(at) {
        Some(list) => list.as_slice(),
        None => &[],
    }
}

/// Adds a slot at the end of the list at a place.
pub(crate) fn join_at(
    alloc: Global,
    lists: &mut Vec<Vec<usize>>,
    at: usize,
    slot: usize,
) -> Result<(), AllocError>
    requires { at < 2 ^ 32 }
    ensures own { OnOk result (slots_at lists.new.items at ≡ slots_at lists.old.items at ++ slot ∷ []) }
    ensures err { OnErr result (slots_at lists.new.items at ≡ slots_at lists.old.items at) }
    ensures others { (other : ℕ) → other ≢ at → slots_at lists.new.items other ≡ slots_at lists.old.items other }
{
    make_room(alloc, lists, at)?;
    push_slot(&mut lists[at], slot)
}

// Makes empty lists, as far as there is none at this place.
fn make_room(alloc: Global, lists: &mut Vec<Vec<usize>>, at: usize) -> Result<(), AllocError>
    requires { at < 2 ^ 32 }
    ensures same { (other : ℕ) → slots_at lists.new.items other ≡ slots_at lists.old.items other }
    ensures room { OnOk result (at < length lists.new.items) }
{
    for _turn in lists.len()..at + 1 {
        lists.push(Vec::new(alloc))?;
    }
    Ok(())
}

/// Takes a slot out of the list at a place. A list that gets empty keeps its room.
pub(crate) fn leave_at(lists: &mut [Vec<usize>], at: usize, slot: usize)
    ensures left { LeavesList slot (slots_at lists.old at) (slots_at lists.new at) }
    ensures others { (other : ℕ) → other ≢ at → slots_at lists.new other ≡ slots_at lists.old other }
{
    if at < lists.len() {
        leave_one(&mut lists[at], slot);
    }
}
