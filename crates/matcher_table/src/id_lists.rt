//! Lists of slots and of ids.
ghost use Rattle.std.specs.Prelude.{◌≡◌, ℕ, ◌<◌, ◌≤◌, [], ◌∷◌, ◌++◌, OnOk, OnErr, length, slice_index, IfSome, IfNone, IsTrue, false};
ghost use Rattle.matcher_table.specs.Slots.{times_among};
ghost use Rattle.matcher_table.specs.Hanging.{LeavesList};

use sd_base::Seq;
use std::alloc::AllocError;

/// Adds a slot at the end.
pub(crate) fn push_slot(slots: &mut Vec<usize>, slot: usize) -> Result<(), AllocError>
    ensures ok { OnOk result (slots.new.items ≡ slots.old.items ++ slot ∷ []) }
    ensures err { OnErr result (slots.new.items ≡ slots.old.items) }
{
    slots.push(slot)?;
    Ok(())
}

/// Takes a slot out of one place, if it is there.
pub(crate) fn leave_one(slots: &mut Vec<usize>, slot: usize)
    ensures { LeavesList slot slots.old.items slots.new.items }
{
    match place_of(slots.as_slice(), slot) {
        Some(at) => {
            slots.remove(at);
        }
        None => {}
    }
}

// The first place of a slot.
fn place_of(slots: &[usize], slot: usize) -> Option<usize>
    ensures found { IfSome result (λ at. (at < length slots.now) × (slice_index slots.now at ≡ slot)) }
    ensures absent { IfNone result (times_among slot slots.now ≡ 0) }
{
    for (at, other) in slots.iter().enumerate() {
        if *other == slot {
            return Some(at);
        }
    }
    None
}

/// Adds the ids that the list doesn't have.
pub(crate) fn add_missing(ids: &mut Seq<u32>, more: &[u32]) -> Result<(), AllocError>
    requires { (id : ℕ) → times_among id ids.old ≤ 1 }
    ensures once { (id : ℕ) → times_among id ids.new ≤ 1 }
    ensures kept { (id : ℕ) → 0 < times_among id ids.old → 0 < times_among id ids.new }
    ensures added { OnOk result ((id : ℕ) → 0 < times_among id more.now → 0 < times_among id ids.new) }
{
    for id in more {
        add_if_missing(ids, *id)?;
    }
    Ok(())
}

// Adds an id unless the list has it.
fn add_if_missing(ids: &mut Seq<u32>, id: u32) -> Result<(), AllocError>
    requires { (other : ℕ) → times_among other ids.old ≤ 1 }
    ensures once { (other : ℕ) → times_among other ids.new ≤ 1 }
    ensures kept { (other : ℕ) → 0 < times_among other ids.old → 0 < times_among other ids.new }
    ensures added { OnOk result (0 < times_among id ids.new) }
{
    if has_id(ids.as_slice(), id) {
        return Ok(());
    }
    ids.push(id)?;
    Ok(())
}

// Whether an id stands in the list.
fn has_id(ids: &[u32], id: u32) -> bool
    ensures found { IsTrue result → 0 < times_among id ids.now }
    ensures absent { result ≡ false → times_among id ids.now ≡ 0 }
{
    for other in ids {
        if *other == id {
            return true;
        }
    }
    false
}
