//! What a state atom tells: its key, its state, and whether it puts all states of its id back.
ghost use Rattle.std.specs.Prelude.{◌≡◌, IfOk};
ghost use Rattle.std.specs.List.{find};
ghost use Rattle.std.specs.Option.{option_copied};
ghost use Rattle.atom_record.specs.Flags.{is_exclusive};
ghost use Rattle.book_meaning.specs.States.{tells_state, told_state, int_or_unknown, puts_back, primary_leaves, primary_key};

use atom_record::{Atom, AtomField, DimKey, EXCLUSIVE, Leaf, PRIMARY, RESET, Value, has_flag};
use sd_base::{Duplicate, Seq};
use std::alloc::{AllocError, Global};

// The state of which nothing is known.
pub const UNKNOWN: i32 = -1;

// The number that a value holds, if it is an Int.
fn read_int(value: &Value) -> i32
    ensures { result ≡ int_or_unknown value.now }
{
    match value {
        Value::Int(state) => *state,
        _ => UNKNOWN,
    }
}

// The first exclusive entry of these.
fn exclusive_entry(entries: &[AtomField]) -> Option<&AtomField>
    ensures { option_copied result ≡ find is_exclusive entries.now }
{
    for entry in entries {
        if has_flag(entry.flags, EXCLUSIVE) {
            return Some(entry);
        }
    }
    None
}

/// Whether an atom tells a state: it has an exclusive entry. One look at the flags of each entry.
pub fn has_state(atom: &Atom) -> bool
    ensures { result ≡ tells_state atom.now }
{
    exclusive_entry(atom.fields.as_slice()).is_some()
}

/// The state that an atom tells.
pub fn read_state(atom: &Atom) -> i32
    ensures { result ≡ told_state atom.now }
{
    match exclusive_entry(atom.fields.as_slice()) {
        Some(entry) => read_int(&entry.value),
        None => UNKNOWN,
    }
}

/// Whether an atom puts all states of its id back.
pub fn resets_states(atom: &Atom) -> bool
    ensures { result ≡ puts_back atom.now }
{
    atom.fields
        .as_slice()
        .iter()
        .any(|entry| has_flag(entry.flags, RESET))
}

// The values of the primary entries of these, with room for so many.
fn primary_values(alloc: Global, entries: &[AtomField], room: usize) -> Result<DimKey, AllocError>
    ensures { IfOk result (λ key. key ≡ primary_leaves entries.now) }
{
    let mut key = DimKey::with_capacity(alloc, room)?;
    for entry in entries {
        if !has_flag(entry.flags, PRIMARY) {
            continue;
        }
        let value = entry.value.duplicate(alloc)?;
        key.push(Leaf::One(value))?;
    }
    Ok(key)
}

/// The key of a state atom: the values of its primary entries. It takes no more room than these.
pub fn told_key(alloc: Global, atom: &Atom) -> Result<DimKey, AllocError>
    ensures { IfOk result (λ key. key ≡ primary_key atom.now) }
{
    let entries = atom.fields.as_slice();
    let room = entries
        .iter()
        .filter(|entry| has_flag(entry.flags, PRIMARY))
        .count();
    primary_values(alloc, entries, room)
}
