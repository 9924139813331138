//! The value at a leaf, borrowed from the atom.
ghost use Rattle.std.specs.Prelude.{◌≡◌, Some, None, true, false};
ghost use Rattle.std.specs.Option.{option_copied};
ghost use Rattle.field_select.specs.FieldSets.{is_all};
ghost use Rattle.field_select.specs.LeafValues.{picks_entry, picked_values, first_value, one_or_missing, leaf_in};
ghost use Rattle.field_select.specs.FieldEnds.{end_position, found_after, nearest_step, picks_each};

use crate::LeafPath;
use crate::ends::{End, nearer};
use atom_record::{Atom, AtomField, Value};
use config_types::Position;

/// The value at a leaf that doesn't have ALL, or none where the leaf picks no entry. The atom's id isn't looked at.
pub fn leaf_value<'a>(leaf: &LeafPath, atom: &'a Atom) -> Option<&'a Value>
    requires not_all { is_all leaf.now.position ≡ false }
    ensures value { option_copied result ≡ first_value (picked_values leaf.now atom.now.fields) }
    ensures leaf { one_or_missing (option_copied result) ≡ leaf_in leaf.now atom.now.fields }
{
    let entries = atom.fields.as_slice();
    match leaf.position {
        None => plain_value(leaf, entries),
        Some(Position::First) => end_value(End::First, leaf, entries),
        Some(Position::Last) => end_value(End::Last, leaf, entries),
        Some(Position::Any | Position::All) => repeated_value(leaf, entries),
    }
}

// The first value at index 0.
fn plain_value<'a>(leaf: &LeafPath, entries: &'a [AtomField]) -> Option<&'a Value>
    requires { leaf.now.position ≡ None }
    ensures { option_copied result ≡ first_value (picked_values leaf.now entries.now) }
{
    for entry in entries {
        if entry.field == leaf.field && entry.sub == leaf.sub && entry.index == 0 {
            return Some(&entry.value);
        }
    }
    None
}

// The first value from index 1 on.
fn repeated_value<'a>(leaf: &LeafPath, entries: &'a [AtomField]) -> Option<&'a Value>
    requires { picks_each leaf.now.position ≡ true }
    ensures { option_copied result ≡ first_value (picked_values leaf.now entries.now) }
{
    for entry in entries {
        if entry.field == leaf.field && entry.sub == leaf.sub && entry.index > 0 {
            return Some(&entry.value);
        }
    }
    None
}

// The first value at the index that is nearest to an end. The index is known only after all entries were read; so the
// walk keeps what it found at the nearest index so far, and begins anew at a nearer one.
fn end_value<'a>(end: End, leaf: &LeafPath, entries: &'a [AtomField]) -> Option<&'a Value>
    requires { leaf.now.position ≡ Some (end_position end) }
    ensures { option_copied result ≡ first_value (picked_values leaf.now entries.now) }
{
    let mut index = 0;
    let mut found = None;
    for entry in entries {
        if entry.field == leaf.field && entry.index > 0 {
            (index, found) = step(end, leaf.sub, index, found, entry);
        }
    }
    found
}

// One step of that walk, at an entry of the field.
fn step<'a>(
    end: End,
    sub: u8,
    index: u8,
    found: Option<&'a Value>,
    entry: &'a AtomField,
) -> (u8, Option<&'a Value>)
    ensures index { result.0
        ≡ (nearest_step end sub index (option_copied found.entry) entry.now).0 }
    ensures found { option_copied result.1
        ≡ (nearest_step end sub index (option_copied found.entry) entry.now).1 }
{
    if nearer(end, index, entry.index) != index {
        return (entry.index, found_at(sub, None, entry));
    }
    if entry.index != index {
        return (index, found);
    }
    (index, found_at(sub, found, entry))
}

// The value of an entry that has this sub, if none was found before it.
fn found_at<'a>(sub: u8, found: Option<&'a Value>, entry: &'a AtomField) -> Option<&'a Value>
    ensures { option_copied result ≡ found_after sub (option_copied found.entry) entry.now }
{
    if entry.sub == sub && found.is_none() {
        return Some(&entry.value);
    }
    found
}
