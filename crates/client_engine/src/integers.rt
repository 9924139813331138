//! The integer that an atom has at a leaf.
ghost use Rattle.std.specs.Prelude.{◌≡◌};
ghost use Rattle.field_select.specs.FieldSets.{is_all};
ghost use Rattle.metric_meaning.specs.ValueLeaves.{integer_in};
ghost use Rattle.metric_kinds.specs.Values.{integer_of};

use atom_record::{Atom, Value};
use config_types::Position;
use field_select::{LeafPath, leaf_value};

/// The integer at a leaf of the atoms of an id, if the atom has one. A leaf with ALL has none, and no text is read.
pub fn read_integer(atom_id: u32, leaf: LeafPath, atom: &Atom) -> Option<i64>
    ensures { result ≡ integer_in (record { atom_id = atom_id; leaf = leaf }) atom.now }
{
    if atom.id != atom_id || picks_all(leaf.position) {
        return None;
    }
    match leaf_value(&leaf, atom) {
        Some(value) => number_in(value),
        None => None,
    }
}

// Whether a position picks every entry from index 1 on.
fn picks_all(position: Option<Position>) -> bool
    ensures { result ≡ is_all position }
{
    matches!(position, Some(Position::All))
}

// The integer that a value is, if it is one.
fn number_in(value: &Value) -> Option<i64>
    ensures { result ≡ integer_of value.now }
{
    match value {
        Value::Int(number) => Some(*number as i64),
        Value::Long(number) => Some(*number),
        _ => None,
    }
}
