//! The key of an atom in the room of another key. A number is written over the number that stood there.
ghost use Rattle.std.specs.Prelude.{◌≡◌, [], ◌∷◌, OnOk, IfSome};
ghost use Rattle.atom_record.specs.declared.value.Leaf.TheVariants.{One};
ghost use Rattle.field_select.specs.LeafValues.{key_of};

use atom_record::{Atom, DimKey, MetricKey, Value};
use config_types::Position;
use field_select::{FieldSet, key_into, leaf_value};
use sd_base::Seq;
use std::alloc::{AllocError, Global};

/// The room of a metric's key, and of the keys by which states are asked for its slices. It is used for one key after
/// the other.
#[derive(Drop)]
pub struct KeyRoom {
    pub key: MetricKey,
    pub state: DimKey,
}

impl KeyRoom {
    /// The room of a key without dimensions and slices. It takes no memory yet.
    pub fn new(alloc: Global) -> KeyRoom
        ensures { result.key ≡ record { dims = []; slices = [] } }
    {
        KeyRoom {
            key: MetricKey {
                dims: DimKey::new(alloc),
                slices: Seq::new(alloc),
            },
            state: DimKey::new(alloc),
        }
    }
}

/// What an atom has at each leaf, in the room of another key, of which nothing is left.
#[inline(always)]
pub fn atom_key_into(
    alloc: Global,
    set: &FieldSet,
    atom: &Atom,
    key: &mut DimKey,
) -> Result<(), AllocError>
    ensures { OnOk result (key.new ≡ key_of set.now atom.now) }
{
    if let Some(value) = only_value(set, atom) {
        if key.set_number(value) {
            return Ok(());
        }
    }
    key_into(alloc, set, atom, key)
}

// The value at the one leaf of a set, if it has one that doesn't have ALL, and the atom has a value there.
fn only_value<'a>(set: &FieldSet, atom: &'a Atom) -> Option<&'a Value>
    ensures { IfSome result (λ value. key_of set.now atom.now ≡ One value.now ∷ []) }
{
    let leaves = set.leaves.as_slice();
    if atom.id != set.atom_id || leaves.len() != 1 {
        return None;
    }
    let leaf = &leaves[0];
    if leaf.position == Some(Position::All) {
        return None;
    }
    leaf_value(leaf, atom)
}
