//! The key of an atom: what it has at each leaf of a set.
ghost use Rattle.std.specs.Prelude.{◌≡◌, length, take, IfOk, OnOk, OnErr, Some};
ghost use Rattle.config_types.specs.declared.fields.Position.TheVariants.{All};
ghost use Rattle.field_select.specs.LeafValues.{key_of, leaf_value, leaf_in, picked_values};

use crate::{FieldSet, LeafPath, leaf_value};
use atom_record::{Atom, AtomField, DimKey, Leaf, Value};
use config_types::Position;
use sd_base::Seq;
use std::alloc::{AllocError, Global};

/// What an atom has at each leaf, in the order of the leaves. An atom of another id has nothing at any.
pub fn key_of(alloc: Global, set: &FieldSet, atom: &Atom) -> Result<DimKey, AllocError>
    ensures key { IfOk result (λ key. key ≡ key_of set.now atom.now) }
    ensures leaves { IfOk result (λ key. length key ≡ length set.now.leaves) }
{
    // An atom has no more values than entries, however many leaves are asked for.
    let room = set.leaves.len().min(atom.fields.len());
    let mut key = DimKey::with_capacity(alloc, room)?;
    key_into(alloc, set, atom, &mut key)?;
    Ok(key)
}

/// The same, in the room of another key, of which nothing is left.
pub fn key_into(
    alloc: Global,
    set: &FieldSet,
    atom: &Atom,
    key: &mut DimKey,
) -> Result<(), AllocError>
    ensures key { OnOk result (key.new ≡ key_of set.now atom.now) }

    // After want of memory it holds as many leaves as there was room for.
    ensures err { OnErr result (key.new ≡ take (length key.new) (key_of set.now atom.now)) }
{
    key.clear();
    for leaf in set.leaves.as_slice() {
        let value = value_of(alloc, set.atom_id, leaf, atom)?;
        key.push(value)?;
    }
    Ok(())
}

// What an atom has at a leaf of this kind of atom.
fn value_of(alloc: Global, atom_id: u32, leaf: &LeafPath, atom: &Atom) -> Result<Leaf, AllocError>
    ensures { IfOk result (λ value. value ≡ leaf_value atom_id leaf.now atom.now) }
{
    if atom.id != atom_id {
        return Ok(Leaf::Missing);
    }
    if leaf.position == Some(Position::All) {
        return all_values(alloc, leaf, atom.fields.as_slice());
    }
    match leaf_value(leaf, atom) {
        Some(value) => Ok(Leaf::One(value.clone_value(alloc)?)),
        None => Ok(Leaf::Missing),
    }
}

// What an atom has at a leaf with ALL.
fn all_values(alloc: Global, leaf: &LeafPath, entries: &[AtomField]) -> Result<Leaf, AllocError>
    requires { leaf.now.position ≡ Some All }
    ensures { IfOk result (λ value. value ≡ leaf_in leaf.now entries.now) }
{
    let values = repeated_values(alloc, leaf, entries)?;
    if values.is_empty() {
        return Ok(Leaf::Missing);
    }
    Ok(Leaf::Many(values))
}

// The values from index 1 on.
fn repeated_values(
    alloc: Global,
    leaf: &LeafPath,
    entries: &[AtomField],
) -> Result<Seq<Value>, AllocError>
    requires { leaf.now.position ≡ Some All }
    ensures { IfOk result (λ values. values ≡ picked_values leaf.now entries.now) }
{
    let mut values = Seq::new(alloc);
    for entry in entries {
        if entry.field == leaf.field && entry.sub == leaf.sub && entry.index > 0 {
            values.push(entry.value.clone_value(alloc)?)?;
        }
    }
    Ok(values)
}
