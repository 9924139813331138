//! Whether what a link asks for is a key of its predicate, found without making what it asks.
ghost use Rattle.std.specs.Prelude.{◌≡◌, Some, map, slice_get};
ghost use Rattle.std.specs.Option.{option_copied};
ghost use Rattle.atom_record.specs.Sparse.{not_missing};
ghost use Rattle.atom_record.specs.declared.value.Leaf.{Leaf};
ghost use Rattle.predicate_state.specs.PredicateTable.{same_leaves};
ghost use Rattle.predicate_state.specs.PredicateTruths.{agrees, is_leaf};
ghost use Rattle.condition_links.specs.LinkBinds.{binds_of, binds_for_key, value_at_leaf, key_values_at};

use crate::links::first_place;
use atom_record::{DimKey, Leaf};
use config_links::LLink;
use field_select::{FieldSet, LeafPath};

/// Whether a key of a link's predicate has all that the link asks for a key of another predicate, whose values are
/// those of the leaves of `inner`.
pub fn asks_for(link: &LLink, inner: &FieldSet, key: &DimKey, other: &DimKey) -> bool
    ensures { result ≡ agrees (binds_for_key link.now inner.now key.now) other.now }
{
    let places = link.places.as_slice();
    let leaves = link.in_what.leaves.as_slice();
    have_values(inner.leaves.as_slice(), key, leaves, other, places)
}

/// Whether a key with the values of the leaves of `inner` reads as another key at the leaves of a set.
pub fn reads_as(inner: &FieldSet, key: &DimKey, set: &FieldSet, read: &DimKey) -> bool
    ensures { result ≡ same_leaves read.now (key_values_at inner.now key.now set.now) }
{
    are_values(inner.leaves.as_slice(), key, set.leaves.as_slice(), read)
}

// Whether these are the values that a key of some leaves has at others.
fn are_values(inner: &[LeafPath], key: &DimKey, leaves: &[LeafPath], read: &DimKey) -> bool
    ensures { result
        ≡ same_leaves read.now (map (value_at_leaf inner.now key.now) leaves.now) }
{
    if read.len() != leaves.len() {
        return false;
    }
    for turn in 0..leaves.len() {
        let Some(leaf) = leaves.get(turn) else {
            return true;
        };
        if !is_value(read, turn, value_of(inner, key, leaf)) {
            return false;
        }
    }
    true
}

// Whether a key has at each of these places the value that has its turn: those that a key of some leaves has at others.
fn have_values(
    inner: &[LeafPath],
    key: &DimKey,
    leaves: &[LeafPath],
    other: &DimKey,
    places: &[u32],
) -> bool
    ensures { result ≡ agrees (binds_of places.now
        (map (value_at_leaf inner.now key.now) leaves.now)) other.now }
{
    for turn in 0..leaves.len() {
        let Some(leaf) = leaves.get(turn) else {
            return true;
        };
        let Some(place) = places.get(turn) else {
            return true;
        };
        if !is_value(other, *place as usize, value_of(inner, key, leaf)) {
            return false;
        }
    }
    true
}

// The value that a key of some leaves has at one of them, unless it is missing.
fn value_of<'a>(inner: &[LeafPath], key: &'a DimKey, leaf: &LeafPath) -> Option<&'a Leaf>
    ensures { option_copied result ≡ not_missing (Some (value_at_leaf inner.now key.now leaf.now)) }
{
    match first_place(inner, leaf) {
        Some(place) => key.get(place),
        None => None,
    }
}

// Whether a key has this value at a place; none is a missing one.
fn is_value(key: &DimKey, at: usize, value: Option<&Leaf>) -> bool
    ensures { (leaf : Leaf) → option_copied value.entry ≡ not_missing (Some leaf)
        → result ≡ is_leaf (slice_get key.now at) leaf }
{
    match (key.get(at), value) {
        (Some(found), Some(leaf)) => *found == *leaf,
        (None, None) => at < key.len(),
        _ => false,
    }
}
