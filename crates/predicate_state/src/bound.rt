//! Binds of every leaf, as the key that they ask for.
ghost use Rattle.std.specs.Prelude.{◌≡◌, IsTrue, ◌↔◌, slice_get};
ghost use Rattle.predicate_state.specs.BoundKeys.{AreInOrder, bound_key};
ghost use Rattle.predicate_state.specs.PredicateTable.{same_leaves};
ghost use Rattle.predicate_state.specs.PredicateTruths.{is_leaf};

use crate::Bind;
use atom_record::{DimKey, Leaf};
use indexmap::Equivalent;
use std::hash::{Hash, Hasher};

/// Binds that stand for the key of their values, in order, by which a row is found.
#[derive(Clone, Copy, PartialEq, Eq)]
pub struct BoundKey<'a> {
    pub binds: &'a [Bind],
}

/// Whether the binds are those of the leaves of a key of so many, each once and in order.
pub fn are_in_order(binds: &[Bind], leaves: u32) -> bool
    ensures { IsTrue result ↔ AreInOrder leaves binds.now }
{
    if binds.len() != leaves as usize {
        return false;
    }
    for place in 0..leaves {
        if binds[place as usize].place != place {
            return false;
        }
    }
    true
}

/// Whether a key has this leaf at a place.
pub fn has_leaf(key: &DimKey, at: usize, leaf: &Leaf) -> bool
    ensures { result ≡ is_leaf (slice_get key.now at) leaf.now }
{
    match key.get(at) {
        Some(found) => *found == *leaf,
        None => at < key.len() && Leaf::Missing == *leaf,
    }
}

// Whether these are the values of the binds, in order.
fn has_values(binds: &[Bind], key: &DimKey) -> bool
    ensures { result ≡ same_leaves (bound_key binds.now) key.now }
{
    if binds.len() != key.len() {
        return false;
    }
    for at in 0..binds.len() {
        if !has_leaf(key, at, &binds[at].value) {
            return false;
        }
    }
    true
}

impl Hash for BoundKey<'_> {
    ghost use Rattle.predicate_state.specs.BoundKeys.{bound_fed, bound_alike};

    ghost hash_input = { λ bound. bound_fed bound.binds.now };

    ghost respects_eq = { λ one other. bound_alike one.binds.now other.binds.now };

    fn hash<H: Hasher>(&self, state: &mut H) {
        state.write_usize(self.binds.len());
        for at in 0..self.binds.len() {
            self.binds[at].value.hash(state);
        }
    }
}

impl Equivalent<DimKey> for BoundKey<'_> {
    ghost use Rattle.predicate_state.specs.BoundKeys.{bound_key, key_alike, key_respects};
    ghost use Rattle.predicate_state.specs.PredicateTable.{same_leaves};

    ghost equivalent = { λ bound. same_leaves (bound_key bound.binds.now) };

    ghost respects_hash = { λ bound. key_alike bound.binds.now };

    ghost respects_eq = { λ bound. key_respects bound.binds.now };

    fn equivalent(&self, key: &DimKey) -> bool {
        has_values(self.binds, key)
    }
}
