//! Keys of dimensions, in which a leaf that an atom doesn't have takes no memory.
ghost use Rattle.std.specs.Prelude.{◌≡◌, [], ◌∷◌, ◌++◌, ◌<◌, true, false, nat_lt, length, Some, IfSome, IfOk, OnOk, OnErr, slice_get};
ghost use Rattle.std.specs.Option.{option_copied};
ghost use Rattle.atom_record.specs.declared.value.Leaf.TheVariants.{One, Missing};

use crate::value::MISSING;
use crate::{Leaf, Value};
use sd_base::{Duplicate, Exact};
use std::alloc::{AllocError, Global};
use std::hash::{Hash, Hasher};
use std::marker::Model;
use std::{mem, vec};

/// A leaf that an atom has, and its place among the leaves of a key.
#[derive(Drop, PartialEq, Eq)]
struct Present {
    place: usize,
    leaf: Leaf,
}

/// A key of dimensions: the values at the leaves, in the order of the leaves. A leaf that is missing takes no
/// memory: it is counted, and not kept.
#[derive(Drop)]
pub struct DimKey {
    present: Vec<Present>,
    count: usize,
}

impl Model for DimKey {
    ghost use Rattle.std.specs.Prelude.{◌≡◌, List};
    ghost use Rattle.atom_record.specs.declared.value.Leaf.{Leaf};
    ghost use Rattle.atom_record.specs.Sparse.{spread, present_in};

    ghost Value = { List Leaf };

    ghost view = { λ key. spread key.count 0 key.present.items };

    ghost invariant = { λ key. key.present.items ≡ present_in 0 (spread key.count 0 key.present.items) };
}

impl DimKey {
    ghost use Rattle.atom_record.specs.Sparse.{not_missing};

    /// The key without leaves. It takes no memory yet.
    pub fn new(alloc: Global) -> DimKey
        ensures { result ≡ [] }
    {
        DimKey {
            present: Vec::new(alloc),
            count: 0,
        }
    }

    /// The key without leaves, with room for so many that aren't missing.
    pub fn with_capacity(alloc: Global, count: usize) -> Result<DimKey, AllocError>
        ensures { IfOk result (λ key. key ≡ []) }
    {
        let present = Vec::with_capacity(alloc, count)?;
        Ok(DimKey { present, count: 0 })
    }

    /// A copy of the key. It equals its source, and memory is all that it can want.
    pub fn clone_key(&self, alloc: Global) -> Result<DimKey, AllocError>
        ensures { IfOk result (λ copy. copy ≡ self.now) }
    {
        self.duplicate(alloc)
    }

    /// The number of leaves, there or missing.
    pub fn len(&self) -> usize
        ensures { result ≡ length self.now }
    {
        self.count
    }

    /// The leaf at a place, where it isn't missing.
    #[inline(always)]
    pub fn get(&self, at: usize) -> Option<&Leaf>
        ensures { option_copied result ≡ not_missing (slice_get self.now at) }
    {
        // Where none before it is missing, it is found without a search.
        if let Some(found) = self.present.get(at)
            && found.place == at
        {
            return Some(&found.leaf);
        }
        self.search(at)
    }

    // The same, by a search for its place.
    fn search(&self, at: usize) -> Option<&Leaf>
        ensures { option_copied result ≡ not_missing (slice_get self.now at) }
    {
        let before = self.present.as_slice().partition_point(
            |one: &Present| -> bool
                ensures { result ≡ nat_lt one.now.place at }
            { one.place < at },
        );
        let found = self.present.get(before)?;
        if found.place != at {
            return None;
        }
        Some(&found.leaf)
    }

    // The one leaf of a key that has one, if it isn't missing. Most keys have one.
    #[inline(always)]
    fn only_leaf(&self) -> Option<&Leaf>
        ensures { IfSome result (λ leaf. self.now ≡ leaf.now ∷ []) }
    {
        match self.present.as_slice() {
            [one] if self.count == 1 => Some(&one.leaf),
            _ => None,
        }
    }

    /// The leaves, one after the other.
    pub fn into_leaves(self) -> Leaves
        ensures { result ≡ self }
    {
        let mut rest = self.present.into_iter();
        Leaves {
            next: rest.next(),
            rest,
            at: 0,
            count: self.count,
        }
    }

    /// Drops all leaves. The room stays.
    pub fn clear(&mut self)
        ensures { self.new ≡ [] }
    {
        self.present.clear();
        self.count = 0;
    }

    /// Adds a leaf at the end. A missing leaf takes no memory, and is turned down only where the count of leaves stands
    /// at its type's end.
    #[inline(always)]
    pub fn push(&mut self, leaf: Leaf) -> Result<(), AllocError>
        ensures added { OnOk result (self.new ≡ self.old ++ leaf ∷ []) }
        ensures missing { leaf ≡ Missing → OnErr result (length self.old ≡ usize.MAX) }
        ensures err { OnErr result (self.new ≡ self.old) }
    {
        let place = self.count;
        let Some(count) = place.checked_add(1) else {
            return Err(AllocError);
        };
        if let Leaf::Missing = leaf {
            self.count = count;
            return Ok(());
        }
        self.present.push(Present { place, leaf })?;
        self.count = count;
        Ok(())
    }

    /// Writes a number over the one leaf of a key, if that is a number of the same kind. Whether it did; if not, the
    /// key stays as it was.
    #[inline(always)]
    pub fn set_number(&mut self, value: &Value) -> bool
        ensures number { result ≡ true → self.new ≡ One value.now ∷ [] }
        ensures untouched { result ≡ false → self.new ≡ self.old }
    {
        if self.count != 1 || self.present.len() != 1 {
            return false;
        }
        match (value, &mut self.present[0].leaf) {
            (Value::Int(number), Leaf::One(Value::Int(room))) => {
                *room = *number;
                true
            }
            (Value::Long(number), Leaf::One(Value::Long(room))) => {
                *room = *number;
                true
            }
            _ => false,
        }
    }
}

/// The leaves of a key that haven't come yet, in order.
#[derive(Drop)]
pub struct Leaves {
    next: Option<Present>,
    rest: vec::IntoIter<Present, Global>,
    at: usize,
    count: usize,
}

impl Model for Leaves {
    ghost use Rattle.std.specs.Prelude.{◌≡◌, ◌-◌, ◌≤◌, List, length};
    ghost use Rattle.std.specs.Vec.Iter.{into_iter_items, into_iter_len};
    ghost use Rattle.atom_record.specs.declared.value.Leaf.{Leaf};
    ghost use Rattle.atom_record.specs.Sparse.{spread, present_in, kept_from};

    ghost Value = { List Leaf };

    ghost view = { λ s. spread (s.count - s.at) s.at (kept_from s.next (into_iter_items s.rest)) };

    ghost invariant = { λ s. (s.at ≤ s.count)
        × (into_iter_len s.rest ≡ length (into_iter_items s.rest))
        × (kept_from s.next (into_iter_items s.rest)
        ≡ present_in s.at (spread (s.count - s.at) s.at (kept_from s.next (into_iter_items s.rest)))) };
}

impl Iterator for Leaves {
    ghost use Rattle.std.specs.Iterator.{YieldsFirst, item_count};

    type Item = Leaf;

    ghost next_gives = { YieldsFirst (λ leaves. leaves) };

    ghost remaining = { item_count (λ leaves. leaves) };

    fn next(&mut self) -> Option<Leaf> {
        let at = self.at;
        if at == self.count {
            return None;
        }
        self.at = at + 1;
        match &self.next {
            Some(next) if next.place == at => {
                let next = mem::replace(&mut self.next, self.rest.next())?;
                Some(next.leaf)
            }
            _ => Some(Leaf::Missing),
        }
    }
}

impl PartialEq for DimKey {
    ghost use Rattle.std.specs.Cmp.Lexicographic.{pointwise, lists_per};
    ghost use Rattle.atom_record.specs.contracts.value.LeafPartialEq.TheImpl as leaf;
    ghost use Rattle.atom_record.specs.contracts.value.LeafPartialEq.TheImpl.Laws.{laws-law};

    ghost eq = { pointwise leaf.ghosts.eq };

    ghost laws = { lists_per laws-law };

    fn eq(&self, other: &DimKey) -> bool {
        if let (Some(one), Some(other)) = (self.only_leaf(), other.only_leaf()) {
            return *one == *other;
        }
        self.count == other.count && self.present == other.present
    }
}

impl Eq for DimKey {
    ghost use Rattle.std.specs.Cmp.Lexicographic.{lists_equiv};
    ghost use Rattle.atom_record.specs.contracts.value.LeafEq.TheImpl.Laws.{laws-law};

    ghost laws = { lists_equiv laws-law };
}

impl Exact for DimKey {
    ghost use Rattle.std.specs.Cmp.Lexicographic.{pointwise_decides};
    ghost use Rattle.atom_record.specs.Equal.{leaf_exact};

    ghost exact = { pointwise_decides leaf_exact };
}

impl DimKey {
    ghost use Rattle.std.specs.Prelude.{◌≡◌, ◌<◌, length, fold, get_or};
    ghost use Rattle.atom_record.specs.declared.value.Leaf.TheVariants.{Missing};
    ghost use Rattle.atom_record.specs.Hashing.{leaf_fed};

    // Feeds the leaf at a place before the end.
    #[inline(always)]
    fn hash_leaf<H: Hasher>(&self, at: usize, state: &mut H)
        requires { at < length self.now }
        ensures { state.new ≡ fold H.write state.old (leaf_fed (get_or self.now at Missing)) }
    {
        match self.get(at) {
            Some(leaf) => leaf.hash(state),
            None => state.write_u8(MISSING),
        }
    }
}

impl Hash for DimKey {
    ghost use Rattle.std.specs.Hash as fed;
    ghost use Rattle.std.specs.Hash.{items_Alike};
    ghost use Rattle.atom_record.specs.Hashing.{leaf_fed, leaf_alike};

    ghost hash_input = { fed.slice leaf_fed };

    ghost respects_eq = { (items_Alike leaf_alike).fed };

    fn hash<H: Hasher>(&self, state: &mut H) {
        if let Some(leaf) = self.only_leaf() {
            state.write_usize(1);
            leaf.hash(state);
            return;
        }
        state.write_usize(self.len());
        for at in 0..self.len() {
            self.hash_leaf(at, state);
        }
    }
}

impl Duplicate for DimKey {
    fn duplicate(&self, alloc: Global) -> Result<DimKey, AllocError> {
        let mut present = Vec::with_capacity(alloc, self.present.len())?;
        for one in self.present.as_slice() {
            let leaf = one.leaf.duplicate(alloc)?;
            present.push(Present {
                place: one.place,
                leaf,
            })?;
        }
        Ok(DimKey {
            present,
            count: self.count,
        })
    }
}
