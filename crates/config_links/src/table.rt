//! The leaves of a set in a hash table, so that each is found in one step.
ghost use Rattle.std.specs.Prelude.{◌≡◌, length, map, None};
ghost use Rattle.link_rules.specs.LinkFaults.{Links, PassesTest};
ghost use Rattle.config_links.specs.declared.reasons.Reason.TheVariants.{LinkOutside};
ghost use Rattle.config_links.specs.LinkReasons.{type_fault};
ghost use Rattle.config_links.specs.MetricLinks.{is_one_of, are_one_of, leaf_place};

use crate::reasons::{Reason, make_fault};
use distinct::Distinct;
use field_select::{FieldSet, LeafPath};
use link_rules::LinkError;
use sd_base::{Exact, Seq};
use std::alloc::Global;
use std::hash::Hash;

/// The dimensions of a predicate: the atom that they are of, and its leaves.
#[derive(Drop)]
pub struct DimsTable {
    pub atom_id: u32,
    pub leaves: Distinct<LeafPath>,
}

/// Items, none of which comes twice, as a table.
pub fn table_of<T: Exact + Hash + Copy + Drop>(
    alloc: Global,
    items: &[T],
) -> Result<Distinct<T>, LinkError>
    ensures { Links result None items.now }
{
    let mut table = Distinct::new(alloc);
    for item in items {
        if !table.add(*item)? {
            return Err(LinkError::Memory);
        }
    }
    Ok(table)
}

// A count of leaves as a number. There are fewer leaves than fit.
fn number_of(count: usize) -> Result<u32, LinkError>
    ensures { Links result None count }
{
    match u32::try_from(count) {
        Ok(number) => Ok(number),
        Err(_) => Err(LinkError::Memory),
    }
}

impl DimsTable {
    // Whether a leaf of an atom is one of these.
    fn has(&self, atom_id: u32, leaf: &LeafPath) -> bool
        ensures { result ≡ is_one_of self.now.atom_id self.now.leaves atom_id leaf.now }
    {
        atom_id == self.atom_id && self.leaves.contains(leaf)
    }

    /// Whether each leaf of a set is one of these, and of the same atom.
    pub fn covers(&self, set: &FieldSet) -> bool
        ensures { result ≡ are_one_of self.now.atom_id self.now.leaves set.now }
    {
        for leaf in set.leaves.as_slice() {
            if !self.has(set.atom_id, leaf) {
                return false;
            }
        }
        true
    }

    /// How many leaves there are.
    pub fn len(&self) -> Result<u32, LinkError>
        ensures { Links result None (length self.now.leaves) }
    {
        number_of(self.leaves.as_slice().len())
    }

    // The place of a leaf.
    fn place(&self, leaf: &LeafPath) -> Result<u32, LinkError>
        ensures { Links result None (leaf_place self.now.leaves leaf.now) }
    {
        number_of(self.leaves.place(leaf).unwrap_or(0))
    }

    // The places of these leaves.
    fn places(&self, alloc: Global, leaves: &[LeafPath]) -> Result<Seq<u32>, LinkError>
        ensures { Links result None (map (leaf_place self.now.leaves) leaves.now) }
    {
        let mut places = Seq::new(alloc);
        for leaf in leaves {
            places.push(self.place(leaf)?)?;
        }
        Ok(places)
    }

    /// The places of a set's leaves, which are all among these, in an entity of this id.
    pub fn places_in(
        &self,
        alloc: Global,
        id: Option<i64>,
        set: &FieldSet,
    ) -> Result<Seq<u32>, LinkError>
        ensures { PassesTest result (are_one_of self.now.atom_id self.now.leaves set.now)
            (type_fault id LinkOutside) (map (leaf_place self.now.leaves) set.now.leaves) }
    {
        if !self.covers(set) {
            return Err(LinkError::Fault(make_fault(id, Reason::LinkOutside)));
        }
        self.places(alloc, set.leaves.as_slice())
    }
}
