//! Links of a metric to predicates.
ghost use Rattle.std.specs.Prelude.{◌≡◌, map, slice_index_or, None};
ghost use Rattle.std.specs.List.{list_all};
ghost use Rattle.link_rules.specs.LinkFaults.{Links};
ghost use Rattle.config_links.specs.LinkReasons.{StaysInside, no_leaf};
ghost use Rattle.config_links.specs.MetricLinks.{is_even, is_bound, leaves_and_places, bound_parts, linked_link};

use crate::LLink;
use crate::scope::Scope;
use crate::sets::LinkSets;
use crate::table::table_of;
use field_select::{FieldSet, LeafPath};
use link_rules::LinkError;
use sd_base::Seq;
use std::alloc::Global;

// What stands for a leaf where none does.
const NO_LEAF: LeafPath = LeafPath {
    field: 0,
    position: None,
    sub: 0,
};

/// Whether each link has as many leaves on both sides, and not none.
pub fn are_even(links: &[LinkSets]) -> bool
    ensures { result ≡ list_all is_even links.now }
{
    for sets in links {
        let leaves = sets.in_what.leaves.len();
        if leaves == 0 || leaves != sets.in_condition.leaves.len() {
            return false;
        }
    }
    true
}

// The places that are named, of so many, in rising order, each with the leaf that has its turn there.
fn put_in_order(
    alloc: Global,
    count: u32,
    named: &[u32],
    leaves: &[LeafPath],
) -> Result<(Seq<LeafPath>, Seq<u32>), LinkError>
    ensures { Links result None (leaves_and_places count named.now leaves.now) }
{
    let turns = table_of(alloc, named)?;
    let mut ordered = Seq::new(alloc);
    let mut places = Seq::new(alloc);
    for place in 0..count {
        if turns.contains(&place) {
            let turn = turns.place(&place).unwrap_or(0);
            ordered.push(leaf_at(leaves, turn))?;
            places.push(place)?;
        }
    }
    Ok((ordered, places))
}

// The leaf at a place.
fn leaf_at(leaves: &[LeafPath], at: usize) -> LeafPath
    ensures { result ≡ slice_index_or leaves.now at no_leaf }
{
    match leaves.get(at) {
        Some(leaf) => *leaf,
        None => NO_LEAF,
    }
}

// The leaves of a link and their places among the dimensions of its predicate, in a metric of this id.
fn bind_leaves(
    alloc: Global,
    scope: &Scope,
    id: Option<i64>,
    sets: &LinkSets,
) -> Result<(Seq<LeafPath>, Seq<u32>), LinkError>
    ensures { StaysInside result id (is_bound scope.now sets.now) (bound_parts scope.now sets.now) }
{
    let table = scope.dims_of(alloc, sets.condition.unwrap_or(0))?;
    let named = table.places_in(alloc, id, &sets.in_condition)?;
    let count = table.len()?;
    put_in_order(
        alloc,
        count,
        named.as_slice(),
        sets.in_what.leaves.as_slice(),
    )
}

// A link, in a metric of this id.
fn link_in(
    alloc: Global,
    scope: &Scope,
    id: Option<i64>,
    sets: LinkSets,
) -> Result<LLink, LinkError>
    ensures { StaysInside result id (is_bound scope.now sets) (linked_link scope.now sets) }
{
    let (leaves, places) = bind_leaves(alloc, scope, id, &sets)?;
    Ok(LLink {
        predicate: scope.ids.predicates.locate(sets.condition.unwrap_or(0)),
        in_what: FieldSet {
            atom_id: sets.in_what.atom_id,
            leaves,
        },
        places,
    })
}

/// The links of a metric of this id.
pub fn links_in(
    alloc: Global,
    scope: &Scope,
    id: Option<i64>,
    links: Seq<LinkSets>,
) -> Result<Seq<LLink>, LinkError>
    ensures { StaysInside result id (list_all (is_bound scope.now) links)
        (map (linked_link scope.now) links) }
{
    let mut linked = Seq::new(alloc);
    for sets in links.into_vec() {
        linked.push(link_in(alloc, scope, id, sets)?)?;
    }
    Ok(linked)
}
