//! Matchers and predicates that reach themselves.
ghost use Rattle.std.specs.Prelude.{◌≡◌, ◌≤◌, length, map, None, IfOk};
ghost use Rattle.link_rules.specs.LinkFaults.{Links};
ghost use Rattle.link_rules.specs.LinkRules.{ids_in, id_fault, name_fault};
ghost use Rattle.link_rules.specs.Cycles.{matcher_node, predicate_node, cycle_in, cycle_fault};
ghost use Rattle.link_rules.specs.CycleNodes.{ResolvesIn, ArePlacesOf};
ghost use Rattle.link_rules.specs.EntityIds.{place_in};

use crate::entities::Entities;
use crate::fault::{LinkError, LinkFault, MATCHER_CYCLE, PREDICATE_CYCLE};
use crate::known::{Ids, Known};
use config_types::{MatcherBody, MatcherDef, PredicateBody, PredicateDef};
use link_graph::{Node, first_on_cycle};
use sd_base::Seq;
use std::alloc::{AllocError, Global};

// The places of those that an entity names.
#[derive(Drop)]
struct Children {
    places: Seq<u32>,
}

impl Node for Children {
    ghost names = { λ children. children.places };

    fn children(&self) -> &[u32] {
        self.places.as_slice()
    }
}

// An entity that may name others of its kind.
trait Linking {
    ghost use Rattle.link_graph.specs.Ids.{IdNode};

    // Its id, and those that it names.
    ghost node: { Self → IdNode };

    fn own_id(&self) -> i64
        ensures { result ≡ (node self.now).id };

    fn child_ids(&self) -> &[i64]
        ensures { result.now ≡ (node self.now).named };
}

impl Linking for MatcherDef {
    ghost node = { matcher_node };

    fn own_id(&self) -> i64 {
        self.id.unwrap_or(0)
    }

    fn child_ids(&self) -> &[i64] {
        match &self.body {
            Some(MatcherBody::Combo(combo)) => combo.children.as_slice(),
            _ => &[],
        }
    }
}

impl Linking for PredicateDef {
    ghost node = { predicate_node };

    fn own_id(&self) -> i64 {
        self.id.unwrap_or(0)
    }

    fn child_ids(&self) -> &[i64] {
        match &self.body {
            Some(PredicateBody::Combo(combo)) => combo.children.as_slice(),
            _ => &[],
        }
    }
}

// The places of ids.
fn children_of(alloc: Global, known: &Known, ids: &[i64]) -> Result<Children, AllocError>
    ensures { IfOk result (λ children. children.places ≡ map (place_in known.now) ids.now) }
{
    let mut places = Seq::new(alloc);
    for id in ids {
        places.push(known.locate(*id))?;
    }
    Ok(Children { places })
}

// The places of those that each entity names.
fn nodes_of<E: Linking>(
    alloc: Global,
    known: &Known,
    entities: &[E],
) -> Result<Seq<Children>, AllocError>
    ensures { IfOk result (λ nodes. ArePlacesOf known.now (map E.node entities.now) nodes) }
{
    let mut nodes = Seq::new(alloc);
    for entity in entities {
        nodes.push(children_of(alloc, known, entity.child_ids())?)?;
    }
    Ok(nodes)
}

// Refuses by the first entity of a kind that reaches itself.
fn refuse_cycle<E: Linking>(
    alloc: Global,
    number: u8,
    known: &Known,
    entities: &[E],
) -> Result<(), LinkError>
    requires few { length entities.now ≤ 800 }
    requires resolves { ResolvesIn known.now (map E.node entities.now) }
    ensures { Links result (cycle_in number (map E.node entities.now)) tt }
{
    let nodes = nodes_of(alloc, known, entities)?;
    match first_on_cycle(alloc, nodes.as_slice())? {
        Some(place) => Err(LinkError::Fault(LinkFault {
            number,
            reason: 0,
            value: entities[place as usize].own_id(),
        })),
        None => Ok(()),
    }
}

/// Refuses by the first matcher, or else the first predicate, that reaches itself.
#[tactic(auto, unfolding(crate::specs::Cycles::cycle_fault))]
pub fn refuse_cycles(alloc: Global, ids: &Ids, entities: &Entities) -> Result<(), LinkError>
    requires ids { ids.now ≡ ids_in entities.now }
    requires numbered { id_fault entities.now ≡ None }
    requires named { name_fault entities.now ≡ None }
    ensures { Links result (cycle_fault entities.now) tt }
{
    refuse_cycle(
        alloc,
        MATCHER_CYCLE,
        &ids.matchers,
        entities.matchers.as_slice(),
    )?;
    refuse_cycle(
        alloc,
        PREDICATE_CYCLE,
        &ids.predicates,
        entities.predicates.as_slice(),
    )
}
