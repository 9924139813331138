//! The key of a metric's condition on which an atom acts: of the keys that ask by a link, those alone that ask for it
//! may find another truth after the atom.
ghost use Rattle.std.specs.Prelude.{◌≡◌, ◌==◌, IfOk};
ghost use Rattle.std.specs.List.{find};
ghost use Rattle.std.specs.Option.{option_copied};
ghost use Rattle.config_links.specs.declared.linked.LLink.{LLink};
ghost use Rattle.predicate_state.specs.PredicateStates.{is_of_one};
ghost use Rattle.client_engine.specs.Turning.{IsTurn, asks_for_turn};

use atom_record::{Atom, DimKey};
use condition_links::asks_for;
use config_links::{LLink, LMetric};
use duration_metric::InnerEvent;
use known_conditions::{Conditions, InnerKey};
use predicate_state::PredEvent;
use std::alloc::{AllocError, Global};

// Keys of more leaves are asked whether an atom acts on what they ask for or not.
const FEW_LEAVES: usize = 16;

/// A link to the predicate that is a metric's condition, and the one key of it on which an atom acts.
#[derive(Drop)]
pub struct Turn<'a> {
    pub link: &'a LLink,
    pub key: DimKey,
}

impl Turn<'_> {
    /// Whether the link asks for the key by the values of an inner key.
    pub fn asks(&self, inner: &InnerKey<'_>) -> bool
        ensures { result ≡ asks_for_turn inner.now.fields.now inner.now.key.now self.now }
    {
        asks_for(self.link, inner.fields, inner.key, &self.key)
    }
}

/// What an atom does to one key of the predicate that is a metric's condition, if a link asks for its keys. Where it
/// acts on all keys, or on none, there is no such key.
pub fn turn_of<'a>(
    alloc: Global,
    metric: &'a LMetric,
    conditions: &mut Conditions,
    atom: &Atom,
    matched: &[bool],
) -> Result<Option<Turn<'a>>, AllocError>
    ensures turn { IfOk result (IsTurn conditions.old.predicates metric.now matched.now atom.now) }
    ensures known { conditions.new ≡ conditions.old }
{
    let Some(root) = metric.condition else {
        return Ok(None);
    };
    let Some(link) = link_to(metric.links.as_slice(), root) else {
        return Ok(None);
    };
    if conditions.fields_of(metric.what).leaves.len() > FEW_LEAVES {
        return Ok(None);
    }
    match conditions.inner_event(alloc, root, atom, matched)? {
        Some(InnerEvent { event, key }) => {
            if acts_on_one(event) {
                Ok(Some(Turn { link, key }))
            } else {
                Ok(None)
            }
        }
        None => Ok(None),
    }
}

// Whether an event acts on its key alone.
fn acts_on_one(event: PredEvent) -> bool
    ensures { result ≡ is_of_one event }
{
    match event {
        PredEvent::Start | PredEvent::Stop => true,
        PredEvent::StopAll => false,
    }
}

// The first link to the predicate at a place.
fn link_to(links: &[LLink], place: u32) -> Option<&LLink>
    ensures { option_copied result ≡ find (λ (link : LLink). link.predicate == place) links.now }
{
    links.iter().find(|link| link.predicate == place)
}
