//! The rules that a configuration has to keep before its entities are looked at one by one.
ghost use Rattle.std.specs.Prelude.{◌≡◌, None};
ghost use Rattle.link_rules.specs.LinkFaults.{Links};
ghost use Rattle.link_rules.specs.EntityLimits.{AreFew};
ghost use Rattle.link_rules.specs.EntityIds.{duplicate_id_fault};
ghost use Rattle.link_rules.specs.LinkRules.{ids_in, id_fault, name_fault, reference_fault, rule_fault};

use crate::cycles::refuse_cycles;
use crate::entities::Entities;
use crate::fault::{ALERT, LinkError, LinkFault, MATCHER, METRIC, PREDICATE, STATE};
use crate::ids::{ids_of, judge_missing_ids};
use crate::known::Ids;
use crate::limits::judge_limits;
use crate::names::{judge_matcher_names, judge_predicate_names, judge_state_names};
use std::alloc::Global;

/// Refuses by a fault, where there is one.
pub fn refuse(fault: Option<LinkFault>) -> Result<(), LinkError>
    ensures { Links result fault tt }
{
    match fault {
        None => Ok(()),
        Some(fault) => Err(LinkError::Fault(fault)),
    }
}

// The ids of all kinds that are named, or the first of any kind that stood before.
#[tactic(auto, unfolding(crate::specs::EntityIds::duplicate_id_fault))]
fn all_ids(alloc: Global, entities: &Entities) -> Result<Ids, LinkError>
    requires { AreFew entities.now }
    ensures { Links result (duplicate_id_fault entities.now) (ids_in entities.now) }
{
    let matchers = ids_of(alloc, MATCHER, entities.matchers.as_slice())?;
    let predicates = ids_of(alloc, PREDICATE, entities.predicates.as_slice())?;
    let states = ids_of(alloc, STATE, entities.states.as_slice())?;
    let metrics = ids_of(alloc, METRIC, entities.metrics.as_slice())?;
    ids_of(alloc, ALERT, entities.alerts.as_slice())?;
    Ok(Ids {
        matchers,
        predicates,
        states,
        metrics,
    })
}

// The ids of all kinds, or the first fault of limits and ids.
#[tactic(auto, using(crate::proofs::LimitLemmas::few), unfolding(crate::specs::LinkRules::id_fault))]
fn known_ids(alloc: Global, entities: &Entities) -> Result<Ids, LinkError>
    ensures { Links result (id_fault entities.now) (ids_in entities.now) }
{
    refuse(judge_limits(entities))?;
    refuse(judge_missing_ids(entities))?;
    all_ids(alloc, entities)
}

// Refuses by the first name that leads nowhere.
#[tactic(auto, unfolding(crate::specs::LinkRules::name_fault))]
fn refuse_names(ids: &Ids, entities: &Entities) -> Result<(), LinkError>
    requires { ids.now ≡ ids_in entities.now }
    ensures { Links result (name_fault entities.now) tt }
{
    refuse(judge_matcher_names(&ids.matchers, entities))?;
    refuse(judge_predicate_names(&ids.predicates, entities))?;
    refuse(judge_state_names(&ids.states, entities))
}

// Refuses by the first name that leads nowhere, or by what is below itself.
#[tactic(auto, unfolding(crate::specs::LinkRules::reference_fault))]
fn refuse_references(alloc: Global, ids: &Ids, entities: &Entities) -> Result<(), LinkError>
    requires ids { ids.now ≡ ids_in entities.now }
    requires numbered { id_fault entities.now ≡ None }
    ensures { Links result (reference_fault entities.now) tt }
{
    refuse_names(ids, entities)?;
    refuse_cycles(alloc, ids, entities)
}

/// The ids of all kinds, or the first fault of these rules.
#[tactic(auto, unfolding(crate::specs::LinkRules::rule_fault))]
pub fn checked_ids(alloc: Global, entities: &Entities) -> Result<Ids, LinkError>
    ensures { Links result (rule_fault entities.now) (ids_in entities.now) }
{
    let ids = known_ids(alloc, entities)?;
    refuse_references(alloc, &ids, entities)?;
    Ok(ids)
}
