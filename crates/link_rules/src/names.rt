//! Names that lead nowhere.
ghost use Rattle.std.specs.Prelude.{◌≡◌, Some, map};
ghost use Rattle.std.specs.List.{flat_map};
ghost use Rattle.std.specs.Option.{option_map};
ghost use Rattle.link_rules.specs.LinkFaults.{fault, unknown_matcher, unknown_predicate, unknown_state, metric_kind};
ghost use Rattle.link_rules.specs.EntityIds.{matcher_ids, predicate_ids, state_ids};
ghost use Rattle.link_rules.specs.EntityNames.{first_unknown, link_condition, matchers_of_activation, unknown_in, states_of_metric, unknown_watched, unknown_matcher_fault, unknown_predicate_fault, unknown_state_fault};

use crate::entities::{Entities, Metric};
use crate::entity::Entity;
use crate::fault::{
    ALERT, LinkFault, MATCHER, METRIC, PREDICATE, UNKNOWN_MATCHER, UNKNOWN_METRIC,
    UNKNOWN_PREDICATE, UNKNOWN_STATE,
};
use crate::known::Known;
use config_types::{ActivationDef, AlertDef, LinkDef};

/// The first of these names that isn't known.
pub fn find_unknown(known: &Known, names: &[Option<i64>]) -> Option<i64>
    ensures { result ≡ first_unknown known.now names.now }
{
    for name in names {
        if let Some(id) = name
            && !known.contains(*id)
        {
            return Some(*id);
        }
    }
    None
}

/// The same of the children of a combination.
pub fn find_unknown_child(known: &Known, children: &[i64]) -> Option<i64>
    ensures { result ≡ first_unknown known.now (map Some children.now) }
{
    for id in children {
        if !known.contains(*id) {
            return Some(*id);
        }
    }
    None
}

/// The first condition of these links that isn't known.
pub fn find_unknown_link(known: &Known, links: &[LinkDef]) -> Option<i64>
    ensures { result ≡ first_unknown known.now (map link_condition links.now) }
{
    for link in links {
        if let Some(id) = find_unknown(known, &[link.condition]) {
            return Some(id);
        }
    }
    None
}

/// The first matcher that begins or ends one of these activations and isn't known.
pub fn find_unknown_signal(known: &Known, activations: &[ActivationDef]) -> Option<i64>
    ensures { result ≡
        first_unknown known.now (flat_map matchers_of_activation activations.now) }
{
    for activation in activations {
        if let Some(id) = find_unknown(known, &[activation.start, activation.cancel]) {
            return Some(id);
        }
    }
    None
}

/// The first entity of a kind that names a matcher that isn't known.
fn unknown_matcher_in<E: Entity>(kind: u8, known: &Known, entities: &[E]) -> Option<LinkFault>
    ensures { result ≡ unknown_in unknown_matcher kind known.now E.matchers entities.now }
{
    for entity in entities {
        if let Some(value) = entity.unknown_matcher(known) {
            return Some(LinkFault {
                number: UNKNOWN_MATCHER,
                reason: kind,
                value,
            });
        }
    }
    None
}

/// The first entity of a kind that names a predicate that isn't known.
fn unknown_predicate_in<E: Entity>(kind: u8, known: &Known, entities: &[E]) -> Option<LinkFault>
    ensures { result ≡ unknown_in unknown_predicate kind known.now E.predicates entities.now }
{
    for entity in entities {
        if let Some(value) = entity.unknown_predicate(known) {
            return Some(LinkFault {
                number: UNKNOWN_PREDICATE,
                reason: kind,
                value,
            });
        }
    }
    None
}

/// The first name that leads to no matcher.
#[tactic(auto, unfolding(crate::specs::EntityNames::unknown_matcher_fault))]
pub fn judge_matcher_names(known: &Known, entities: &Entities) -> Option<LinkFault>
    requires { known.now ≡ matcher_ids entities.now }
    ensures { result ≡ unknown_matcher_fault entities.now }
{
    unknown_matcher_in(MATCHER, known, entities.matchers.as_slice())
        .or_else(|| unknown_matcher_in(PREDICATE, known, entities.predicates.as_slice()))
        .or_else(|| unknown_matcher_in(METRIC, known, entities.metrics.as_slice()))
}

/// The first name that leads to no predicate.
#[tactic(auto, unfolding(crate::specs::EntityNames::unknown_predicate_fault))]
pub fn judge_predicate_names(known: &Known, entities: &Entities) -> Option<LinkFault>
    requires { known.now ≡ predicate_ids entities.now }
    ensures { result ≡ unknown_predicate_fault entities.now }
{
    unknown_predicate_in(PREDICATE, known, entities.predicates.as_slice()).or_else(
        || unknown_predicate_in(METRIC, known, entities.metrics.as_slice()),
    )
}

// The first metric that is sliced by a state that isn't known.
fn unknown_state_in(known: &Known, metrics: &[Metric]) -> Option<LinkFault>
    ensures { result ≡
        unknown_in unknown_state metric_kind known.now states_of_metric metrics.now }
{
    for metric in metrics {
        if let Some(value) = find_unknown_child(known, metric.sliced.slices.as_slice()) {
            return Some(LinkFault {
                number: UNKNOWN_STATE,
                reason: METRIC,
                value,
            });
        }
    }
    None
}

/// The first name that leads to no state.
#[tactic(auto, unfolding(crate::specs::EntityNames::unknown_state_fault))]
pub fn judge_state_names(known: &Known, entities: &Entities) -> Option<LinkFault>
    requires { known.now ≡ state_ids entities.now }
    ensures { result ≡ unknown_state_fault entities.now }
{
    unknown_state_in(known, entities.metrics.as_slice())
}

/// The first alert on a metric that isn't known.
pub fn judge_watched(known: &Known, alerts: &[AlertDef]) -> Option<LinkFault>
    ensures { result ≡ unknown_watched known.now alerts.now }
{
    for alert in alerts {
        if let Some(value) = find_unknown(known, &[alert.metric]) {
            return Some(LinkFault {
                number: UNKNOWN_METRIC,
                reason: ALERT,
                value,
            });
        }
    }
    None
}
