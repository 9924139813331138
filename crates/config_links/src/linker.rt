//! A configuration, linked.
ghost use Rattle.std.specs.Prelude.{◌≡◌, None, map, IfOk};
ghost use Rattle.std.specs.List.{All};
ghost use Rattle.link_graph.specs.Links.{AreInRange};
ghost use Rattle.link_rules.specs.declared.entities.Metric.{Metric};
ghost use Rattle.link_rules.specs.LinkFaults.{Links};
ghost use Rattle.link_rules.specs.LinkRules.{ids_in, rule_fault};
ghost use Rattle.config_links.specs.LinkedForm.{linked_matcher, linked_predicate, linked_state};
ghost use Rattle.config_links.specs.LinkAlerts.{linked_alert, IsPatient};
ghost use Rattle.config_links.specs.LinkMetrics.{linked_metric};
ghost use Rattle.config_links.specs.LinkScopes.{named_predicates};
ghost use Rattle.config_links.specs.MetricActivations.{AreBrief};
ghost use Rattle.config_links.specs.MetricKinds.{TakesFew};
ghost use Rattle.config_links.specs.SoundConfig.{IsSoundConfig};
ghost use Rattle.config_links.specs.Verdict.{verdict, linked_form, entities_linked, bad_part_fault, hidden_fault, scoped_fault, late_fault, judged};

use crate::alerts::alerts_in;
use crate::matchers::matchers_in;
use crate::metrics::metrics_in;
use crate::predicates::predicates_in;
use crate::reasons::{BAD_TYPE, Reason};
use crate::scope::Scope;
use crate::states::states_in;
use crate::{LAlert, LMatcher, LMetric, LPredicate, LState, Linked};
use config_types::{AlertDef, Config, MatcherDef, PredicateDef, StateDef};
use link_rules::{
    Entities, Ids, Known, LinkError, LinkFault, Metric, checked_ids, find_unknown_child, gather,
    judge_watched, refuse,
};
use sd_base::Seq;
use std::alloc::Global;

// What is linked once all else is: the metrics and alerts, and the ids of metrics that no report shows.
#[derive(Drop)]
struct Scoped {
    metrics: Seq<Metric>,
    alerts: Seq<AlertDef>,
    no_report: Seq<i64>,
}

// The linked matchers, predicates and states, or the first reason of these.
#[tactic(auto, unfolding(crate::specs::Verdict::bad_part_fault))]
fn parts_in(
    alloc: Global,
    ids: &Ids,
    matchers: Seq<MatcherDef>,
    predicates: Seq<PredicateDef>,
    states: Seq<StateDef>,
) -> Result<(Seq<LMatcher>, Seq<LPredicate>, Seq<LState>), LinkError>
    ensures { Links result (bad_part_fault matchers predicates states) (
      map (linked_matcher ids.now.matchers) matchers,
      map (linked_predicate ids.now.matchers ids.now.predicates) predicates,
      map linked_state states,
    ) }
{
    let matchers = matchers_in(alloc, &ids.matchers, matchers)?;
    let predicates = predicates_in(alloc, &ids.matchers, &ids.predicates, predicates)?;
    let states = states_in(alloc, states)?;
    Ok((matchers, predicates, states))
}

// The first id without a metric, among those of metrics that no report shows.
fn judge_hidden(known: &Known, no_report: &[i64]) -> Option<LinkFault>
    ensures { result ≡ hidden_fault known.now no_report.now }
{
    let value = find_unknown_child(known, no_report)?;
    Some(LinkFault {
        number: BAD_TYPE,
        reason: Reason::UnknownHidden.number(),
        value,
    })
}

// The linked metrics and alerts, or the first reason of these and of metrics that no report shows, or the first alert
// on no metric.
#[tactic(auto, unfolding(crate::specs::Verdict::bad_metric_fault))]
fn scoped_in(
    alloc: Global,
    scope: &Scope,
    uid: i32,
    scoped: &Scoped,
) -> Result<(Seq<LMetric>, Seq<LAlert>), LinkError>
    requires in_range { AreInRange (map named_predicates scope.now.predicates) }
    requires few { All (λ (metric : Metric). TakesFew metric.kind) scoped.now.metrics }
    requires brief { All (λ (metric : Metric). AreBrief metric.common.activations) scoped.now.metrics }
    requires patient { All IsPatient scoped.now.alerts }
    ensures { Links result
        (scoped_fault scope.now scoped.now.metrics scoped.now.alerts scoped.now.no_report) (
          map (linked_metric scope.now uid scoped.now.no_report) scoped.now.metrics,
          map (linked_alert scope.now.ids.metrics scoped.now.metrics) scoped.now.alerts,
        ) }
{
    let known = &scope.ids.metrics;
    let no_report = scoped.no_report.as_slice();
    let metrics = scoped.metrics.as_slice();
    let alerts = scoped.alerts.as_slice();
    let linked = metrics_in(alloc, scope, uid, no_report, metrics)?;
    let watches = alerts_in(alloc, known, metrics, alerts)?;
    refuse(judge_hidden(known, no_report))?;
    refuse(judge_watched(known, alerts))?;
    Ok((linked, watches))
}

// The linked entities, or the first reason.
#[tactic(auto, using(crate::proofs::ReadyLemmas::few_samples, crate::proofs::BriefLemmas::brief_activations, crate::proofs::BriefLemmas::patient_alerts), unfolding(crate::specs::Verdict::late_fault))]
fn entities_in(alloc: Global, ids: Ids, entities: Entities, uid: i32) -> Result<Linked, LinkError>
    requires ids { ids ≡ ids_in entities }
    requires ready { rule_fault entities ≡ None }
    ensures { Links result (late_fault entities) (entities_linked entities uid) }
{
    let (matchers, predicates, states) = parts_in(
        alloc,
        &ids,
        entities.matchers,
        entities.predicates,
        entities.states,
    )?;
    let scope = Scope {
        ids,
        matchers,
        predicates,
        states,
    };
    let scoped = Scoped {
        metrics: entities.metrics,
        alerts: entities.alerts,
        no_report: entities.no_report,
    };
    let (metrics, alerts) = scoped_in(alloc, &scope, uid, &scoped)?;
    Ok(Linked {
        matchers: scope.matchers,
        predicates: scope.predicates,
        states: scope.states,
        metrics,
        alerts,
    })
}

// The configuration, linked, or its first fault.
#[tactic(auto, unfolding(crate::specs::Verdict::linked_form))]
fn linked_config(alloc: Global, config: Config, uid: i32) -> Result<Linked, LinkError>
    ensures { Links result (judged config) (linked_form config uid) }
{
    let entities = gather(alloc, config)?;
    let ids = checked_ids(alloc, &entities)?;
    entities_in(alloc, ids, entities, uid)
}

/// Looks up the references of a client's configuration, or names its first fault.
pub fn link(alloc: Global, config: Config, uid: i32) -> Result<Linked, LinkError>
    ensures linked { Links result (verdict config) (linked_form config uid) }
    ensures sound { IfOk result IsSoundConfig }
{
    linked_config(alloc, config, uid)
}
