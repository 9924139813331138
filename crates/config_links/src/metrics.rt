//! Metrics, linked.
ghost use Rattle.std.specs.Prelude.{◌≡◌, map};
ghost use Rattle.std.specs.List.{All};
ghost use Rattle.link_graph.specs.Links.{AreInRange};
ghost use Rattle.link_rules.specs.declared.entities.Metric.{Metric};
ghost use Rattle.link_rules.specs.LinkFaults.{Links, first_in};
ghost use Rattle.config_links.specs.LinkScopes.{named_predicates};
ghost use Rattle.config_links.specs.MetricLinks.{bad_links};
ghost use Rattle.config_links.specs.LinkReasons.{set_or_none};
ghost use Rattle.config_links.specs.MetricTrees.{own_tree};
ghost use Rattle.config_links.specs.MetricSlices.{is_pulled_kind};
ghost use Rattle.config_links.specs.MetricKinds.{TakesFew};
ghost use Rattle.config_links.specs.MetricActivations.{AreBrief};
ghost use Rattle.config_links.specs.LinkMetrics as words;

use crate::activations::activations_in;
use crate::asked::judge_conditions;
use crate::kinds::kind_in;
use crate::links::{are_even, links_in};
use crate::predicates::choose_bound;
use crate::reasons::{Reason, make_fault, place_of_option};
use crate::scope::Scope;
use crate::sets::{StateLinkSets, sets_in};
use crate::slices::{refuse_times, slices_in};
use crate::{LActivation, LKind, LLink, LMetric, LSlice};
use config_types::{TimeUnit, bucket_nanos};
use field_select::FieldSet;
use link_rules::{Kind, LinkError, Metric};
use sd_base::Seq;
use std::alloc::Global;

/// What is linked of a metric before its slices and its kind.
#[derive(Debug, Drop)]
pub struct MetricParts {
    /// The id of what it counts or times.
    pub what: i64,
    pub dims: FieldSet,
    pub links: Seq<LLink>,
    pub state_links: Seq<StateLinkSets>,
}

/// What is linked of a metric with its parts.
#[derive(Debug, Drop)]
pub struct MetricRest {
    pub slices: Seq<LSlice>,
    pub kind: LKind,
    pub activations: Seq<LActivation>,
}

// The sets, links and name of a metric, and the set of its kind, or what its trees and links can't be.
#[tactic(auto, unfolding(crate::specs::MetricLinks::bad_links))]
fn parts_in(
    alloc: Global,
    scope: &Scope,
    metric: &Metric,
) -> Result<(MetricParts, FieldSet), LinkError>
    requires { AreInRange (map named_predicates scope.now.predicates) }
    ensures { Links result (bad_links scope.now metric.now)
        (words.metric_parts scope.now metric.now, set_or_none (own_tree metric.now.kind)) }
{
    let id = metric.common.id;
    let sets = sets_in(alloc, metric)?;
    if !are_even(sets.links.as_slice()) {
        return Err(LinkError::Fault(make_fault(id, Reason::UnevenLink)));
    }
    if !judge_conditions(alloc, scope, metric.common.condition, sets.links.as_slice())? {
        return Err(LinkError::Fault(make_fault(id, Reason::LinkNotAsked)));
    }
    let links = links_in(alloc, scope, id, sets.links)?;
    let Some(what) = metric.common.what else {
        return Err(LinkError::Fault(make_fault(id, Reason::NoWhat)));
    };
    let parts = MetricParts {
        what,
        dims: sets.dims,
        links,
        state_links: sets.state_links,
    };
    Ok((parts, sets.own))
}

// The place of what a metric counts, or of the predicate that a duration times.
#[tactic(auto, unfolding(crate::specs::LinkMetrics::what_place))]
fn locate_what(scope: &Scope, kind: &Kind, what: i64) -> u32
    ensures { result ≡ words.what_place scope.now kind.now what }
{
    match kind {
        Kind::Duration { .. } => scope.ids.predicates.locate(what),
        _ => scope.ids.matchers.locate(what),
    }
}

// The length of a bucket in nanoseconds.
#[tactic(auto, unfolding(crate::specs::LinkMetrics::bucket_size))]
fn measure_bucket(uid: i32, kind: &Kind, bucket: Option<TimeUnit>) -> u64
    ensures { result ≡ words.bucket_size uid kind.now bucket }
{
    match kind {
        Kind::Event => 0,
        _ => bucket_nanos(bucket, uid),
    }
}

// How many keys a bucket admits.
#[tactic(auto, unfolding(crate::specs::LinkMetrics::bucket_bound))]
fn bound_bucket(kind: &Kind, bound: Option<i32>) -> u32
    ensures { result ≡ words.bucket_bound kind.now bound }
{
    match kind {
        Kind::Event => 1,
        _ => choose_bound(bound),
    }
}

// A metric with these parts, slices and kind.
fn metric_of(
    scope: &Scope,
    uid: i32,
    no_report: &[i64],
    metric: &Metric,
    parts: MetricParts,
    rest: MetricRest,
) -> LMetric
    requires { rest ≡ words.metric_rest scope.now metric.now parts }
    ensures { result ≡ words.metric_with scope.now uid no_report.now metric.now parts }
{
    let id = metric.common.id.unwrap_or(0);
    LMetric {
        id,
        shown: !no_report.contains(&id),
        what: locate_what(scope, &metric.kind, parts.what),
        condition: place_of_option(&scope.ids.predicates, metric.common.condition),
        links: parts.links,
        dims: parts.dims,
        size: measure_bucket(uid, &metric.kind, metric.sliced.bucket),
        bound: bound_bucket(&metric.kind, metric.sliced.bound),
        slices: rest.slices,
        kind: rest.kind,
        activations: rest.activations,
    }
}

// Whether a metric acts on what was pulled.
fn is_pulled(scope: &Scope, kind: &Kind, what: i64) -> bool
    ensures { result ≡ is_pulled_kind scope.now kind.now what }
{
    match kind {
        Kind::Value(_) | Kind::Gauge(_) => scope.is_of_pulled_atom(what),
        _ => false,
    }
}

// The slices, the kind and the activations of a metric with these parts, or what they can't be.
#[tactic(auto, unfolding(crate::specs::LinkMetrics::bad_rest))]
fn rest_of(
    alloc: Global,
    scope: &Scope,
    metric: &Metric,
    parts: &MetricParts,
    own: FieldSet,
) -> Result<MetricRest, LinkError>
    requires own { own ≡ set_or_none (own_tree metric.now.kind) }
    requires few { TakesFew metric.now.kind }
    requires brief { AreBrief metric.now.common.activations }
    ensures { Links result (words.bad_rest scope.now metric.now parts.now)
        (words.metric_rest scope.now metric.now parts.now) }
{
    refuse_times(alloc, scope, metric, parts)?;
    let slices = slices_in(alloc, scope, metric, parts)?;
    let kind = kind_in(scope, metric, parts.what, own)?;
    let pulled = is_pulled(scope, &metric.kind, parts.what);
    let matchers = &scope.ids.matchers;
    let activations = activations_in(alloc, matchers, &metric.common, &metric.kind, pulled)?;
    Ok(MetricRest {
        slices,
        kind,
        activations,
    })
}

// A metric, linked, or its least reason.
fn metric_in(
    alloc: Global,
    scope: &Scope,
    uid: i32,
    no_report: &[i64],
    metric: &Metric,
) -> Result<LMetric, LinkError>
    requires in_range { AreInRange (map named_predicates scope.now.predicates) }
    requires few { TakesFew metric.now.kind }
    requires brief { AreBrief metric.now.common.activations }
    ensures { Links result (words.bad_metric scope.now metric.now)
        (words.linked_metric scope.now uid no_report.now metric.now) }
{
    let (parts, own) = parts_in(alloc, scope, metric)?;
    let rest = rest_of(alloc, scope, metric, &parts, own)?;
    Ok(metric_of(scope, uid, no_report, metric, parts, rest))
}

/// The metrics of a client, linked, or the first reason.
pub fn metrics_in(
    alloc: Global,
    scope: &Scope,
    uid: i32,
    no_report: &[i64],
    metrics: &[Metric],
) -> Result<Seq<LMetric>, LinkError>
    requires in_range { AreInRange (map named_predicates scope.now.predicates) }
    requires few { All (λ (metric : Metric). TakesFew metric.kind) metrics.now }
    requires brief { All (λ (metric : Metric). AreBrief metric.common.activations) metrics.now }
    ensures { Links result (first_in (words.bad_metric scope.now) metrics.now)
        (map (words.linked_metric scope.now uid no_report.now) metrics.now) }
{
    let mut linked = Seq::new(alloc);
    for metric in metrics {
        linked.push(metric_in(alloc, scope, uid, no_report, metric)?)?;
    }
    Ok(linked)
}
