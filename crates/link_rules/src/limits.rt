//! Numbers that are past their limits.
ghost use Rattle.std.specs.Prelude.{◌≡◌, ◌<◌, ◌≤◌, ◌≤ℤ◌, ◌^◌, Some, None, pos, length, if◌then◌else◌};
ghost use Rattle.field_select.specs.WellFormed.{is_number_to};
ghost use Rattle.link_rules.specs.LinkFaults.{first_in};
ghost use Rattle.link_rules.specs.EntityLimits.{limit_number, most_of, number_past, count_limit, number_limit, is_up_to, amount_limit, number_or, bound_or_default, predicate_limit, samples_of, samples_limit, lifetime_limit, activations_limit, metric_limit, alert_limit, limit_fault};

use crate::entities::{Entities, GaugeParts, Kind, Metric};
use crate::fault::{LinkFault, PAST_LIMIT};
use config_types::{
    ActivationDef, AlertDef, MAX_PARTS, MAX_THRESHOLD, PredicateBody, PredicateDef, SamplingType,
};

/// The most predicates that a configuration has.
pub const MOST_PREDICATES: usize = 300;

/// What has a limit: how many entities of a kind there are, and numbers that entities set.
#[derive(Clone, Copy)]
pub enum Limit {
    Matchers,
    Predicates,
    States,
    Metrics,
    /// The keys of a predicate.
    PredicateBound,
    /// The keys of a metric's bucket.
    MetricBound,
    /// The samples of a gauge for one key of a bucket.
    Samples,
    /// The samples of a gauge for all keys of a bucket.
    BucketSamples,
    /// The activations of a metric.
    Activations,
    /// The seconds that an activation lasts.
    Lifetime,
    Alerts,
    /// The parts over which an alert counts.
    Parts,
    /// The threshold of an alert, from 0.
    Threshold,
    /// The seconds without an alarm after an alarm, from 0.
    Refractory,
}

impl Limit {
    // The number by which a refusal names it.
    fn number(self) -> u8
        ensures { result ≡ limit_number self }
    {
        match self {
            Limit::Matchers => 1,
            Limit::Predicates => 2,
            Limit::States => 3,
            Limit::Metrics => 4,
            Limit::PredicateBound => 5,
            Limit::MetricBound => 6,
            Limit::Samples => 7,
            Limit::BucketSamples => 8,
            Limit::Activations => 9,
            Limit::Lifetime => 10,
            Limit::Alerts => 11,
            Limit::Parts => 12,
            Limit::Threshold => 13,
            Limit::Refractory => 14,
        }
    }

    // The greatest number within it.
    fn most(self) -> usize
        ensures { result ≡ most_of self }
    {
        match self {
            Limit::Matchers => 800,
            Limit::Predicates => MOST_PREDICATES,
            Limit::States => 16,
            Limit::Metrics => 100,
            Limit::PredicateBound | Limit::MetricBound => 3000,
            Limit::Samples => 100,
            Limit::BucketSamples => 16_384,
            Limit::Activations => 8,
            Limit::Alerts => 10,
            Limit::Lifetime | Limit::Refractory => 1_000_000,
            Limit::Parts => MAX_PARTS as usize,
            Limit::Threshold => MAX_THRESHOLD as usize,
        }
    }

    // A number past it.
    fn fault(self, value: i64) -> LinkFault
        ensures { result ≡ number_past self value }
    {
        LinkFault {
            number: PAST_LIMIT,
            reason: self.number(),
            value,
        }
    }
}

/// There are more than may be.
fn judge_count(limit: Limit, count: usize) -> Option<LinkFault>
    requires { count < 2 ^ 63 }
    ensures { result ≡ count_limit limit count }
{
    if count <= limit.most() {
        return None;
    }
    Some(limit.fault(count as i64))
}

/// A number is set that isn't from 1 to the limit.
fn judge_number(limit: Limit, number: Option<i64>) -> Option<LinkFault>
    ensures { result ≡ number_limit limit number }
{
    let value = number?;
    if value > 0 && value <= limit.most() as i64 {
        return None;
    }
    Some(limit.fault(value))
}

/// A number is set that isn't from 0 to the limit.
fn judge_amount(limit: Limit, number: Option<i64>) -> Option<LinkFault>
    ensures { result ≡ amount_limit limit number }
{
    let value = number?;
    if value >= 0 && value <= limit.most() as i64 {
        return None;
    }
    Some(limit.fault(value))
}

fn wide(number: Option<i32>) -> Option<i64>
    ensures { result ≡ number }
{
    match number {
        Some(number) => Some(i64::from(number)),
        None => None,
    }
}

fn judge_predicate(def: &PredicateDef) -> Option<LinkFault>
    ensures { result ≡ predicate_limit def.now }
{
    match &def.body {
        Some(PredicateBody::Simple(simple)) => judge_number(
            Limit::PredicateBound,
            wide(simple.bound),
        ),
        _ => None,
    }
}

/// A number that is set, or the one that an absent one stands for.
pub fn choose_number(absent: usize, number: Option<i64>) -> usize
    ensures { result ≡ number_or absent number }
{
    match number {
        Some(number) if number >= 0 => number as usize,
        _ => absent,
    }
}

/// How many samples a key of a gauge keeps in a bucket.
pub fn count_samples(gauge: &GaugeParts) -> usize
    ensures { result ≡ samples_of gauge.now }
{
    match gauge.sampling {
        SamplingType::RandomOne => 1,
        _ => choose_number(10, gauge.max_samples),
    }
}

fn judge_samples(bound: usize, kind: &Kind) -> Option<LinkFault>
    requires { bound ≤ 3000 }
    ensures { result ≡ samples_limit bound kind.now }
{
    let Kind::Gauge(gauge) = kind else {
        return None;
    };
    if let Some(fault) = judge_number(Limit::Samples, gauge.max_samples) {
        return Some(fault);
    }
    judge_count(Limit::BucketSamples, bound * count_samples(gauge))
}

fn judge_lifetimes(defs: &[ActivationDef]) -> Option<LinkFault>
    ensures { result ≡ first_in lifetime_limit defs.now }
{
    for def in defs {
        if let Some(fault) = judge_number(Limit::Lifetime, def.ttl) {
            return Some(fault);
        }
    }
    None
}

fn judge_activations(defs: &[ActivationDef]) -> Option<LinkFault>
    ensures { result ≡ activations_limit defs.now }
{
    if let Some(fault) = judge_count(Limit::Activations, defs.len()) {
        return Some(fault);
    }
    judge_lifetimes(defs)
}

fn judge_metric(metric: &Metric) -> Option<LinkFault>
    ensures { result ≡ metric_limit metric.now }
{
    let bound = wide(metric.sliced.bound);
    if let Some(fault) = judge_number(Limit::MetricBound, bound) {
        return Some(fault);
    }
    if let Some(fault) = judge_samples(choose_number(800, bound), &metric.kind) {
        return Some(fault);
    }
    judge_activations(metric.common.activations.as_slice())
}

fn judge_alert(def: &AlertDef) -> Option<LinkFault>
    ensures { result ≡ alert_limit def.now }
{
    judge_number(Limit::Parts, wide(def.parts))
        .or_else(|| judge_amount(Limit::Threshold, def.threshold))
        .or_else(|| judge_amount(Limit::Refractory, def.refractory))
}

fn judge_predicates(defs: &[PredicateDef]) -> Option<LinkFault>
    ensures { result ≡ first_in predicate_limit defs.now }
{
    for def in defs {
        if let Some(fault) = judge_predicate(def) {
            return Some(fault);
        }
    }
    None
}

fn judge_metrics(metrics: &[Metric]) -> Option<LinkFault>
    ensures { result ≡ first_in metric_limit metrics.now }
{
    for metric in metrics {
        if let Some(fault) = judge_metric(metric) {
            return Some(fault);
        }
    }
    None
}

fn judge_alerts(defs: &[AlertDef]) -> Option<LinkFault>
    ensures { result ≡ first_in alert_limit defs.now }
{
    for def in defs {
        if let Some(fault) = judge_alert(def) {
            return Some(fault);
        }
    }
    None
}

/// The first number that is past its limit.
#[tactic(auto, unfolding(crate::specs::EntityLimits::limit_fault))]
pub fn judge_limits(entities: &Entities) -> Option<LinkFault>
    ensures { result ≡ limit_fault entities.now }
{
    if let Some(fault) = judge_count(Limit::Matchers, entities.matchers.as_slice().len()) {
        return Some(fault);
    }
    if let Some(fault) = judge_count(Limit::Predicates, entities.predicates.as_slice().len()) {
        return Some(fault);
    }
    if let Some(fault) = judge_count(Limit::States, entities.states.as_slice().len()) {
        return Some(fault);
    }
    if let Some(fault) = judge_count(Limit::Metrics, entities.metrics.as_slice().len()) {
        return Some(fault);
    }
    if let Some(fault) = judge_predicates(entities.predicates.as_slice()) {
        return Some(fault);
    }
    if let Some(fault) = judge_metrics(entities.metrics.as_slice()) {
        return Some(fault);
    }
    if let Some(fault) = judge_count(Limit::Alerts, entities.alerts.as_slice().len()) {
        return Some(fault);
    }
    judge_alerts(entities.alerts.as_slice())
}
