//! What a kind of metric has of its own.
ghost use Rattle.std.specs.Prelude.{◌≡◌, Some, None, if◌then◌else◌};
ghost use Rattle.std.specs.Option.{option_map};
ghost use Rattle.link_rules.specs.LinkFaults.{Links};
ghost use Rattle.link_rules.specs.declared.entities.Kind.TheVariants as kind_of;
ghost use Rattle.link_rules.specs.EntityLimits.{bound_or_default};
ghost use Rattle.config_links.specs.LinkReasons.{set_or_none};
ghost use Rattle.config_links.specs.MetricTrees.{own_tree};
ghost use Rattle.config_links.specs.MetricSlices.{is_pulled_kind};
ghost use Rattle.config_links.specs.MetricKinds as words;

use crate::LKind;
use crate::predicates::choose_bound;
use crate::reasons::{Reason, make_fault, place_of_option};
use crate::scope::Scope;
use config_types::{Common, DiffSpec, Position, PredSpec, Sampling, SamplingType};
use field_select::{FieldSet, LeafPath};
use link_rules::{GaugeParts, Kind, LinkError, Metric, ValueParts, count_samples};

// How no table is kept.
const NO_SPEC: PredSpec = PredSpec {
    nesting: false,
    unknown: false,
    bound: 0,
    leaves: 0,
};

// The leaf of a value, where there is one alone, which picks one entry.
fn value_leaf(leaves: &[LeafPath]) -> Option<LeafPath>
    ensures { result ≡ (if words.is_value_set leaves.now
        then Some (words.first_leaf leaves.now) else None) }
{
    match leaves {
        [leaf] if leaf.position != Some(Position::All) => Some(*leaf),
        _ => None,
    }
}

// Whether it may be said so whether differences are counted.
fn accepts_diff(pulled: bool, diff: Option<bool>) -> bool
    ensures { result ≡ words.may_diff pulled diff }
{
    match diff {
        None => true,
        Some(diff) => diff == pulled,
    }
}

// The values of a metric, or why it can't have them.
#[tactic(auto, unfolding(crate::specs::MetricKinds::bad_kind))]
fn value_in(
    common: &Common,
    pulled: bool,
    own: FieldSet,
    value: &ValueParts,
) -> Result<LKind, LinkError>
    requires { own ≡ set_or_none value.now.field }
    ensures { Links result (words.bad_kind common.now pulled (kind_of.Value value.now))
        (words.value_form pulled value.now own) }
{
    let id = common.id;
    let Some(leaf) = value_leaf(own.leaves.as_slice()) else {
        return Err(LinkError::Fault(make_fault(id, Reason::NoValue)));
    };
    if !accepts_diff(pulled, value.diff) {
        return Err(LinkError::Fault(make_fault(id, Reason::BadDiff)));
    }
    if pulled && !common.links.is_empty() {
        return Err(LinkError::Fault(make_fault(id, Reason::PulledLinks)));
    }
    if pulled {
        return Ok(LKind::PulledValue {
            atom_id: own.atom_id,
            leaf,
            spec: DiffSpec {
                agg: value.agg,
                direction: value.direction,
                abs_reset: value.abs_reset,
                skip_zero: value.skip_zero,
                zero_base: value.zero_base,
            },
        });
    }
    Ok(LKind::PushedValue {
        atom_id: own.atom_id,
        leaf,
        agg: value.agg,
    })
}

// Whether a gauge may take its samples so.
fn accepts_sampling(pulled: bool, sampling: SamplingType, trigger: Option<i64>) -> bool
    ensures { result ≡ words.may_sample pulled sampling trigger }
{
    match sampling {
        SamplingType::FirstN => pulled || trigger.is_none(),
        SamplingType::ChangeToTrue => pulled && trigger.is_none(),
        SamplingType::RandomOne => trigger.is_none(),
    }
}

// When a pulled gauge takes its samples.
fn choose_mode(sampling: SamplingType, trigger: Option<u32>) -> Sampling
    ensures { result ≡ words.sampling_mode sampling trigger }
{
    match sampling {
        SamplingType::ChangeToTrue => Sampling::AtChange,
        SamplingType::FirstN if trigger.is_some() => Sampling::AtTrigger,
        SamplingType::FirstN | SamplingType::RandomOne => Sampling::AtStart,
    }
}

// The samples of a metric, or why it can't have them.
#[tactic(auto, unfolding(crate::specs::MetricKinds::bad_kind))]
fn gauge_in(
    scope: &Scope,
    common: &Common,
    pulled: bool,
    own: FieldSet,
    gauge: &GaugeParts,
) -> Result<LKind, LinkError>
    requires own { own ≡ set_or_none gauge.now.fields }
    requires few { words.TakesFew (kind_of.Gauge gauge.now) }
    ensures { Links result (words.bad_kind common.now pulled (kind_of.Gauge gauge.now))
        (words.gauge_form scope.now pulled gauge.now own) }
{
    let id = common.id;
    if pulled && !common.links.is_empty() {
        return Err(LinkError::Fault(make_fault(id, Reason::PulledLinks)));
    }
    if !gauge.include_all && own.leaves.is_empty() {
        return Err(LinkError::Fault(make_fault(id, Reason::NoFilter)));
    }
    if !accepts_sampling(pulled, gauge.sampling, gauge.trigger) {
        return Err(LinkError::Fault(make_fault(id, Reason::BadSampling)));
    }
    let fields = if gauge.include_all { None } else { Some(own) };
    let samples = count_samples(gauge) as u32;
    if pulled {
        let trigger = place_of_option(&scope.ids.matchers, gauge.trigger);
        return Ok(LKind::PulledGauge {
            fields,
            samples,
            mode: choose_mode(gauge.sampling, trigger),
            trigger,
        });
    }
    Ok(LKind::PushedGauge { fields, samples })
}

// The times of a metric, whose predicate's table is kept so.
fn duration_in(max_sparse: bool, spec: PredSpec) -> LKind
    ensures { result ≡ words.duration_form max_sparse spec }
{
    if max_sparse {
        LKind::MaxSparse { spec }
    } else {
        LKind::SumDuration { spec }
    }
}

/// What is linked of a metric's kind, whose own tree has this set, or what the kind can't be.
#[tactic(auto, unfolding(crate::specs::MetricKinds::bad_kind, crate::specs::MetricKinds::linked_kind))]
pub fn kind_in(scope: &Scope, metric: &Metric, what: i64, own: FieldSet) -> Result<LKind, LinkError>
    requires own { own ≡ set_or_none (own_tree metric.now.kind) }
    requires few { words.TakesFew metric.now.kind }
    ensures { Links result
        (words.bad_kind metric.now.common
        (is_pulled_kind scope.now metric.now.kind what) metric.now.kind)
        (words.linked_kind scope.now what
        (bound_or_default metric.now.sliced.bound) metric.now.kind) }
{
    let common = &metric.common;
    match &metric.kind {
        Kind::Event => Ok(LKind::Event),
        Kind::Count { overflow } => Ok(LKind::Count {
            overflow: *overflow,
        }),
        Kind::Value(value) => value_in(common, scope.is_of_pulled_atom(what), own, value),
        Kind::Gauge(gauge) => gauge_in(scope, common, scope.is_of_pulled_atom(what), own, gauge),
        Kind::Duration { max_sparse } => {
            let bound = choose_bound(metric.sliced.bound);
            // What a duration times is a simple predicate: that was judged.
            let spec = scope.spec_of(what).unwrap_or(NO_SPEC);
            Ok(duration_in(*max_sparse, PredSpec { bound, ..spec }))
        }
    }
}
