//! A configuration whose references are places in config order.

use config_types::{
    Aggregation, AlertSpec, DiffSpec, Operation, PredSpec, Sampling, SimpleMatcher,
};
use field_select::{FieldSet, LeafPath};
use sd_base::Seq;

/// A configuration in which every reference is the place of what it names, from 0, in the list of its kind.
#[derive(Debug, Drop)]
pub struct Linked {
    pub matchers: Seq<LMatcher>,
    pub predicates: Seq<LPredicate>,
    pub states: Seq<LState>,
    /// All metrics: event, count, value, gauge and duration metrics, in this order.
    pub metrics: Seq<LMetric>,
    pub alerts: Seq<LAlert>,
}

/// How a matcher says which atoms it means.
#[derive(Debug, Drop)]
pub enum LMatcher {
    /// By the atom itself.
    Simple(SimpleMatcher),
    /// By what the matchers at these places say of it.
    Combo { op: Operation, children: Seq<u32> },
}

/// A predicate and its id.
#[derive(Debug, Drop)]
pub struct LPredicate {
    pub id: i64,
    pub body: LPredBody,
}

/// What a predicate's truth comes from.
#[derive(Debug, Drop)]
pub enum LPredBody {
    /// Atoms that start and stop it.
    Simple {
        /// The place of the matcher that starts it.
        start: Option<u32>,
        /// The place of the matcher that stops it.
        stop: Option<u32>,
        /// The place of the matcher that stops it at all keys.
        stop_all: Option<u32>,
        /// The fields that make the key; no leaves where it has no dimensions.
        dims: FieldSet,
        /// How its table is kept.
        spec: PredSpec,
    },
    /// The predicates at these places.
    Combo {
        op: Operation,
        children: Seq<u32>,
    },
}

/// A condition: the place of its predicate, none where it always holds, and the predicates of the configuration.
#[derive(Debug, Drop)]
pub struct CondTree {
    pub root: Option<u32>,
    pub nodes: Seq<LPredicate>,
}

/// How the keys of a simple predicate hang together with those of what a metric counts.
#[derive(Debug, Drop)]
pub struct LLink {
    /// The place of the predicate.
    pub predicate: u32,
    /// Fields of the atom that is counted, in the order of the predicate's leaves.
    pub in_what: FieldSet,
    /// For each of these fields, which leaf of the predicate's key it is, from 0. The places rise.
    pub places: Seq<u32>,
}

/// A state, by which metrics are sliced.
#[derive(Debug, Drop)]
pub struct LState {
    /// The atom that tells the state.
    pub atom_id: u32,
    /// Groups of its values. Without it each value stands for itself.
    pub map: Option<Seq<LGroup>>,
}

/// Values of a state that count as one.
#[derive(Debug, Drop)]
pub struct LGroup {
    /// The group's id; 0 where the configuration names none.
    pub group: i64,
    pub values: Seq<i32>,
}

/// A state by which a metric is sliced.
#[derive(Debug, Drop)]
pub struct LSlice {
    /// The place of the state.
    pub state: u32,
    /// The fields of the atom that is counted that make the state's key; none where the metric has no link to it.
    pub in_what: Option<FieldSet>,
}

/// What makes a metric active for a while.
#[derive(Clone, Copy, Debug)]
pub struct LActivation {
    /// The place of the matcher whose atoms begin it.
    pub start: u32,
    /// How long it lasts, in nanoseconds.
    pub ttl: u64,
    /// The place of the matcher whose atoms end it before its time.
    pub cancel: Option<u32>,
}

/// A metric.
#[derive(Debug, Drop)]
pub struct LMetric {
    pub id: i64,
    /// Whether reports show it.
    pub shown: bool,
    /// The place of the matcher of what is counted; for a duration, of the predicate whose time is.
    pub what: u32,
    /// The place of the predicate under which it is counted.
    pub condition: Option<u32>,
    pub links: Seq<LLink>,
    /// The fields of what is counted that make the key.
    pub dims: FieldSet,
    /// The length of a bucket in nanoseconds; 0 for an event metric, which has no buckets.
    pub size: u64,
    /// How many keys a bucket admits; 1 for an event metric.
    pub bound: u32,
    /// The states by which it is sliced, in the order in which the configuration names them.
    pub slices: Seq<LSlice>,
    pub kind: LKind,
    /// It counts while one of these is alive, and always where there is none.
    pub activations: Seq<LActivation>,
}

/// What a metric makes of what it counts. It is pulled where its `what` is a simple matcher of an atom that is pulled.
#[derive(Debug, Drop)]
pub enum LKind {
    /// The atoms themselves.
    Event,
    /// How many there were.
    Count {
        /// Whether arrivals of keys that find no room are gathered in one row of each bucket.
        overflow: bool,
    },
    /// The values of a field, as they are.
    PushedValue {
        atom_id: u32,
        leaf: LeafPath,
        agg: Aggregation,
    },
    /// The differences of a field's values from pull to pull.
    PulledValue {
        atom_id: u32,
        leaf: LeafPath,
        spec: DiffSpec,
    },
    /// The first samples of a bucket, with these entries, or with all.
    PushedGauge {
        fields: Option<FieldSet>,
        samples: u32,
    },
    /// Samples of what was pulled last.
    PulledGauge {
        fields: Option<FieldSet>,
        samples: u32,
        mode: Sampling,
        /// The place of the matcher at whose atoms samples are taken.
        trigger: Option<u32>,
    },
    /// The sum of the times for which the predicate holds.
    SumDuration {
        spec: PredSpec,
    },
    /// The longest of these times.
    MaxSparse {
        spec: PredSpec,
    },
}

/// An alert on a metric that counts.
#[derive(Clone, Copy, Debug)]
pub struct LAlert {
    pub id: i64,
    /// The place of the metric whose counts it watches.
    pub metric: u32,
    /// What it watches for; its bound is the metric's.
    pub spec: AlertSpec,
}
