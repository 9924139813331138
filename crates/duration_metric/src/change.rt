//! What a producer of durations is told of its inner keys.

use atom_record::{DimKey, MetricKey};
use predicate_state::{PredEvent, Truth};
use sd_base::Seq;

/// What an atom does to the inner keys of a metric.
#[derive(Drop)]
pub struct InnerEvent {
    pub event: PredEvent,
    /// The inner key on which it acts. A stop of all keys takes any key.
    pub key: DimKey,
}

/// What is so of one inner key from a step on.
#[derive(Drop)]
pub struct InnerChange {
    /// The place of the key among the inner keys, from 0.
    pub place: u32,
    /// What its condition is.
    pub truth: Truth,
    /// The key for which it counts.
    pub out: MetricKey,
}

/// The inner keys whose truth or output key changed with a step, in any order. A key that isn't among them keeps both.
#[derive(Drop)]
pub struct InnerDelta {
    pub changes: Seq<InnerChange>,
}
