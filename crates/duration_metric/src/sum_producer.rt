//! Sums of durations, by key.
ghost use Rattle.std.specs.Prelude.{◌≡◌, ◌<◌, ◌≤◌, List, [], length, slice_get};
ghost use Rattle.std.specs.Option.{option_copied};
ghost use Rattle.bucket_meaning.specs.Limits.{longest_bucket, time_limit, most_keys};
ghost use Rattle.duration_metric.specs.InnerKeys.{DurationParams, DurationCall, inner_keys, told_truth, was_told};
ghost use Rattle.duration_metric.specs.SumStands.{SumStandsFor};

use crate::sum::Sums;
use crate::{Closed, InnerDelta, InnerEvent, Producer, ReadsEvents};
use atom_record::{DimKey, MetricKey};
use bucket_clock::Crossings;
use config_types::PredSpec;
use predicate_state::Truth;
use std::alloc::{AllocError, Global};
use std::marker::Model;

/// Sums of the times for which keys are active, by part.
#[derive(Drop)]
pub struct SumProducer {
    pub(crate) sums: Sums,
}

impl Model for SumProducer {
    ghost use Rattle.duration_metric.specs.SumParts.{Summing, seen, HasRightTally};

    ghost Value = { Summing };

    ghost view = { λ it. seen it.sums };

    ghost invariant = { λ it. HasRightTally it.sums };
}

impl SumProducer {
    /// Of no calls. Time begins at `base`, and a full bucket is `size` long. A part admits as many keys as the inner
    /// keys are bound to.
    pub fn new(alloc: Global, base: u64, size: u64, spec: PredSpec) -> SumProducer
        requires base_fits { base < time_limit }
        requires least_size { 1 ≤ size }
        requires most_size { size ≤ longest_bucket }
        requires least_bound { 1 ≤ spec.bound }
        requires most_bound { spec.bound ≤ most_keys }
        ensures { SumStandsFor result (record { base = base; size = size; spec = spec }) [] }
    {
        let _size = size;
        SumProducer {
            sums: Sums::new(alloc, base, spec),
        }
    }

    /// The number of inner keys.
    pub fn inner_len(&self) -> usize
        ensures value { (params : DurationParams) (calls : List DurationCall)
            → SumStandsFor self.now params calls → result ≡ length (inner_keys params.spec calls) }
        ensures few { result ≤ most_keys }
    {
        self.sums.inner.len()
    }

    /// The inner key at a place, from 0, or none past the end.
    pub fn inner_key(&self, place: usize) -> Option<&DimKey>
        ensures { (params : DurationParams) (calls : List DurationCall)
            → SumStandsFor self.now params calls
            → option_copied result ≡ slice_get (inner_keys params.spec calls) place }
    {
        self.sums.inner.key(place)
    }

    /// The truth that was told last of the inner key at a place; none past the end, and where none was told of the key.
    pub fn inner_truth(&self, place: usize) -> Option<Truth>
        ensures { (params : DurationParams) (calls : List DurationCall)
            → SumStandsFor self.now params calls → result ≡ told_truth params.spec calls place }
    {
        self.sums.inner.truth(place)
    }

    /// Whether this was told last of the inner key at a place: its truth, and the key for which it counts.
    pub fn was_told(&self, place: usize, truth: Truth, out: &MetricKey) -> bool
        ensures { (params : DurationParams) (calls : List DurationCall)
            → SumStandsFor self.now params calls
            → result ≡ was_told params.spec calls place (record { truth = truth; out = out.now }) }
    {
        self.sums.inner.was_told(place, truth, out)
    }
}

impl Producer for SumProducer {
    ghost use Rattle.std.specs.Prelude.{ℕ};
    ghost use Rattle.atom_record.specs.declared.value.MetricKey.{MetricKey};
    ghost use Rattle.metric_kinds.specs.Runs.{Active};
    ghost use Rattle.duration_metric.specs.InnerKeys.{DurationParams};
    ghost use Rattle.duration_metric.specs.SumStands.{sum_law};

    type Event = InnerEvent;

    type After = InnerDelta;

    type Value = u64;

    ghost Params = { DurationParams };

    ghost What = { Active MetricKey };

    ghost Key = { MetricKey };

    ghost Share = { ℕ };

    ghost law = { sum_law };

    fn event(&mut self, at: u64, ev: InnerEvent) -> Result<(), AllocError> {
        self.event_of(at, &ev)
    }

    fn condition(&mut self, at: u64, now: InnerDelta) -> Result<(), AllocError> {
        let answer = self.sums.condition(at, now);
        self.sums.after(answer)
    }

    fn cross(&mut self, crossings: Crossings) -> Result<(), AllocError> {
        let answer = self.sums.cross(crossings);
        self.sums.after(answer)
    }

    fn cut(&mut self, at: u64) -> Result<(), AllocError> {
        let answer = self.sums.cut(at);
        self.sums.after(answer)
    }

    fn take(&mut self) -> Closed<u64> {
        let (rows, not_kept) = self.sums.kept.take();
        let lost = self.sums.inner.keys.dropped();
        let since = lost.saturating_sub(self.sums.reported);
        self.sums.reported = lost;
        Closed {
            rows,
            not_kept,
            dropped: self.sums.table.take_dropped().saturating_add(since),
            missing: 0,
        }
    }
}

impl ReadsEvents for SumProducer {
    fn event_of(&mut self, at: u64, ev: &InnerEvent) -> Result<(), AllocError> {
        let answer = self.sums.event(at, ev);
        self.sums.after(answer)
    }
}
