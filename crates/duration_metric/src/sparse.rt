//! The longest time that a key of a predicate was on, by key.
ghost use Rattle.std.specs.Prelude.{◌≡◌, ◌<◌, ◌≤◌, List, [], length, slice_get, OnOk};
ghost use Rattle.std.specs.Option.{option_copied};
ghost use Rattle.bucket_meaning.specs.Limits.{longest_bucket, time_limit, most_keys};
ghost use Rattle.metric_producer.specs.Calls.{Got};
ghost use Rattle.metric_producer.specs.Moves.{Moves};
ghost use Rattle.predicate_state.specs.declared.event.PredEvent.TheVariants.{Start, Stop, StopAll};
ghost use Rattle.duration_metric.specs.InnerKeys.{DurationParams, DurationCall, inner_keys, told_truth, was_told};
ghost use Rattle.duration_metric.specs.SparseStands.{SparseStandsFor, sparse_law};

use crate::inner::says;
use crate::sparse_books::SparseBooks;
use crate::sparse_keys::SparseKeys;
use crate::{Closed, InnerDelta, InnerEvent, Producer, ReadsEvents};
use atom_record::{DimKey, MetricKey};
use bucket_clock::Crossings;
use config_types::PredSpec;
use predicate_state::{PredEvent, Truth};
use std::alloc::{AllocError, Global};

/// For each output key, the longest time that one of its inner keys was on while its condition was true. A time counts
/// where the inner key goes off.
#[derive(Drop)]
pub struct MaxProducer {
    pub(crate) keys: SparseKeys,
    pub(crate) books: SparseBooks,
}

impl MaxProducer {
    /// Of no events. Time begins at `base`, a full bucket is `size` long, and `spec` says how the inner keys are kept;
    /// its bound is that of a part, too.
    pub fn new(alloc: Global, base: u64, size: u64, spec: PredSpec) -> MaxProducer
        requires base_fits { base < time_limit }
        requires least_size { 1 ≤ size }
        requires most_size { size ≤ longest_bucket }
        requires least_bound { 1 ≤ spec.bound }
        requires most_bound { spec.bound ≤ most_keys }
        ensures { SparseStandsFor result (record { base = base; size = size; spec = spec }) [] }
    {
        let _size = size;
        MaxProducer {
            keys: SparseKeys::new(alloc, spec),
            books: SparseBooks::new(alloc, base, spec.bound as usize),
        }
    }

    /// The number of inner keys.
    pub fn inner_len(&self) -> usize
        ensures value { (params : DurationParams) (calls : List DurationCall)
            → SparseStandsFor self.now params calls → result ≡ length (inner_keys params.spec calls) }
        ensures few { result ≤ most_keys }
    {
        let _bound = self.keys.table.bound();
        self.keys.table.len()
    }

    /// The inner key at a place, from 0, or none past the end.
    pub fn inner_key(&self, place: usize) -> Option<&DimKey>
        ensures { (params : DurationParams) (calls : List DurationCall) → SparseStandsFor self.now params calls
            → option_copied result ≡ slice_get (inner_keys params.spec calls) place }
    {
        let (key, _entry) = self.keys.table.pair(place)?;
        Some(key)
    }

    /// The truth that was told last of the inner key at a place; none past the end, and where none was told of the key.
    pub fn inner_truth(&self, place: usize) -> Option<Truth>
        ensures { (params : DurationParams) (calls : List DurationCall) → SparseStandsFor self.now params calls
            → result ≡ told_truth params.spec calls place }
    {
        let (_key, entry) = self.keys.table.pair(place)?;
        let Some(known) = &entry.known else {
            return None;
        };
        Some(known.truth)
    }

    /// Whether this was told last of the inner key at a place: its truth, and the key for which it counts.
    pub fn was_told(&self, place: usize, truth: Truth, out: &MetricKey) -> bool
        ensures { (params : DurationParams) (calls : List DurationCall) → SparseStandsFor self.now params calls
            → result ≡ was_told params.spec calls place (record { truth = truth; out = out.now }) }
    {
        let Some((_key, entry)) = self.keys.table.pair(place) else {
            return false;
        };
        says(&entry.known, truth, out)
    }

    // Starts an inner key once more.
    fn start(&mut self, at: u64, key: &DimKey) -> Result<(), AllocError>
        ensures { OnOk result (Moves sparse_law self.old self.new
            (Got at (record { event = Start; key = key.now }))) }
    {
        let turn = self.keys.start(at, key)?;
        self.books.note(&self.keys.table, turn)
    }

    // Stops an inner key once.
    fn stop(&mut self, at: u64, key: &DimKey) -> Result<(), AllocError>
        ensures { OnOk result (Moves sparse_law self.old self.new
            (Got at (record { event = Stop; key = key.now }))) }
    {
        let turn = self.keys.stop(at, key)?;
        self.books.note(&self.keys.table, turn)
    }

    // Stops every inner key for good.
    fn stop_all(&mut self, at: u64, key: &DimKey) -> Result<(), AllocError>
        ensures { OnOk result (Moves sparse_law self.old self.new
            (Got at (record { event = StopAll; key = key.now }))) }
    {
        let gone = self.keys.stop_all(at, key);
        self.books.note_all(&self.keys.table, gone, at)
    }
}

impl Producer for MaxProducer {
    ghost use Rattle.std.specs.Prelude.{ℕ};
    ghost use Rattle.atom_record.specs.declared.value.MetricKey.{MetricKey};
    ghost use Rattle.duration_metric.specs.InnerKeys.{DurationParams};
    ghost use Rattle.duration_metric.specs.SparseStands.{sparse_law};

    type Event = InnerEvent;

    type After = InnerDelta;

    type Value = u64;

    ghost Params = { DurationParams };

    ghost What = { MetricKey × ℕ };

    ghost Key = { MetricKey };

    ghost Share = { ℕ };

    ghost law = { sparse_law };

    fn event(&mut self, at: u64, ev: InnerEvent) -> Result<(), AllocError> {
        self.event_of(at, &ev)
    }

    fn condition(&mut self, at: u64, now: InnerDelta) -> Result<(), AllocError> {
        self.keys.learn(at, now);
        Ok(())
    }

    fn cross(&mut self, crossings: Crossings) -> Result<(), AllocError> {
        self.books.close(crossings.first_end)?;
        let full = crossings.full_buckets.saturating_mul(crossings.size);
        self.books.start = crossings.first_end.saturating_add(full);
        Ok(())
    }

    fn cut(&mut self, at: u64) -> Result<(), AllocError> {
        self.books.close(at)
    }

    fn take(&mut self) -> Closed<u64> {
        self.books.take()
    }
}

impl ReadsEvents for MaxProducer {
    fn event_of(&mut self, at: u64, ev: &InnerEvent) -> Result<(), AllocError> {
        match ev.event {
            PredEvent::Start => self.start(at, &ev.key),
            PredEvent::Stop => self.stop(at, &ev.key),
            PredEvent::StopAll => self.stop_all(at, &ev.key),
        }
    }
}
