//! Values of pushed atoms, by key.
ghost use Rattle.std.specs.Prelude.{◌≡◌, ◌<◌, ◌≤◌, []};
ghost use Rattle.bucket_meaning.specs.Limits.{longest_bucket, time_limit, most_keys};
ghost use Rattle.value_metric.specs.PushedStands.{PushedStandsFor};

use crate::value_books::ValueBooks;
use crate::{Closed, KeyedInt, Producer, ReadsEvents};
use bucket_clock::Crossings;
use config_types::Aggregation;
use std::alloc::{AllocError, Global};

/// What the integers of one metric of pushed values give, by key.
#[derive(Drop)]
pub struct PushedValue {
    pub(crate) books: ValueBooks,
}

impl PushedValue {
    /// Of no integers. Time begins at `base`, a full bucket is `size` long, and a part admits `bound` keys.
    pub fn new(
        alloc: Global,
        base: u64,
        size: u64,
        bound: usize,
        aggregation: Aggregation,
    ) -> PushedValue
        requires base_fits { base < time_limit }
        requires least_size { 1 ≤ size }
        requires most_size { size ≤ longest_bucket }
        requires least_bound { 1 ≤ bound }
        requires most_bound { bound ≤ most_keys }
        ensures { PushedStandsFor result
            (record { base = base; size = size; bound = bound; aggregation = aggregation }) [] }
    {
        let _size = size;
        PushedValue {
            books: ValueBooks::new(alloc, base, bound, aggregation, false),
        }
    }
}

impl Producer for PushedValue {
    ghost use Rattle.std.specs.Prelude.{ℤ};
    ghost use Rattle.atom_record.specs.declared.value.MetricKey.{MetricKey};
    ghost use Rattle.value_metric.specs.PushedValues.{PushedParams};
    ghost use Rattle.value_metric.specs.PushedStands.{pushed_law};

    type Event = KeyedInt;

    type After = ();

    type Value = i64;

    ghost Params = { PushedParams };

    ghost What = { MetricKey × ℤ };

    ghost Key = { MetricKey };

    ghost Share = { ℤ };

    ghost law = { pushed_law };

    fn event(&mut self, at: u64, ev: KeyedInt) -> Result<(), AllocError> {
        self.event_of(at, &ev)
    }

    fn condition(&mut self, at: u64, now: ()) -> Result<(), AllocError> {
        let _at = at;
        let _now = now;
        let _self = &*self;
        Ok(())
    }

    fn cross(&mut self, crossings: Crossings) -> Result<(), AllocError> {
        self.books.close(crossings.first_end)?;
        let full = crossings.full_buckets.saturating_mul(crossings.size);
        self.books.start = crossings.first_end.saturating_add(full);
        Ok(())
    }

    fn cut(&mut self, at: u64) -> Result<(), AllocError> {
        self.books.close(at)
    }

    fn take(&mut self) -> Closed<i64> {
        self.books.take()
    }
}

impl ReadsEvents for PushedValue {
    fn event_of(&mut self, at: u64, ev: &KeyedInt) -> Result<(), AllocError> {
        let _at = at;
        self.books.arrive(&ev.key, ev.value as i128)
    }
}
