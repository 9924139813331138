//! Counts by key.
ghost use Rattle.std.specs.Prelude.{◌≡◌, ℕ, ◌+◌, ◌-◌, ◌^◌, ◌<◌, ◌≤◌, true, [], map, min, Some, slice_get, OnOk};
ghost use Rattle.std.specs.Map.{values_of};
ghost use Rattle.bucket_meaning.specs.Limits.{longest_bucket, time_limit, most_keys};
ghost use Rattle.dim_table.specs.Table.{with_value_at};
ghost use Rattle.kept_rows.specs.KeptRows.{AddsRows};
ghost use Rattle.metric_kinds.specs.Counts.{row_weight};
ghost use Rattle.count_metric.specs.CountStands.{tally_row, spilled_rows, overflow_row, CountStandsFor, ClosesPart};

use crate::{Closed, CountCell, Producer, ReadsEvents, Row};
use atom_record::{DimKey, MetricKey};
use bucket_clock::Crossings;
use dim_table::{Admit, Guarded};
use indexmap::map::IntoIter;
use kept_rows::KeptRows;
use sd_base::Seq;
use std::alloc::{AllocError, Global};
use std::mem;

/// Counts of the events of one metric, by key.
#[derive(Drop)]
pub struct CountProducer {
    pub(crate) start: u64,
    /// Whether the arrivals of the open part whose keys find no room are gathered in a row.
    pub(crate) overflow: bool,
    /// How many these are so far.
    pub(crate) spilled: u64,
    pub(crate) table: Guarded<MetricKey, u64>,
    pub(crate) kept: KeptRows<Row<CountCell>>,
    pub(crate) alloc: Global,
}

impl CountProducer {
    /// Of no events. Time begins at `base`, a full bucket is `size` long, and a part admits `bound` keys. With
    /// `overflow` the arrivals of all other keys are gathered in one row of the part, without key.
    pub fn new(alloc: Global, base: u64, size: u64, bound: usize, overflow: bool) -> CountProducer
        requires base_fits { base < time_limit }
        requires least_size { 1 ≤ size }
        requires most_size { size ≤ longest_bucket }
        requires least_bound { 1 ≤ bound }
        requires most_bound { bound ≤ most_keys }
        ensures { CountStandsFor result
            (record { base = base; size = size; bound = bound; overflow = overflow }) [] }
    {
        let _size = size;
        CountProducer {
            start: base,
            overflow,
            spilled: 0,
            table: Guarded::new(alloc, bound),
            kept: KeptRows::new(alloc),
            alloc,
        }
    }

    // Closes the open part at a time, and opens the next.
    fn close(&mut self, end: u64) -> Result<(), AllocError>
        ensures { OnOk result (ClosesPart self.old self.new end) }
    {
        let start = self.start;
        let spilled = mem::replace(&mut self.spilled, 0);
        self.start = end;
        keep_all(&mut self.kept, start, end, self.table.move_out())?;
        if self.overflow {
            keep_spilled(&mut self.kept, self.alloc, start, end, spilled)?;
        }
        Ok(())
    }
}

// Keeps a row for each key and number, in order, or counts it.
fn keep_all(
    kept: &mut KeptRows<Row<CountCell>>,
    start: u64,
    end: u64,
    tally: IntoIter<MetricKey, u64>,
) -> Result<(), AllocError>
    ensures { OnOk result
        (AddsRows row_weight kept.old kept.new (map (tally_row start end) tally)) }
{
    for (key, number) in tally {
        let value = CountCell {
            number,
            overflow: false,
        };
        let row = Row {
            key,
            start,
            end,
            value,
        };
        kept.put(row)?;
    }
    Ok(())
}

// Keeps the overflow row of a part with so many spilled arrivals, or counts it. Without any there is no row.
fn keep_spilled(
    kept: &mut KeptRows<Row<CountCell>>,
    alloc: Global,
    start: u64,
    end: u64,
    spilled: u64,
) -> Result<(), AllocError>
    ensures { OnOk result
        (AddsRows row_weight kept.old kept.new (spilled_rows true start end spilled)) }
{
    if spilled == 0 {
        return Ok(());
    }
    kept.put(spilled_row(alloc, start, end, spilled))
}

// The overflow row of a part.
fn spilled_row(alloc: Global, start: u64, end: u64, number: u64) -> Row<CountCell>
    ensures { result ≡ overflow_row start end number }
{
    let key = MetricKey {
        dims: DimKey::new(alloc),
        slices: Seq::new(alloc),
    };
    let value = CountCell {
        number,
        overflow: true,
    };
    Row {
        key,
        start,
        end,
        value,
    }
}

// Counts one more in the row at a place.
fn raise(table: &mut Guarded<MetricKey, u64>, place: usize)
    ensures bound { table.new.bound ≡ table.old.bound }
    ensures raised { (count : ℕ) → slice_get (values_of table.old.rows) place ≡ Some count
        → table.new ≡ with_value_at table.old place (min (count + 1) (2 ^ 64 - 1)) }
{
    if let Some(count) = table.value_at(place) {
        *count = count.saturating_add(1);
    }
}

impl Producer for CountProducer {
    ghost use Rattle.std.specs.Prelude.{ℕ};
    ghost use Rattle.atom_record.specs.declared.value.MetricKey.{MetricKey};
    ghost use Rattle.count_metric.specs.Counting.{CountParams};
    ghost use Rattle.count_metric.specs.CountStands.{count_law};

    type Event = MetricKey;

    type After = ();

    type Value = CountCell;

    ghost Params = { CountParams };

    ghost What = { MetricKey × ℕ };

    ghost Key = { MetricKey };

    ghost Share = { ℕ };

    ghost law = { count_law };

    fn event(&mut self, at: u64, ev: MetricKey) -> Result<(), AllocError> {
        self.event_of(at, &ev)
    }

    fn condition(&mut self, at: u64, now: ()) -> Result<(), AllocError> {
        let _at = at;
        let _now = now;
        let _self = &*self;
        Ok(())
    }

    fn cross(&mut self, crossings: Crossings) -> Result<(), AllocError> {
        self.close(crossings.first_end)?;
        let full = crossings.full_buckets.saturating_mul(crossings.size);
        self.start = crossings.first_end.saturating_add(full);
        Ok(())
    }

    fn cut(&mut self, at: u64) -> Result<(), AllocError> {
        self.close(at)
    }

    fn take(&mut self) -> Closed<CountCell> {
        let (rows, not_kept) = self.kept.take();
        Closed {
            rows,
            not_kept,
            dropped: self.table.take_dropped(),
            missing: 0,
        }
    }
}

impl ReadsEvents for CountProducer {
    ghost use Rattle.std.specs.Prelude.{Contains, IsOk, length};
    ghost use Rattle.dim_table.specs.Table.{keys};
    ghost use Rattle.metric_producer.specs.Calls.{Got};
    ghost use Rattle.metric_producer.specs.Moves.{Moves};
    ghost use Rattle.count_metric.specs.CountStands.{count_law};

    fn event_of(&mut self, at: u64, ev: &MetricKey) -> Result<(), AllocError>
        ensures moves { OnOk result (Moves count_law self.old self.new (Got at ev.now)) }

        // Only a new key that finds room asks for memory.
        ensures present { Contains (keys self.old.table) ev.now → IsOk result }
        ensures full { length self.old.table.rows ≡ self.old.table.bound → IsOk result }
    {
        let _at = at;
        match self.table.admit_copy(ev, 0)? {
            Admit::At(place) => raise(&mut self.table, place),
            Admit::Full => self.spilled = self.spilled.saturating_add(1),
        }
        Ok(())
    }
}
