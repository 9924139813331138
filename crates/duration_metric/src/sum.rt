//! The parts of sums of durations, by key, and what calls make of them.
ghost use Rattle.std.specs.Prelude.{◌≡◌, ℕ, ◌+◌, ◌^◌, ◌<◌, ◌≤◌, [], ◌∷◌, map, slice_get, OnOk};
ghost use Rattle.std.specs.List.{flat_map};
ghost use Rattle.bucket_clock.specs.Clock.{last_end};
ghost use Rattle.bucket_meaning.specs.Limits.{most_keys};
ghost use Rattle.dim_table.specs.Table.{keys};
ghost use Rattle.kept_rows.specs.KeptRows.{AddsRows};
ghost use Rattle.metric_producer.specs.Calls.{Got, Learned, Crossed, CutAt};
ghost use Rattle.metric_producer.specs.Moves.{Moves};
ghost use Rattle.metric_kinds.specs.Counts.{row_weight};
ghost use Rattle.duration_metric.specs.SumParts.{seen, HasRightTally};
ghost use Rattle.duration_metric.specs.SumStands.{span_at, span_row, whole_row, whole_rows, SumStandsFor, sum_law};
ghost use Rattle.duration_metric.specs.SumSteps.{found_out, outs_at, found_told, tolds_at, StepsSome, BeginsRun, BeginsOut, BeginsAll, KeepsKeys, ClosesRows, Opens};
ghost use Rattle.duration_metric.specs.Tallies.{row_out, is_counted};

use crate::counted::{
    count_all, forget_all, forget_rows, forget_tolds, in_order, lower_all, out_at, release_all,
    show_few, told_at,
};
use crate::inner::{Inner, InnerTable};
use crate::memory::Memory;
use crate::tally::Tally;
use crate::{InnerDelta, InnerEvent, Row};
use atom_record::{DimKey, MetricKey};
use bucket_clock::Crossings;
use config_types::PredSpec;
use dim_table::Guarded;
use indexmap::map::IntoIter;
use kept_rows::KeptRows;
use sd_base::Seq;
use std::alloc::{AllocError, Global};
use std::mem;

/// For how long a key was active in the open part up to where it last ended, and since when it is active again.
#[derive(Clone, Copy)]
pub(crate) struct Span {
    pub(crate) sum: u64,
    pub(crate) since: Option<u64>,
}

/// What a producer of sums is made of, with the tally of its inner keys.
#[derive(Drop)]
pub(crate) struct Sums {
    pub(crate) start: u64,
    pub(crate) inner: InnerTable,
    /// How many inner keys count for each active key since the last condition.
    pub(crate) tally: Tally,
    pub(crate) table: Guarded<MetricKey, Span>,
    pub(crate) kept: KeptRows<Row<u64>>,
    /// How many inner keys had found no room at the last report.
    pub(crate) reported: u64,
    pub(crate) memory: Memory,
}

impl Sums {
    /// Of no calls. Time begins at `base`.
    pub(crate) fn new(alloc: Global, base: u64, spec: PredSpec) -> Sums
        requires least_bound { 1 ≤ spec.bound }
        requires most_bound { spec.bound ≤ most_keys }
        ensures stands { (size : ℕ)
            → SumStandsFor (seen result) (record { base = base; size = size; spec = spec }) [] }
        ensures tally { HasRightTally result }
    {
        Sums {
            start: base,
            inner: InnerTable::new(alloc, spec),
            tally: Tally::new(alloc),
            table: Guarded::new(alloc, spec.bound as usize),
            kept: KeptRows::new(alloc),
            reported: 0,
            memory: Memory::new(alloc),
        }
    }

    /// An event comes.
    pub(crate) fn event(&mut self, at: u64, ev: &InnerEvent) -> Result<(), AllocError>
        ensures moves { OnOk result (Moves sum_law (seen self.old) (seen self.new) (Got at ev.now)) }
        ensures tally { OnOk result (HasRightTally self.old → HasRightTally self.new) }
    {
        let _at = at;
        self.inner.act(ev)
    }

    /// A condition is told.
    pub(crate) fn condition(&mut self, at: u64, now: InnerDelta) -> Result<(), AllocError>
        requires right { HasRightTally self.old }
        ensures moves { OnOk result
            (Moves sum_law (seen self.old) (seen self.new) (Learned at now)) }
        ensures tally { OnOk result (HasRightTally self.new) }
    {
        self.inner.tell(now)?;
        let alloc = self.memory.alloc();
        let touched = mem::replace(&mut self.inner.touched, Seq::new(alloc));
        let places = in_order(touched)?;
        let gone = mem::replace(&mut self.inner.gone, Seq::new(alloc));
        show_few(gone.as_slice());
        // What begins is counted before what ends, so that a key whose count comes back stays in the tally.
        let began = count_all(
            &mut self.inner.keys,
            &mut self.tally,
            places.as_slice(),
            alloc,
        )?;
        lower_all(&mut self.tally, gone.as_slice())?;
        release_all(&mut self.inner.keys, &mut self.tally, places.as_slice())?;
        // A key that stays as active as it was keeps its span. No key of the table stands there twice.
        let _len = self.table.len();
        let keys = &self.inner.keys;
        step_keys(&mut self.table, &self.tally, gone.as_slice(), at);
        step_tolds(&mut self.table, &self.tally, keys, places.as_slice(), at);
        step_outs(&mut self.table, &self.tally, keys, began.as_slice(), at);
        forget_all(&mut self.tally, &self.table, gone.as_slice());
        forget_tolds(&mut self.tally, &self.table, keys, places.as_slice());
        begin_outs(&mut self.table, keys, began.as_slice(), at)
    }

    /// Ends of buckets are crossed.
    pub(crate) fn cross(&mut self, crossings: Crossings) -> Result<(), AllocError>
        ensures moves { OnOk result
            (Moves sum_law (seen self.old) (seen self.new) (Crossed crossings)) }
        ensures tally { OnOk result (HasRightTally self.old → HasRightTally self.new) }
    {
        self.close(crossings.first_end)?;
        let full = crossings.full_buckets.saturating_mul(crossings.size);
        self.start = crossings.first_end.saturating_add(full);
        self.open()?;
        keep_full(&mut self.kept, &self.table, &crossings, self.memory.alloc())
    }

    /// A report cuts the open part.
    pub(crate) fn cut(&mut self, at: u64) -> Result<(), AllocError>
        ensures moves { OnOk result (Moves sum_law (seen self.old) (seen self.new) (CutAt at)) }
        ensures tally { OnOk result (HasRightTally self.old → HasRightTally self.new) }
    {
        self.close(at)?;
        self.open()
    }

    /// What a call answered. After want of memory no inner key is there, and none is counted.
    pub(crate) fn after(&mut self, answer: Result<(), AllocError>) -> Result<(), AllocError>
        ensures same { result ≡ answer }
        ensures kept { OnOk answer (self.new ≡ self.old) }
        ensures tally { OnOk answer (HasRightTally self.old) → HasRightTally self.new }
    {
        let Err(error) = answer else {
            return Ok(());
        };
        self.inner.keys.clear();
        self.inner.gone.clear();
        self.tally = Tally::new(self.memory.alloc());
        Err(error)
    }

    // Closes the open part at a time: its rows are kept or counted, and its table is empty.
    fn close(&mut self, end: u64) -> Result<(), AllocError>
        ensures closes { OnOk result (ClosesRows (seen self.old) (seen self.new) end) }
        ensures tally { OnOk result (HasRightTally self.old → HasRightTally self.new) }
    {
        let start = self.start;
        self.start = end;
        forget_rows(&mut self.tally, &self.table);
        keep_all(&mut self.kept, start, end, self.table.move_out())
    }

    // Begins a part in which the keys for which inner keys count are active from its start on.
    fn open(&mut self) -> Result<(), AllocError>
        ensures opens { OnOk result (Opens (seen self.old) (seen self.new)) }
        ensures tally { OnOk result (HasRightTally self.old → HasRightTally self.new) }
    {
        begin_all(&mut self.table, &self.inner.keys, self.start)
    }
}

// The span from a time on, at which its key is active or not.
fn step(at: u64, is_active: bool, span: Span) -> Span
    ensures { result ≡ span_at at is_active span }
{
    match (is_active, span.since) {
        (true, None) => Span {
            sum: span.sum,
            since: Some(at),
        },
        (false, Some(since)) => Span {
            sum: span.sum.saturating_add(at.saturating_sub(since)),
            since: None,
        },
        _ => span,
    }
}

// Takes the span of a key to a time, from which on the keys of a tally are active.
fn step_key(table: &mut Guarded<MetricKey, Span>, tally: &Tally, key: &MetricKey, at: u64)
    ensures { StepsSome table.old table.new (key.now ∷ []) (is_counted tally.now) at }
{
    let Some(place) = table.place_of(key) else {
        return;
    };
    let is_active = tally.count(key) > 0;
    let Some(span) = table.value_at(place) else {
        return;
    };
    *span = step(at, is_active, *span);
}

// Takes the spans of some keys to a time.
fn step_keys(table: &mut Guarded<MetricKey, Span>, tally: &Tally, keys: &[MetricKey], at: u64)
    ensures { StepsSome table.old table.new keys.now (is_counted tally.now) at }
{
    for key in keys {
        step_key(table, tally, key, at);
    }
}

// Takes the span of the key for which the row at a place counts to a time.
fn step_out(
    table: &mut Guarded<MetricKey, Span>,
    tally: &Tally,
    keys: &Guarded<DimKey, Inner>,
    place: u64,
    at: u64,
)
    ensures { StepsSome table.old table.new (found_out (slice_get keys.now.rows place)) (is_counted tally.now) at }
{
    let Some(key) = out_at(keys, place) else {
        return;
    };
    step_key(table, tally, key, at);
}

// Takes the span of the key that was told of the row at a place to a time.
fn step_told(
    table: &mut Guarded<MetricKey, Span>,
    tally: &Tally,
    keys: &Guarded<DimKey, Inner>,
    place: u64,
    at: u64,
)
    ensures { StepsSome table.old table.new (found_told (slice_get keys.now.rows place)) (is_counted tally.now) at }
{
    let Some(key) = told_at(keys, place) else {
        return;
    };
    step_key(table, tally, key, at);
}

// Takes the spans of the keys that were told of the rows at some places to a time.
fn step_tolds(
    table: &mut Guarded<MetricKey, Span>,
    tally: &Tally,
    keys: &Guarded<DimKey, Inner>,
    places: &[u64],
    at: u64,
)
    ensures { StepsSome table.old table.new (tolds_at keys.now.rows places.now) (is_counted tally.now) at }
{
    for place in places {
        step_told(table, tally, keys, *place, at);
    }
}

// Takes the spans of the keys for which the rows at some places count to a time.
fn step_outs(
    table: &mut Guarded<MetricKey, Span>,
    tally: &Tally,
    keys: &Guarded<DimKey, Inner>,
    places: &[u64],
    at: u64,
)
    ensures { StepsSome table.old table.new (outs_at keys.now.rows places.now) (is_counted tally.now) at }
{
    for place in places {
        step_out(table, tally, keys, *place, at);
    }
}

// Admits a key whose run begins. It is copied where it is new and finds room.
fn begin(table: &mut Guarded<MetricKey, Span>, key: &MetricKey, at: u64) -> Result<(), AllocError>
    ensures { OnOk result (BeginsRun table.old table.new [] key.now at) }
{
    let span = Span {
        sum: 0,
        since: Some(at),
    };
    table.admit_copy(key, span)?;
    Ok(())
}

// Admits the key for which the row at a place counts.
fn begin_out(
    table: &mut Guarded<MetricKey, Span>,
    keys: &Guarded<DimKey, Inner>,
    place: u64,
    at: u64,
) -> Result<(), AllocError>
    ensures { OnOk result (BeginsOut table.old table.new (found_out (slice_get keys.now.rows place)) at) }
{
    match out_at(keys, place) {
        Some(key) => begin(table, key, at),
        None => Ok(()),
    }
}

// Admits the keys for which the rows at some places count, in order.
fn begin_outs(
    table: &mut Guarded<MetricKey, Span>,
    keys: &Guarded<DimKey, Inner>,
    places: &[u64],
    at: u64,
) -> Result<(), AllocError>
    ensures begins { OnOk result
        (BeginsAll table.old table.new [] (outs_at keys.now.rows places.now) at) }
    ensures keys { OnOk result (KeepsKeys table.old table.new) }
{
    for place in places {
        begin_out(table, keys, *place, at)?;
    }
    Ok(())
}

// Admits the keys for which inner keys count, in inner order.
fn begin_all(
    table: &mut Guarded<MetricKey, Span>,
    keys: &Guarded<DimKey, Inner>,
    at: u64,
) -> Result<(), AllocError>
    ensures begins { OnOk result
        (BeginsAll table.old table.new [] (flat_map row_out keys.now.rows) at) }
    ensures keys { OnOk result (KeepsKeys table.old table.new) }
{
    for place in 0..keys.len() {
        begin_out(table, keys, place as u64, at)?;
    }
    Ok(())
}

// Keeps the row of a span, or counts it; no time has none.
fn keep(
    kept: &mut KeptRows<Row<u64>>,
    start: u64,
    end: u64,
    key: MetricKey,
    span: Span,
) -> Result<(), AllocError>
    ensures { OnOk result (AddsRows row_weight kept.old kept.new (span_row start end (key, span))) }
{
    let value = step(end, false, span).sum;
    if value == 0 {
        return Ok(());
    }
    kept.put(Row {
        key,
        start,
        end,
        value,
    })
}

// Keeps the rows of all spans, in order, or counts them.
fn keep_all(
    kept: &mut KeptRows<Row<u64>>,
    start: u64,
    end: u64,
    spans: IntoIter<MetricKey, Span>,
) -> Result<(), AllocError>
    ensures { OnOk result
        (AddsRows row_weight kept.old kept.new (flat_map (span_row start end) spans)) }
{
    for (key, span) in spans {
        keep(kept, start, end, key, span)?;
    }
    Ok(())
}

// Keeps the rows of a full bucket in all of which the keys of a table are active, or counts them.
fn keep_bucket(
    kept: &mut KeptRows<Row<u64>>,
    table: &Guarded<MetricKey, Span>,
    start: u64,
    size: u64,
    alloc: Global,
) -> Result<(), AllocError>
    ensures { OnOk result (start + size < 2 ^ 63
        → AddsRows row_weight kept.old kept.new (map (whole_row start size) (keys table.now))) }
{
    let end = start.saturating_add(size);
    for place in 0..table.len() {
        let Some((key, _span)) = table.pair(place) else {
            return Ok(());
        };
        let row = Row {
            key: key.clone_key(alloc)?,
            start,
            end,
            value: size,
        };
        kept.put(row)?;
    }
    Ok(())
}

// Keeps the rows of the full buckets of a crossing. Where none fits any more the others are counted at once.
fn keep_full(
    kept: &mut KeptRows<Row<u64>>,
    table: &Guarded<MetricKey, Span>,
    crossings: &Crossings,
    alloc: Global,
) -> Result<(), AllocError>
    ensures { OnOk result (last_end crossings.now < 2 ^ 63 → AddsRows row_weight kept.old kept.new
        (whole_rows crossings.now.first_end crossings.now.size crossings.now.full_buckets (keys table.now))) }
{
    let active = table.len();
    if active == 0 {
        return Ok(());
    }
    let full = crossings.full_buckets;
    let mut start = crossings.first_end;
    for turn in 0..full {
        if kept.is_full() {
            kept.pass((full - turn).saturating_mul(active as u64));
            return Ok(());
        }
        keep_bucket(kept, table, start, crossings.size, alloc)?;
        start = start.saturating_add(crossings.size);
    }
    Ok(())
}
