//! The books of a metric of values: what the integers of the open part give, by key, and the rows of closed parts.
ghost use Rattle.std.specs.Prelude.{◌≡◌, ◌+◌, ◌*◌, ◌<◌, ◌≤◌, ℕ, OnOk, OnErr, IfOk};
ghost use Rattle.bucket_meaning.specs.Kept.{count_in_u64};
ghost use Rattle.bucket_meaning.specs.Limits.{most_keys, time_limit};
ghost use Rattle.bucket_meaning.specs.Marks.{Ends, Came, Missed, Asked};
ghost use Rattle.kept_rows.specs.KeptRows.{AddsRows};
ghost use Rattle.metric_kinds.specs.Values.{unless_hidden};
ghost use Rattle.value_metric.specs.Totals.{joined_to, JoinsAt, shown_total, part_rows, bucket_rows, row_weighs, AddsCounted, TakesInteger};
ghost use Rattle.value_metric.specs.ValueBooksStand.{AreNewBooks, TakesMark, ShowsTotals, ClosesAgain};

use atom_record::MetricKey;
use config_types::Aggregation;
use dim_table::{Admit, Guarded};
use indexmap::map::IntoIter;
use kept_rows::KeptRows;
use metric_producer::{Closed, Row};
use sd_base::Duplicate;
use std::alloc::{AllocError, Global};
use std::mem;

/// What the integers of each key give in the open part, the kept rows, and what was missed.
#[derive(Drop)]
pub struct ValueBooks {
    pub(crate) start: u64,
    pub(crate) aggregation: Aggregation,
    pub(crate) hides_zeros: bool,
    pub(crate) table: Guarded<MetricKey, Option<i128>>,
    pub(crate) kept: KeptRows<Row<i64>>,
    pub(crate) missing: u64,
    pub(crate) alloc: Global,
}

/// How much was dropped and missed at some moment.
#[derive(Clone, Copy)]
pub struct Counts {
    pub(crate) dropped: u64,
    pub(crate) missing: u64,
}

impl ValueBooks {
    /// Of no integers, in a part that begins at a time and admits so many keys.
    pub(crate) fn new(
        alloc: Global,
        start: u64,
        bound: usize,
        aggregation: Aggregation,
        hides_zeros: bool,
    ) -> ValueBooks
        requires least_bound { 1 ≤ bound }
        requires most_bound { bound ≤ most_keys }
        ensures { AreNewBooks result start
            (record { bound = bound; aggregation = aggregation; hides_zeros = hides_zeros }) }
    {
        ValueBooks {
            start,
            aggregation,
            hides_zeros,
            table: Guarded::new(alloc, bound),
            kept: KeptRows::new(alloc),
            missing: 0,
            alloc,
        }
    }

    /// An integer of a key arrives.
    pub(crate) fn arrive(&mut self, key: &MetricKey, integer: i128) -> Result<(), AllocError>
        ensures { OnOk result (TakesMark self.old self.new (Came (key.now, integer))) }
    {
        admit(&mut self.table, self.aggregation, key, integer)
    }

    /// A snapshot was wanted, and there was none.
    pub(crate) fn miss(&mut self)
        ensures { TakesMark self.old self.new Missed }
    {
        self.missing = self.missing.saturating_add(1);
    }

    /// Closes the open part at a time, and opens the next.
    pub(crate) fn close(&mut self, end: u64) -> Result<(), AllocError>
        ensures { OnOk result (TakesMark self.old self.new (Ends end)) }
    {
        let start = self.start;
        self.start = end;
        keep_all(
            &mut self.kept,
            self.hides_zeros,
            start,
            end,
            self.table.move_out(),
        )
    }

    /// How much was dropped and missed so far.
    pub(crate) fn counts(&self) -> Counts
        ensures dropped { result.dropped ≡ self.now.table.dropped }
        ensures missing { result.missing ≡ self.now.missing }
    {
        Counts {
            dropped: self.table.dropped(),
            missing: self.missing,
        }
    }

    /// Closes so many full buckets, of which the open part is the first. In each of them the same comes, is dropped and
    /// is missed as in the open part so far, at whose beginning the counts were these.
    pub(crate) fn close_again(
        &mut self,
        since: Counts,
        size: u64,
        number: u64,
    ) -> Result<(), AllocError>
        requires some { 1 ≤ number }
        ensures { OnOk result (ClosesAgain self.old self.new since size number) }
    {
        let buckets = Buckets {
            start: self.start,
            size,
            number,
            hides_zeros: self.hides_zeros,
        };
        keep_full(self.alloc, &mut self.kept, buckets, &self.table)?;
        let full = number.saturating_mul(size);
        self.start = self.start.saturating_add(full);
        self.missing = as_often(since.missing, self.missing, number);
        let dropped = as_often(since.dropped, self.table.dropped(), number);
        self.table = Guarded::restore(self.alloc, self.table.bound(), dropped);
        Ok(())
    }

    /// Hands out what a report shows. The open part goes on.
    pub(crate) fn take(&mut self) -> Closed<i64>
        ensures gives { ShowsTotals self.old result }
        ensures moves { TakesMark self.old self.new Asked }
    {
        let (rows, not_kept) = self.kept.take();
        Closed {
            rows,
            not_kept,
            dropped: self.table.take_dropped(),
            missing: mem::replace(&mut self.missing, 0),
        }
    }
}

/// Full buckets one after the other: where the first begins, how long each is, how many there are, and whether rows of
/// 0 are hidden.
#[derive(Clone, Copy)]
struct Buckets {
    start: u64,
    size: u64,
    number: u64,
    hides_zeros: bool,
}

// Keeps the rows of the same totals in each of these buckets, or counts them.
fn keep_full(
    alloc: Global,
    kept: &mut KeptRows<Row<i64>>,
    buckets: Buckets,
    table: &Guarded<MetricKey, Option<i128>>,
) -> Result<(), AllocError>
    requires some { 1 ≤ buckets.number }
    ensures { OnOk result (buckets.start + buckets.number * buckets.size < time_limit
        → AddsRows row_weighs kept.old kept.new (bucket_rows buckets.hides_zeros table.now.rows
        buckets.size buckets.start buckets.number)) }
{
    let number = buckets.number;
    let first = Part {
        start: buckets.start,
        end: buckets.start.saturating_add(buckets.size),
        hides_zeros: buckets.hides_zeros,
    };
    let rows = keep_copies(alloc, kept, first, table)?;
    if rows == 0 {
        return Ok(());
    }
    let mut end = first.end;
    for turn in 1..number {
        if kept.is_full() {
            kept.pass((number - turn).saturating_mul(rows));
            return Ok(());
        }
        let next = Part {
            start: end,
            end: end.saturating_add(buckets.size),
            hides_zeros: buckets.hides_zeros,
        };
        keep_copies(alloc, kept, next, table)?;
        end = next.end;
    }
    Ok(())
}

/// A part whose rows are to be kept: where it begins and ends, and whether rows of 0 are hidden.
#[derive(Clone, Copy)]
struct Part {
    start: u64,
    end: u64,
    hides_zeros: bool,
}

// Keeps a copy of the row of each key and total, in order, or counts it; the answer is how many rows those are.
fn keep_copies(
    alloc: Global,
    kept: &mut KeptRows<Row<i64>>,
    part: Part,
    table: &Guarded<MetricKey, Option<i128>>,
) -> Result<u64, AllocError>
    ensures { IfOk result (λ n. AddsCounted kept.old kept.new n
        (part_rows part.hides_zeros part.start part.end table.now.rows)) }
{
    let mut rows = 0;
    for place in 0..table.len() {
        let Some((key, total)) = table.pair(place) else {
            return Ok(rows);
        };
        let row = Row {
            key: key.duplicate(alloc)?,
            start: part.start,
            end: part.end,
            value: shown(*total),
        };
        let more = keep(kept, part.hides_zeros, row)?;
        rows += more;
    }
    Ok(rows)
}

// A count that rose in the first of so many buckets from one number to another, once it rose as much in each.
fn as_often(before: u64, after: u64, number: u64) -> u64
    requires some { 1 ≤ number }
    ensures { (count more : ℕ) → before ≡ count_in_u64 count → after ≡ count_in_u64 (count + more)
        → result ≡ count_in_u64 (count + number * more) }
{
    let more = after.saturating_sub(before);
    after.saturating_add((number - 1).saturating_mul(more))
}

// One more integer of a key, which is copied where it is new.
fn admit(
    table: &mut Guarded<MetricKey, Option<i128>>,
    aggregation: Aggregation,
    key: &MetricKey,
    integer: i128,
) -> Result<(), AllocError>
    ensures taken { OnOk result (TakesInteger aggregation table.old table.new key.now integer) }
    ensures err { OnErr result (table.new ≡ table.old) }
{
    match table.admit_copy(key, None)? {
        Admit::At(place) => add(table, aggregation, place, integer),
        Admit::Full => (),
    }
    Ok(())
}

// Joins an integer to those of the row at a place.
fn add(
    table: &mut Guarded<MetricKey, Option<i128>>,
    aggregation: Aggregation,
    place: usize,
    integer: i128,
)
    ensures bound { table.new.bound ≡ table.old.bound }
    ensures joined { JoinsAt aggregation place integer table.old table.new }
{
    if let Some(total) = table.value_at(place) {
        *total = Some(join(aggregation, *total, integer));
    }
}

// What an integer gives with those before it.
fn join(aggregation: Aggregation, total: Option<i128>, integer: i128) -> i128
    ensures { result ≡ joined_to aggregation total integer }
{
    let Some(total) = total else {
        return integer;
    };
    match aggregation {
        Aggregation::Sum => total.saturating_add(integer),
        Aggregation::Min => total.min(integer),
        Aggregation::Max => total.max(integer),
    }
}

// What a row shows of a total.
fn shown(total: Option<i128>) -> i64
    ensures { result ≡ shown_total total }
{
    let whole = total.unwrap_or(0);
    whole.clamp(i64::MIN as i128, i64::MAX as i128) as i64
}

// Keeps a row for each key and total, in order, or counts it; one of 0 may be hidden.
fn keep_all(
    kept: &mut KeptRows<Row<i64>>,
    hides_zeros: bool,
    start: u64,
    end: u64,
    totals: IntoIter<MetricKey, Option<i128>>,
) -> Result<(), AllocError>
    ensures { OnOk result
        (AddsRows row_weighs kept.old kept.new (part_rows hides_zeros start end totals)) }
{
    for (key, total) in totals {
        let row = Row {
            key,
            start,
            end,
            value: shown(total),
        };
        keep(kept, hides_zeros, row)?;
    }
    Ok(())
}

// Keeps a row that isn't hidden, or counts it; the answer is how many rows that is.
fn keep(kept: &mut KeptRows<Row<i64>>, hides_zeros: bool, row: Row<i64>) -> Result<u64, AllocError>
    ensures { IfOk result (λ n. AddsCounted kept.old kept.new n (unless_hidden hides_zeros row)) }
{
    if hides_zeros && row.value == 0 {
        return Ok(0);
    }
    kept.put(row)?;
    Ok(1)
}
