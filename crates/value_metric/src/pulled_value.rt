//! Differences of pulled values between the ends of intervals, by key.
ghost use Rattle.std.specs.Prelude.{◌≡◌, ◌<◌, ◌≤◌, [], OnOk, IfOk, map, int_le, Some, if◌then◌else◌};
ghost use Rattle.std.specs.Option.{option_and_then, option_map};
ghost use Rattle.bucket_meaning.specs.Limits.{longest_bucket, time_limit, most_keys};
ghost use Rattle.bucket_meaning.specs.Marks.{Came};
ghost use Rattle.metric_kinds.specs.Diffs.{key_sums, start_sum, diff_by, growth, reset_diff, keyed_diff};
ghost use Rattle.value_metric.specs.PulledValues.{is_truth, keyed_ints};
ghost use Rattle.value_metric.specs.PulledStands.{PulledValueStandsFor};
ghost use Rattle.value_metric.specs.PulledSteps.{opened_before, opened_by, opened_again, ending_marks, ClosesPulled, Jumps};
ghost use Rattle.value_metric.specs.Sums.{sums_marks};
ghost use Rattle.value_metric.specs.ValueBooksStand.{TakesValueMarks};

use crate::key_sums::KeySums;
use crate::value_books::ValueBooks;
use crate::{Closed, KeyedInt, Producer, SnapInts};
use atom_record::MetricKey;
use bucket_clock::Crossings;
use config_types::{DiffSpec, Direction};
use predicate_state::Truth;
use sd_base::Seq;
use std::alloc::{AllocError, Global};
use std::mem;

/// The interval that is open, by where it began.
#[derive(Drop)]
pub enum Open {
    /// None is open.
    Nothing,
    /// At the last snapshot: nothing was pulled since.
    AtLast,
    /// At a snapshot before the last one, with its sums, or at none.
    Earlier(Option<KeySums>),
}

/// What the differences of one metric of pulled values give, by key.
#[derive(Drop)]
pub struct PulledValue {
    pub(crate) spec: DiffSpec,
    pub(crate) books: ValueBooks,
    pub(crate) last: Option<KeySums>,
    pub(crate) interval: Open,
}

impl PulledValue {
    /// Of no pulls. Time begins at `base`, a full bucket is `size` long, and a part admits `bound` keys. The first
    /// event tells the snapshot of that time, before any condition is told.
    pub fn new(alloc: Global, base: u64, size: u64, bound: usize, spec: DiffSpec) -> PulledValue
        requires base_fits { base < time_limit }
        requires least_size { 1 ≤ size }
        requires most_size { size ≤ longest_bucket }
        requires least_bound { 1 ≤ bound }
        requires most_bound { bound ≤ most_keys }
        ensures { PulledValueStandsFor result
            (record { base = base; size = size; bound = bound; spec = spec }) [] }
    {
        let _size = size;
        PulledValue {
            spec,
            books: ValueBooks::new(alloc, base, bound, spec.agg, spec.skip_zero),
            last: None,
            interval: Open::Nothing,
        }
    }

    // Another snapshot is the last one. An interval that began at the one before keeps its sums.
    fn take_last(&mut self, next: Option<KeySums>)
        ensures { self.new ≡ record self.old {
          last = next;
          interval = opened_before self.old.last self.old.interval;
        } }
    {
        let last = mem::replace(&mut self.last, next);
        if let Open::AtLast = &self.interval {
            self.interval = Open::Earlier(last);
        }
    }

    // An interval begins at the last snapshot, unless one is open.
    fn begin_interval(&mut self)
        ensures { self.new ≡ record self.old { interval = opened_by self.old.interval } }
    {
        if let Open::Nothing = &self.interval {
            self.interval = Open::AtLast;
        }
    }

    // The open interval, if there is one, ends at the last snapshot and gives its differences.
    fn end_interval(&mut self) -> Result<(), AllocError>
        ensures others { self.new ≡ record self.old { books = self.new.books } }
        ensures marks { OnOk result
            (TakesValueMarks self.old.books self.new.books (ending_marks self.old)) }
    {
        match &self.interval {
            Open::Nothing => Ok(()),
            Open::AtLast => give(&mut self.books, self.spec, &self.last, &self.last),
            Open::Earlier(starts) => give(&mut self.books, self.spec, starts, &self.last),
        }
    }

    // Closes the open part, and the next begins with the last snapshot.
    fn close(&mut self, end: u64) -> Result<(), AllocError>
        ensures { OnOk result (ClosesPulled self.old self.new end) }
    {
        self.end_interval()?;
        self.books.close(end)?;
        self.reopen();
        Ok(())
    }

    // An interval that is open begins anew.
    fn reopen(&mut self)
        ensures { self.new ≡ record self.old { interval = opened_again self.old.interval } }
    {
        if let Open::Earlier(_) = &self.interval {
            self.interval = Open::AtLast;
        }
    }

    // Closes so many full buckets in which nothing happens, if there are any.
    fn jump(&mut self, size: u64, number: u64) -> Result<(), AllocError>
        ensures { OnOk result (Jumps self.old self.new size number) }
    {
        if number == 0 {
            return Ok(());
        }
        let since = self.books.counts();
        self.end_interval()?;
        self.books.close_again(since, size, number)
    }
}

impl Producer for PulledValue {
    ghost use Rattle.std.specs.Prelude.{ℤ};
    ghost use Rattle.atom_record.specs.declared.value.MetricKey.{MetricKey};
    ghost use Rattle.value_metric.specs.PulledValues.{PulledValueParams};
    ghost use Rattle.value_metric.specs.PulledStands.{pulled_law};

    type Event = SnapInts;

    type After = Truth;

    type Value = i64;

    ghost Params = { PulledValueParams };

    ghost What = { MetricKey × ℤ };

    ghost Key = { MetricKey };

    ghost Share = { ℤ };

    ghost law = { pulled_law };

    fn event(&mut self, at: u64, ev: SnapInts) -> Result<(), AllocError> {
        let _at = at;
        let next = sums_of(self.books.alloc, ev.found)?;
        self.take_last(next);
        Ok(())
    }

    fn condition(&mut self, at: u64, now: Truth) -> Result<(), AllocError> {
        let _at = at;
        if is_true(now) {
            self.begin_interval();
            return Ok(());
        }
        self.end_interval()?;
        self.interval = Open::Nothing;
        Ok(())
    }

    fn cross(&mut self, crossings: Crossings) -> Result<(), AllocError> {
        self.close(crossings.first_end)?;
        self.jump(crossings.size, crossings.full_buckets)
    }

    fn cut(&mut self, at: u64) -> Result<(), AllocError> {
        self.close(at)
    }

    fn take(&mut self) -> Closed<i64> {
        self.books.take()
    }
}

// Whether a condition is true; not to know isn't enough.
fn is_true(now: Truth) -> bool
    ensures { result ≡ is_truth now }
{
    match now {
        Truth::True => true,
        Truth::False | Truth::Unknown => false,
    }
}

// The sums of a snapshot, if there is one.
fn sums_of(alloc: Global, found: Option<Seq<KeyedInt>>) -> Result<Option<KeySums>, AllocError>
    ensures { IfOk result (λ sums. sums ≡ option_map key_sums (option_map keyed_ints found)) }
{
    let Some(integers) = found else {
        return Ok(None);
    };
    let sums = KeySums::of(alloc, integers)?;
    Ok(Some(sums))
}

// What an interval gives that began and ended with these sums.
fn give(
    books: &mut ValueBooks,
    spec: DiffSpec,
    starts: &Option<KeySums>,
    ends: &Option<KeySums>,
) -> Result<(), AllocError>
    ensures { OnOk result (TakesValueMarks books.old books.new (sums_marks spec starts.now ends.now)) }
{
    match (starts, ends) {
        (Some(starts), Some(ends)) => arrive_all(books, spec, starts, ends),
        _ => {
            books.miss();
            Ok(())
        }
    }
}

// The difference of each key of the end arrives, if it has one.
fn arrive_all(
    books: &mut ValueBooks,
    spec: DiffSpec,
    starts: &KeySums,
    ends: &KeySums,
) -> Result<(), AllocError>
    ensures { OnOk result (TakesValueMarks books.old books.new
        (sums_marks spec (Some starts.now) (Some ends.now))) }
{
    for place in 0..ends.len() {
        let Some((key, end)) = ends.at(place) else {
            return Ok(());
        };
        let diff = diff_of(spec, starts.sum_near(place, key), end);
        arrive(books, key, diff)?;
    }
    Ok(())
}

// A key's difference arrives, if there is one.
fn arrive(books: &mut ValueBooks, key: &MetricKey, diff: Option<i128>) -> Result<(), AllocError>
    ensures { OnOk result (TakesValueMarks books.old books.new (map Came (keyed_diff key.now diff))) }
{
    let Some(diff) = diff else {
        return Ok(());
    };
    books.arrive(key, diff)
}

// The difference of a key with these sums, or none.
fn diff_of(spec: DiffSpec, start: Option<i128>, end: i128) -> Option<i128>
    ensures { result ≡ option_and_then (λ from. diff_by spec.direction spec.abs_reset from end)
        (start_sum spec.zero_base start) }
{
    let Some(start) = start_of(spec.zero_base, start) else {
        return None;
    };
    match spec.direction {
        Direction::Increasing => rise(spec.abs_reset, start, end, end),
        Direction::Decreasing => rise(spec.abs_reset, end, start, end),
        Direction::Any => Some(end.saturating_sub(start)),
    }
}

// The sum with which a key began, or none.
fn start_of(zero_base: bool, start: Option<i128>) -> Option<i128>
    ensures { result ≡ start_sum zero_base start }
{
    match start {
        Some(sum) => Some(sum),
        None => { if zero_base { Some(0) } else { None } }
    }
}

// How far it is from one integer up to another, or after a reset the sum at the end, if that counts.
fn rise(abs_reset: bool, low: i128, high: i128, end: i128) -> Option<i128>
    ensures { result
        ≡ (if int_le low high then Some (growth low high) else reset_diff abs_reset end) }
{
    if low <= high {
        return Some(high.saturating_sub(low));
    }
    if abs_reset {
        return Some(end);
    }
    None
}
