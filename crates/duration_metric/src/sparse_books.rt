//! The books of a longest duration: the longest time of each key in the open part, and the rows of closed parts.
ghost use Rattle.std.specs.Prelude.{◌≡◌, ℕ, ◌≤◌, max, [], ◌∷◌, Some, slice_get, IfOk, OnOk, OnErr};
ghost use Rattle.std.specs.List.{flat_map};
ghost use Rattle.std.specs.Map.{values_of};
ghost use Rattle.bucket_meaning.specs.Limits.{most_keys};
ghost use Rattle.bucket_meaning.specs.Marks.{Ends, Came, Asked};
ghost use Rattle.dim_table.specs.Table.{with_value_at};
ghost use Rattle.kept_rows.specs.KeptRows.{AddsRows};
ghost use Rattle.metric_kinds.specs.Counts.{row_weight};
ghost use Rattle.metric_kinds.specs.Durations.{duration_row};
ghost use Rattle.duration_metric.specs.declared.sparse_keys.Turn.TheVariants.{OffAt};
ghost use Rattle.duration_metric.specs.SparseTimes.{time_rows, TakesTime};
ghost use Rattle.duration_metric.specs.SparseBooksStand.{AreNewSparse, TakesLongestMarks, ShowsLongest};
ghost use Rattle.duration_metric.specs.SparseEntries.{entry_marks, row_marks, turn_marks};

use crate::sparse_keys::{SparseEntry, Turn, leave, told_at};
use atom_record::{DimKey, MetricKey};
use dim_table::{Admit, Guarded};
use indexmap::map::IntoIter;
use kept_rows::KeptRows;
use metric_producer::{Closed, Row};
use std::alloc::{AllocError, Global};

/// The longest time of each key in the open part, the number of lost inner keys, and the kept rows.
#[derive(Drop)]
pub struct SparseBooks {
    pub(crate) start: u64,
    pub(crate) table: Guarded<MetricKey, u64>,
    pub(crate) lost: u64,
    pub(crate) kept: KeptRows<Row<u64>>,
}

impl SparseBooks {
    /// Of no times, in a part that begins at a time and admits so many keys.
    pub(crate) fn new(alloc: Global, start: u64, bound: usize) -> SparseBooks
        requires least_bound { 1 ≤ bound }
        requires most_bound { bound ≤ most_keys }
        ensures { AreNewSparse result start bound }
    {
        SparseBooks {
            start,
            table: Guarded::new(alloc, bound),
            lost: 0,
            kept: KeptRows::new(alloc),
        }
    }

    /// What an event makes of the inner keys is put down, where these are left.
    pub(crate) fn note(
        &mut self,
        keys: &Guarded<DimKey, SparseEntry>,
        turn: Turn,
    ) -> Result<(), AllocError>
        ensures { OnOk result (TakesLongestMarks self.old self.new (turn_marks keys.now.rows turn)) }
    {
        match turn {
            Turn::Stays => Ok(()),
            Turn::Lost => {
                self.lost = self.lost.saturating_add(1);
                Ok(())
            }
            Turn::Off(key, time) => admit(&mut self.table, key, time),
            Turn::OffAt(place, time) => self.note_at(keys, place, time),
        }
    }

    // The key at a place went off after a time.
    fn note_at(
        &mut self,
        keys: &Guarded<DimKey, SparseEntry>,
        place: usize,
        time: u64,
    ) -> Result<(), AllocError>
        ensures { OnOk result
            (TakesLongestMarks self.old self.new (turn_marks keys.now.rows (OffAt place time))) }
    {
        match told_at(keys, place) {
            Some(out) => admit_copy(&mut self.table, out, time),
            None => Ok(()),
        }
    }

    /// All inner keys went off at a time.
    pub(crate) fn note_all(
        &mut self,
        keys: &Guarded<DimKey, SparseEntry>,
        gone: IntoIter<DimKey, SparseEntry>,
        at: u64,
    ) -> Result<(), AllocError>
        ensures { OnOk result (TakesLongestMarks self.old self.new (flat_map (row_marks at) gone)) }
    {
        for (_key, entry) in gone {
            self.note(keys, leave(entry, at))?;
        }
        Ok(())
    }

    /// Closes the open part at a time, and opens the next.
    pub(crate) fn close(&mut self, end: u64) -> Result<(), AllocError>
        ensures { OnOk result (TakesLongestMarks self.old self.new (Ends end ∷ [])) }
    {
        let start = self.start;
        self.start = end;
        keep_all(&mut self.kept, start, end, self.table.move_out())
    }

    /// Hands out what a report shows. The open part goes on.
    pub(crate) fn take(&mut self) -> Closed<u64>
        ensures gives { ShowsLongest self.old result }
        ensures moves { TakesLongestMarks self.old self.new (Asked ∷ []) }
    {
        let (rows, not_kept) = self.kept.take();
        let dropped = self.table.take_dropped().saturating_add(self.lost);
        self.lost = 0;
        Closed {
            rows,
            not_kept,
            dropped,
            missing: 0,
        }
    }
}

// One more time of a key.
fn admit(table: &mut Guarded<MetricKey, u64>, key: MetricKey, time: u64) -> Result<(), AllocError>
    ensures { OnOk result (TakesTime table.old table.new key time) }
{
    match table.admit(key, 0)? {
        Admit::At(place) => lengthen(table, place, time),
        Admit::Full => (),
    }
    Ok(())
}

// One more time of a key, which is copied where it is new.
fn admit_copy(
    table: &mut Guarded<MetricKey, u64>,
    key: &MetricKey,
    time: u64,
) -> Result<(), AllocError>
    ensures { OnOk result (TakesTime table.old table.new key.now time) }
{
    match table.admit_copy(key, 0)? {
        Admit::At(place) => lengthen(table, place, time),
        Admit::Full => (),
    }
    Ok(())
}

// Puts a time beside those of the row at a place, of which the longest stays.
fn lengthen(table: &mut Guarded<MetricKey, u64>, place: usize, time: u64)
    ensures bound { table.new.bound ≡ table.old.bound }
    ensures longer { (most : ℕ) → slice_get (values_of table.old.rows) place ≡ Some most
        → table.new ≡ with_value_at table.old place (max most time) }
{
    if let Some(most) = table.value_at(place) {
        *most = (*most).max(time);
    }
}

// Keeps a row for each key and time, in order, or counts it; no time has none.
fn keep_all(
    kept: &mut KeptRows<Row<u64>>,
    start: u64,
    end: u64,
    times: IntoIter<MetricKey, u64>,
) -> Result<(), AllocError>
    ensures { OnOk result
        (AddsRows row_weight kept.old kept.new (flat_map (time_rows start end) times)) }
{
    for (key, time) in times {
        keep(kept, start, end, key, time)?;
    }
    Ok(())
}

// Keeps the row of a key that has a time, or counts it.
fn keep(
    kept: &mut KeptRows<Row<u64>>,
    start: u64,
    end: u64,
    key: MetricKey,
    value: u64,
) -> Result<(), AllocError>
    ensures { OnOk result
        (AddsRows row_weight kept.old kept.new (duration_row start end key value)) }
{
    if value == 0 {
        return Ok(());
    }
    let row = Row {
        key,
        start,
        end,
        value,
    };
    kept.put(row)
}
