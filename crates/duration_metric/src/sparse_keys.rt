//! The inner keys of a longest duration: which are on, what was told of them, and for how long they have had a true
//! condition.
ghost use Rattle.std.specs.Prelude.{◌≡◌, ◌≤◌, List, Some, None, position, slice_get, IfOk, option_to_list};
ghost use Rattle.std.specs.List.{flat_map};
ghost use Rattle.std.specs.Map.{values_of};
ghost use Rattle.std.specs.Option.{option_copied};
ghost use Rattle.bucket_meaning.specs.Limits.{most_keys};
ghost use Rattle.dim_table.specs.Table.{keys, with_value_at};
ghost use Rattle.predicate_state.specs.declared.event.PredEvent.TheVariants as events;
ghost use Rattle.predicate_state.specs.PredicateTable.{LeafKey, same_leaves};
ghost use Rattle.duration_metric.specs.InnerKeys.{known_by};
ghost use Rattle.duration_metric.specs.SparseCalls.{is_told_timed};
ghost use Rattle.duration_metric.specs.SparseEntries.{saved_time, found_told, entry_marks, row_marks, turn_marks, started_entry, told_entry, IsOfNoCalls, ListsKey, TakesKeyEvent, LearnsDelta};
ghost use Rattle.duration_metric.specs.Tallies.{known_key};
ghost use Rattle.duration_metric.specs.declared.sparse_keys.SparseEntry.{SparseEntry};

use crate::inner::{Known, add_start, add_stop};
use crate::{InnerChange, InnerDelta};
use atom_record::{DimKey, MetricKey};
use config_types::PredSpec;
use dim_table::{Admit, Guarded};
use indexmap::map::IntoIter;
use predicate_state::Truth;
use std::alloc::{AllocError, Global};

/// What is known of one inner key.
#[derive(Drop)]
pub struct SparseEntry {
    /// How many starts no stop has met.
    pub(crate) count: u64,
    /// What was told last of it.
    pub(crate) known: Option<Known>,
    /// For how long its condition was true before `since`.
    pub(crate) time: u64,
    pub(crate) since: u64,
}

/// What an event makes of the inner keys.
#[derive(Drop)]
pub enum Turn {
    /// No key goes off.
    Stays,
    /// A new key found no room.
    Lost,
    /// A key leaves that counted for this key, after this time.
    Off(MetricKey, u64),
    /// The key at this place goes off after this time, and stays listed.
    OffAt(usize, u64),
}

/// The inner keys.
#[derive(Drop)]
pub struct SparseKeys {
    pub(crate) spec: PredSpec,
    pub(crate) unknown: bool,
    pub(crate) table: Guarded<DimKey, SparseEntry>,
}

impl SparseKeys {
    /// Of no events.
    pub(crate) fn new(alloc: Global, spec: PredSpec) -> SparseKeys
        requires least { 1 ≤ spec.bound }
        requires most { spec.bound ≤ most_keys }
        ensures { IsOfNoCalls result spec }
    {
        SparseKeys {
            spec,
            unknown: spec.unknown,
            table: Guarded::new(alloc, spec.bound as usize),
        }
    }

    /// A key is started once more.
    pub(crate) fn start(&mut self, at: u64, key: &DimKey) -> Result<Turn, AllocError>
        ensures { IfOk result (λ turn. TakesKeyEvent self.old self.new at
            (record { event = events.Start; key = key.now }) (turn_marks self.new.table.rows turn)) }
    {
        let Some(place) = self.table.place_of(key) else {
            return self.append(key, 1, at);
        };
        start_at(&mut self.table, self.spec.nesting, place, at);
        Ok(Turn::Stays)
    }

    /// A key is stopped once.
    pub(crate) fn stop(&mut self, at: u64, key: &DimKey) -> Result<Turn, AllocError>
        ensures { IfOk result (λ turn. TakesKeyEvent self.old self.new at
            (record { event = events.Stop; key = key.now }) (turn_marks self.new.table.rows turn)) }
    {
        let Some(place) = self.table.place_of(key) else {
            return self.stop_absent(at, key);
        };
        let Some((_key, entry)) = self.table.pair(place) else {
            return Ok(Turn::Stays);
        };
        let less = add_stop(self.spec.nesting, entry.count);
        if less > 0 {
            set_count(&mut self.table, place, less);
            return Ok(Turn::Stays);
        }
        if self.unknown {
            let turn = turn_off(entry, place, at);
            set_count(&mut self.table, place, 0);
            return Ok(turn);
        }
        let Some(gone) = self.table.remove(key) else {
            return Ok(Turn::Stays);
        };
        Ok(leave(gone, at))
    }

    /// Stops every key for good. The answer is all keys that were listed.
    pub(crate) fn stop_all(&mut self, at: u64, key: &DimKey) -> IntoIter<DimKey, SparseEntry>
        ensures { TakesKeyEvent self.old self.new at (record { event = events.StopAll; key = key.now })
            (flat_map (row_marks at) result) }
    {
        let _at = at;
        let _key = key;
        self.unknown = false;
        self.table.move_out()
    }

    /// Learns what changed.
    pub(crate) fn learn(&mut self, at: u64, now: InnerDelta)
        ensures { LearnsDelta self.old self.new at now }
    {
        for change in now.changes.into_vec() {
            tell(&mut self.table, at, change);
        }
    }

    // A stop of a key that isn't listed, which matters only where it might have been started before.
    fn stop_absent(&mut self, at: u64, key: &DimKey) -> Result<Turn, AllocError>
        requires absent { position (same_leaves key.now) (keys self.old.table) ≡ None }
        ensures { IfOk result (λ turn. TakesKeyEvent self.old self.new at
            (record { event = events.Stop; key = key.now }) (turn_marks self.new.table.rows turn)) }
    {
        if !self.unknown {
            return Ok(Turn::Stays);
        }
        self.append(key, 0, at)
    }

    // Lists a copy of a new key, or says that it found no room.
    fn append(&mut self, key: &DimKey, count: u64, at: u64) -> Result<Turn, AllocError>
        requires absent { position (same_leaves key.now) (keys self.old.table) ≡ None }
        ensures { IfOk result
            (λ turn. ListsKey self.old self.new at key.now count (turn_marks self.new.table.rows turn)) }
    {
        let entry = SparseEntry {
            count,
            known: None,
            time: 0,
            since: at,
        };
        let before = self.table.dropped();
        self.table.admit_copy(key, entry)?;
        if self.table.dropped() > before {
            return Ok(Turn::Lost);
        }
        Ok(Turn::Stays)
    }
}

// Counts one more start in the row at a place.
fn start_at(table: &mut Guarded<DimKey, SparseEntry>, nesting: bool, place: usize, at: u64)
    ensures { (entry : SparseEntry) → slice_get (values_of table.old.rows) place ≡ Some entry
        → table.new ≡ with_value_at table.old place (started_entry nesting at entry) }
{
    if let Some(entry) = table.value_at(place) {
        start_entry(entry, nesting, at);
    }
}

// Counts one more start. A key that was off begins anew.
fn start_entry(entry: &mut SparseEntry, nesting: bool, at: u64)
    ensures { entry.new ≡ started_entry nesting at entry.old }
{
    if entry.count == 0 {
        entry.time = 0;
        entry.since = at;
    }
    entry.count = add_start(nesting, entry.count);
}

// Gives the row at a place another count.
fn set_count(table: &mut Guarded<DimKey, SparseEntry>, place: usize, count: u64)
    ensures { (entry : SparseEntry) → slice_get (values_of table.old.rows) place ≡ Some entry
        → table.new ≡ with_value_at table.old place (record entry { count = count }) }
{
    if let Some(entry) = table.value_at(place) {
        entry.count = count;
    }
}

// Puts what is told of a key into the row at its place, if there is one.
fn tell(table: &mut Guarded<DimKey, SparseEntry>, at: u64, change: InnerChange)
    ensures there { (entry : SparseEntry) → slice_get (values_of table.old.rows) change.place ≡ Some entry
        → table.new ≡ with_value_at table.old change.place (told_entry at (known_by change) entry) }
    ensures none { slice_get (values_of table.old.rows) change.place ≡ None → table.new ≡ table.old }
{
    if let Some(entry) = table.value_at(change.place as usize) {
        tell_entry(
            entry,
            at,
            Known {
                truth: change.truth,
                out: change.out,
            },
        );
    }
}

// Puts what is told of a key into its entry. What its condition was before counts up to now.
fn tell_entry(entry: &mut SparseEntry, at: u64, known: Known)
    ensures { entry.new ≡ told_entry at known entry.old }
{
    entry.time = time_of(entry, at);
    entry.since = at;
    entry.known = Some(known);
}

// The time of an entry up to an end.
fn time_of(entry: &SparseEntry, end: u64) -> u64
    ensures { result ≡ saved_time entry.now end }
{
    if is_timed_now(&entry.known) {
        return entry.time.saturating_add(end.saturating_sub(entry.since));
    }
    entry.time
}

// Whether a condition was told that is true.
fn is_timed_now(known: &Option<Known>) -> bool
    ensures { result ≡ is_told_timed known.now }
{
    match known {
        Some(known) => known.truth == Truth::True,
        None => false,
    }
}

// What becomes of an entry whose key leaves.
pub(crate) fn leave(entry: SparseEntry, at: u64) -> Turn
    ensures { (rows : List (LeafKey × SparseEntry)) → turn_marks rows result ≡ entry_marks at entry }
{
    let time = time_of(&entry, at);
    if entry.count == 0 {
        return Turn::Stays;
    }
    match entry.known {
        Some(known) => Turn::Off(known.out, time),
        None => Turn::Stays,
    }
}

// What becomes of the entry at a place whose key goes off and stays listed.
fn turn_off(entry: &SparseEntry, place: usize, at: u64) -> Turn
    ensures { (rows : List (LeafKey × SparseEntry)) → found_told (slice_get rows place) ≡ known_key entry.now.known
        → turn_marks rows result ≡ entry_marks at entry.now }
{
    if entry.count == 0 {
        return Turn::Stays;
    }
    Turn::OffAt(place, time_of(entry, at))
}

/// The output key that was told of the key at a place.
pub(crate) fn told_at(table: &Guarded<DimKey, SparseEntry>, place: usize) -> Option<&MetricKey>
    ensures { option_to_list (option_copied result) ≡ found_told (slice_get table.now.rows place) }
{
    let (_key, entry) = table.pair(place)?;
    let Some(known) = &entry.known else {
        return None;
    };
    Some(&known.out)
}
