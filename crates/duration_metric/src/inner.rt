//! The inner keys of a metric of durations: which are listed, how often each was started, and what was told of each.
ghost use Rattle.std.specs.Prelude.{◌≡◌, ◌<◌, ◌≤◌, ◌++◌, List, [], length, position, slice_get, OnOk, Contains, None, IfSome, option_to_list};
ghost use Rattle.std.specs.Map.{keys_of, lookup};
ghost use Rattle.std.specs.List.{flat_map};
ghost use Rattle.std.specs.Option.{option_map, option_copied, option_and_then};
ghost use Rattle.bucket_meaning.specs.Limits.{most_keys};
ghost use Rattle.config_types.specs.declared.parameters.PredSpec.{PredSpec};
ghost use Rattle.dim_table.specs.Table.{keys};
ghost use Rattle.predicate_state.specs.declared.event.PredEvent.TheVariants.{Start, Stop, StopAll};
ghost use Rattle.predicate_state.specs.PredicateStates.{count_after_start, count_after_stop, without_key, state_after_stop_all};
ghost use Rattle.predicate_state.specs.PredicateTable.{LeafKey, same_leaves};
ghost use Rattle.duration_metric.specs.InnerKeys.{DurationCall, says, inner_keys, told_truth, was_told};
ghost use Rattle.duration_metric.specs.InnerStands.{state_in, InnersStandFor, ChangesTo, ActsOn, SetsCount, ListsKey, TakesEvent, TakesDelta, TellsOne, TellsAll};
ghost use Rattle.duration_metric.specs.Tallies.{freed_key, left_key, row_tallied, IsSettled, AreSteady, KeepsCounts, KeepsSteady};

use crate::{InnerChange, InnerDelta, InnerEvent};
use atom_record::{DimKey, MetricKey};
use config_types::PredSpec;
use dim_table::Guarded;
use indexmap::map::IntoIter;
use predicate_state::{PredEvent, Truth};
use sd_base::Seq;
use std::alloc::{AllocError, Global};
use std::mem;

/// What was told last of an inner key.
#[derive(Drop)]
pub(crate) struct Known {
    pub(crate) truth: Truth,
    pub(crate) out: MetricKey,
}

/// An inner key that is listed.
#[derive(Drop)]
pub(crate) struct Inner {
    /// The number of starts that no stop has met.
    pub(crate) count: u64,
    pub(crate) known: Option<Known>,
    /// Whether the tally of active keys counts it, for the output key that was told.
    pub(crate) tallied: bool,
}

/// The inner keys in order, up to a bound.
#[derive(Drop)]
pub(crate) struct InnerTable {
    /// Whether starts are counted, so that as many stops end them.
    pub(crate) nesting: bool,
    /// Whether keys that aren't listed are unknown.
    pub(crate) unknown: bool,
    pub(crate) keys: Guarded<DimKey, Inner>,
    /// The places of keys that changed since the tally was right. None of them leaves before it is right again.
    pub(crate) touched: Seq<u64>,
    /// The output keys of inner keys that the tally counts still.
    pub(crate) gone: Seq<MetricKey>,
}

impl InnerTable {
    /// Of no calls.
    pub(crate) fn new(alloc: Global, spec: PredSpec) -> InnerTable
        requires least { 1 ≤ spec.bound }
        requires most { spec.bound ≤ most_keys }
        ensures stands { InnersStandFor result spec [] }
        ensures settled { IsSettled result }
        ensures empty { result.keys.rows ≡ [] }
    {
        InnerTable {
            nesting: spec.nesting,
            unknown: spec.unknown,
            keys: Guarded::new(alloc, spec.bound as usize),
            touched: Seq::new(alloc),
            gone: Seq::new(alloc),
        }
    }

    /// Lets an event act on its key.
    pub(crate) fn act(&mut self, ev: &InnerEvent) -> Result<(), AllocError>
        ensures calls { OnOk result (TakesEvent self.old self.new ev.now) }
        ensures counts { OnOk result (KeepsCounts self.old self.new) }
        ensures steady { OnOk result (KeepsSteady self.old self.new) }
    {
        self.apply(ev.event, &ev.key)
    }

    // Lets an event act on a key.
    fn apply(&mut self, event: PredEvent, key: &DimKey) -> Result<(), AllocError>
        ensures { OnOk result (ActsOn self.old self.new event key.now) }
    {
        match event {
            PredEvent::Start => self.start(key),
            PredEvent::Stop => self.stop(key),
            PredEvent::StopAll => self.stop_all(),
        }
    }

    // No key is listed any more, and none is unknown.
    fn stop_all(&mut self) -> Result<(), AllocError>
        ensures { OnOk result
            (ChangesTo self.old self.new (state_after_stop_all (state_in self.old))) }
    {
        self.unknown = false;
        let rows = self.keys.move_out();
        self.leave_all(rows)
    }

    // The output keys of keys that left are put down.
    fn leave_all(&mut self, rows: IntoIter<DimKey, Inner>) -> Result<(), AllocError>
        ensures { OnOk result
            (self.new ≡ record self.old { gone = self.old.gone ++ flat_map row_tallied rows }) }
    {
        for (_key, inner) in rows {
            self.leave(freed(inner.tallied, inner.known))?;
        }
        Ok(())
    }

    // The output key of a key that left is put down, if the tally counts for it.
    fn leave(&mut self, out: Option<MetricKey>) -> Result<(), AllocError>
        ensures { OnOk result
            (self.new ≡ record self.old { gone = self.old.gone ++ option_to_list out }) }
    {
        let Some(out) = out else {
            return Ok(());
        };
        self.gone.push(out)
    }

    // Counts a start of a key.
    fn start(&mut self, key: &DimKey) -> Result<(), AllocError>
        ensures { OnOk result (ActsOn self.old self.new Start key.now) }
    {
        match self.row_of(key) {
            Some((place, count)) => {
                let more = add_start(self.nesting, count);
                // A key that stays as it was isn't looked at again.
                if more == count {
                    return Ok(());
                }
                self.set_count(place, more)
            }
            None => self.append(key, 1),
        }
    }

    // Counts a stop of a key.
    fn stop(&mut self, key: &DimKey) -> Result<(), AllocError>
        ensures { OnOk result (ActsOn self.old self.new Stop key.now) }
    {
        match self.row_of(key) {
            Some((place, count)) => {
                let less = add_stop(self.nesting, count);
                if less == 0 && !self.unknown {
                    return self.remove(key);
                }
                self.set_count(place, less)
            }
            None => {
                if !self.unknown {
                    return Ok(());
                }
                self.append(key, 0)
            }
        }
    }

    // Takes a key out; those after it move up.
    fn remove(&mut self, key: &DimKey) -> Result<(), AllocError>
        ensures { OnOk result
            (ChangesTo self.old self.new (without_key same_leaves (state_in self.old) key.now)) }
    {
        // The keys are distinct, so that one row leaves.
        let _len = self.keys.len();
        let out = left(self.keys.remove(key));
        self.leave(out)
    }

    // The place of a listed key, and its count.
    fn row_of(&self, key: &DimKey) -> Option<(usize, u64)>
        ensures count { option_map (λ row. row.1) result
            ≡ lookup (same_leaves key.now) (state_in self.now).counts }
        ensures place { IfSome result
            (λ row. position (same_leaves key.now) (keys_of (state_in self.now).counts) ≡ Some row.0) }
        ensures absent { result ≡ None → ¬ Contains (keys self.now.keys) key.now }
    {
        let place = self.keys.place_of(key)?;
        let (_key, inner) = self.keys.pair(place)?;
        Some((place, inner.count))
    }

    // Gives the key at a place another count.
    fn set_count(&mut self, place: usize, count: u64) -> Result<(), AllocError>
        requires { place < length (state_in self.old).counts }
        ensures { OnOk result (SetsCount self.old self.new place count) }
    {
        let Some(inner) = self.keys.value_at(place) else {
            return Ok(());
        };
        inner.count = count;
        self.touched.push(place as u64)
    }

    // Lists a copy of a new key, or counts that it finds no room.
    fn append(&mut self, key: &DimKey, count: u64) -> Result<(), AllocError>
        requires absent { ¬ Contains (keys self.old.keys) key.now }
        ensures { OnOk result (ListsKey self.old self.new key.now count) }
    {
        let inner = Inner {
            count,
            known: None,
            tallied: false,
        };
        self.keys.admit_copy(key, inner)?;
        Ok(())
    }

    /// Learns what changed.
    pub(crate) fn tell(&mut self, delta: InnerDelta) -> Result<(), AllocError>
        ensures calls { OnOk result (TakesDelta self.old self.new delta) }
        ensures counts { OnOk result (KeepsCounts self.old self.new) }
        ensures steady { OnOk result (AreSteady self.old.touched self.old.keys.rows
            → AreSteady self.new.touched self.new.keys.rows) }
    {
        self.tell_all(delta.changes)
    }

    // Learns all changes, one after the other.
    fn tell_all(&mut self, changes: Seq<InnerChange>) -> Result<(), AllocError>
        ensures { OnOk result (TellsAll self.old self.new changes) }
    {
        // The keys are distinct, so that each change tells of one.
        let _len = self.keys.len();
        for change in changes.into_vec() {
            self.tell_one(change)?;
        }
        Ok(())
    }

    // Learns one change.
    fn tell_one(&mut self, change: InnerChange) -> Result<(), AllocError>
        ensures { OnOk result (TellsOne self.old self.new change) }
    {
        let InnerChange { place, truth, out } = change;
        let Some(inner) = self.keys.value_at(place as usize) else {
            return Ok(());
        };
        let was = mem::replace(&mut inner.known, Some(Known { truth, out }));
        let before = freed(inner.tallied, was);
        inner.tallied = false;
        self.touched.push(place as u64)?;
        self.leave(before)
    }

    /// The number of inner keys.
    pub(crate) fn len(&self) -> usize
        ensures value { (spec : PredSpec) (calls : List DurationCall) → InnersStandFor self.now spec calls
            → result ≡ length (inner_keys spec calls) }
        ensures few { result ≤ most_keys }
    {
        let _bound = self.keys.bound();
        self.keys.len()
    }

    /// The inner key at a place.
    pub(crate) fn key(&self, place: usize) -> Option<&DimKey>
        ensures { (spec : PredSpec) (calls : List DurationCall) → InnersStandFor self.now spec calls
            → option_copied result ≡ slice_get (inner_keys spec calls) place }
    {
        let (key, _inner) = self.keys.pair(place)?;
        Some(key)
    }

    /// The truth that was told last of the inner key at a place.
    pub(crate) fn truth(&self, place: usize) -> Option<Truth>
        ensures { (spec : PredSpec) (calls : List DurationCall) → InnersStandFor self.now spec calls
            → result ≡ told_truth spec calls place }
    {
        let (_key, inner) = self.keys.pair(place)?;
        let Some(known) = &inner.known else {
            return None;
        };
        Some(known.truth)
    }

    /// Whether this was told last of the inner key at a place.
    pub(crate) fn was_told(&self, place: usize, truth: Truth, out: &MetricKey) -> bool
        ensures { (spec : PredSpec) (calls : List DurationCall) → InnersStandFor self.now spec calls
            → result ≡ was_told spec calls place (record { truth = truth; out = out.now }) }
    {
        let Some((_key, inner)) = self.keys.pair(place) else {
            return false;
        };
        says(&inner.known, truth, out)
    }
}

// The output key that was told, where the tally counts for it.
fn freed(tallied: bool, known: Option<Known>) -> Option<MetricKey>
    ensures { option_to_list result ≡ freed_key tallied known }
{
    if !tallied {
        return None;
    }
    let Some(known) = known else {
        return None;
    };
    Some(known.out)
}

// The output key for which the tally counts a key that left.
fn left(inner: Option<Inner>) -> Option<MetricKey>
    ensures { option_to_list result ≡ left_key inner }
{
    let Some(inner) = inner else {
        return None;
    };
    freed(inner.tallied, inner.known)
}

// Whether what was told says just this.
pub(crate) fn says(known: &Option<Known>, truth: Truth, out: &MetricKey) -> bool
    ensures { result ≡ says known.now (record { truth = truth; out = out.now }) }
{
    let Some(known) = known else {
        return false;
    };
    known.truth == truth && known.out == *out
}

/// A key's count after one more start.
pub(crate) fn add_start(nesting: bool, count: u64) -> u64
    ensures { result ≡ count_after_start nesting count }
{
    if nesting { count.saturating_add(1) } else { 1 }
}

/// A key's count after one more stop.
pub(crate) fn add_stop(nesting: bool, count: u64) -> u64
    ensures { result ≡ count_after_stop nesting count }
{
    if nesting { count.saturating_sub(1) } else { 0 }
}
