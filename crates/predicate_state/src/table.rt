//! A predicate's table: a bounded list of keys with counts, and what holds of all other keys.
ghost use Rattle.std.specs.Prelude.{◌≡◌, ◌≢◌, ◌<◌, ◌≤◌, ◌==◌, [], length, position, slice_get, AllPairs, Contains, IfSome, None, OnOk, OnErr, ◌&&◌, ◌||◌, nat_lt};
ghost use Rattle.std.specs.Map.{lookup, keys_of};
ghost use Rattle.std.specs.Option.{option_map};
ghost use Rattle.bucket_meaning.specs.Limits.{most_keys};
ghost use Rattle.predicate_state.specs.declared.event.PredEvent.TheVariants.{Start, Stop};
ghost use Rattle.predicate_state.specs.PredicateStates.{initial_state, without_key, count_after_start, count_after_stop};
ghost use Rattle.predicate_state.specs.PredicateTruths.{default_truth, count_truth, truth_of_count, key_truth, binds_truth, NamesKey, agrees, is_leaf, are_leaves_bound, is_place_bound};
ghost use Rattle.predicate_state.specs.PredicateTable.{LeafKey, same_leaves, with_state, with_event, with_count_at, with_key_listed, PredTableStandsFor, AppliesEvent, ListsNewKey};

use crate::bound::{BoundKey, are_in_order, has_leaf};
use crate::{Bind, PredEvent, Truth};
use atom_record::DimKey;
use config_types::PredSpec;
use dim_table::Guarded;
use indexmap::Equivalent;
use std::alloc::{AllocError, Global};
use std::marker::Model;

/// The keys of a simple predicate that were started or stopped, with the number of starts that no stop has met.
#[derive(Drop)]
pub struct PredTable {
    pub(crate) spec: PredSpec,
    pub(crate) unknown: bool,
    pub(crate) counts: Guarded<DimKey, u64>,
}

impl Model for PredTable {
    ghost use Rattle.std.specs.Prelude.{◌≡◌};
    ghost use Rattle.predicate_state.specs.PredicateStates.{PredicateState};
    ghost use Rattle.predicate_state.specs.PredicateTable.{PredicateTable, HaveLeaves};

    ghost Value = { PredicateTable };

    ghost view = { λ t. record {
      spec = t.spec;
      state = record { unknown = t.unknown; counts = t.counts.rows; dropped = t.counts.dropped };
    } };

    ghost invariant = { λ t. (t.counts.bound ≡ t.spec.bound)
        × HaveLeaves t.spec.leaves t.counts.rows };
}

impl PredTable {
    /// The table of a predicate to which nothing has happened yet.
    pub fn new(alloc: Global, spec: PredSpec) -> PredTable
        requires least { 1 ≤ spec.bound }
        requires most { spec.bound ≤ most_keys }
        ensures state { result ≡ record { spec = spec; state = initial_state spec } }
        ensures stands { PredTableStandsFor result spec [] }
    {
        PredTable {
            spec,
            unknown: spec.unknown,
            counts: Guarded::new(alloc, spec.bound as usize),
        }
    }

    /// What it was made for.
    pub fn spec(&self) -> PredSpec
        ensures { result ≡ self.now.spec }
    {
        self.spec
    }

    /// Lets an event act on a key. A stop of all keys takes any key.
    pub fn apply(&mut self, event: PredEvent, key: &DimKey) -> Result<(), AllocError>
        requires leaves { length key.now ≡ self.old.spec.leaves }
        ensures state { OnOk result (self.new ≡ with_event self.old event key.now) }
        ensures stands { OnOk result (AppliesEvent self.old self.new event key.now) }

        // Only a new key that finds room asks for memory.
        ensures only_new { OnErr result (ListsNewKey self.old event key.now) }
        ensures err { OnErr result (self.new ≡ self.old) }
    {
        match event {
            PredEvent::Start => self.start(key),
            PredEvent::Stop => self.stop(key),
            PredEvent::StopAll => {
                self.unknown = false;
                self.counts.clear();
                Ok(())
            }
        }
    }

    // Counts a start of a key.
    fn start(&mut self, key: &DimKey) -> Result<(), AllocError>
        requires leaves { length key.now ≡ self.old.spec.leaves }
        ensures state { OnOk result (self.new ≡ with_event self.old Start key.now) }
        ensures only_new { OnErr result (ListsNewKey self.old Start key.now) }
        ensures err { OnErr result (self.new ≡ self.old) }
    {
        match self.row_of(key) {
            Some((place, count)) => {
                let more = add_start(self.spec.nesting, count);
                self.set_count(place, more);
                Ok(())
            }
            None => self.append(key, 1),
        }
    }

    // Counts a stop of a key.
    fn stop(&mut self, key: &DimKey) -> Result<(), AllocError>
        requires leaves { length key.now ≡ self.old.spec.leaves }
        ensures state { OnOk result (self.new ≡ with_event self.old Stop key.now) }
        ensures only_new { OnErr result (ListsNewKey self.old Stop key.now) }
        ensures err { OnErr result (self.new ≡ self.old) }
    {
        match self.row_of(key) {
            Some((place, count)) => {
                let less = add_stop(self.spec.nesting, count);
                if less == 0 && !self.unknown {
                    self.remove(key);
                    return Ok(());
                }
                self.set_count(place, less);
                Ok(())
            }
            None => {
                if !self.unknown {
                    return Ok(());
                }
                self.append(key, 0)
            }
        }
    }

    // Takes a key out of the list.
    fn remove(&mut self, key: &DimKey)
        ensures { self.new ≡ with_state self.old (without_key same_leaves self.old.state key.now) }
    {
        self.counts.remove(key);
    }

    // The place of a listed key, and its count.
    fn row_of(&self, key: &DimKey) -> Option<(usize, u64)>
        ensures count { option_map (λ row. row.1) result
            ≡ lookup (same_leaves key.now) self.now.state.counts }
        ensures place { IfSome result
            (λ row. position (same_leaves key.now) (keys_of self.now.state.counts) ≡ Some row.0) }
        ensures absent { result ≡ None → ¬ Contains (keys_of self.now.state.counts) key.now }
    {
        let place = self.counts.place_of(key)?;
        let (_key, count) = self.counts.pair(place)?;
        Some((place, *count))
    }

    // Gives a listed key another count.
    fn set_count(&mut self, place: usize, count: u64)
        requires { place < length self.old.state.counts }
        ensures { self.new ≡ with_count_at self.old place count }
    {
        let Some(there) = self.counts.value_at(place) else {
            return;
        };
        *there = count;
    }

    // Lists a copy of a new key, or counts that it finds no room.
    fn append(&mut self, key: &DimKey, count: u64) -> Result<(), AllocError>
        requires leaves { length key.now ≡ self.old.spec.leaves }
        requires absent { ¬ Contains (keys_of self.old.state.counts) key.now }
        ensures state { OnOk result (self.new ≡ with_key_listed self.old key.now count) }
        ensures room { OnErr result (length self.old.state.counts ≢ self.old.spec.bound) }
        ensures err { OnErr result (self.new ≡ self.old) }
    {
        self.counts.admit_copy(key, count)?;
        Ok(())
    }

    /// The truth of one key.
    pub fn truth(&self, key: &DimKey) -> Truth
        ensures { result ≡ key_truth same_leaves self.now.state key.now }
    {
        self.look_up(key)
    }

    // The truth of the key that a query stands for, which is found by its hash.
    fn look_up<Q: Equivalent<DimKey>>(&self, query: Q) -> Truth
        ensures { result ≡ truth_of_count self.now.state.unknown
            (lookup (Q.equivalent query) self.now.state.counts) }
    {
        match self.counts.find(query) {
            Some(count) => truth_of(*count),
            None => self.judge_absent(),
        }
    }

    /// The truth over all keys that agree with the binds. Where every leaf is bound, that is the truth of one key.
    pub fn any(&self, binds: &[Bind]) -> Truth
        ensures truth { result ≡ binds_truth self.now.spec.leaves self.now.state binds.now }
        ensures one_key { (key : LeafKey) → NamesKey self.now.spec.leaves binds.now key
            → result ≡ key_truth same_leaves self.now.state key }
    {
        // That each key has as many leaves as the spec is what makes it the one.
        if are_in_order(binds, self.spec.leaves) {
            return self.look_up(BoundKey { binds });
        }
        self.first_that_decides(binds)
    }

    // The truth that the first deciding entry has, or that of an absent key.
    fn first_that_decides(&self, binds: &[Bind]) -> Truth
        ensures { result ≡ binds_truth self.now.spec.leaves self.now.state binds.now }
    {
        let is_one = binds_every_leaf(binds, self.spec.leaves);
        for place in 0..self.counts.len() {
            let Some((key, count)) = self.counts.pair(place) else {
                return self.judge_absent();
            };
            if decides(key, *count, binds, is_one) {
                return truth_of(*count);
            }
        }
        self.judge_absent()
    }

    // The truth of a key that isn't listed.
    fn judge_absent(&self) -> Truth
        ensures { result ≡ default_truth self.now.state.unknown }
    {
        if self.unknown {
            Truth::Unknown
        } else {
            Truth::False
        }
    }

    /// How many keys are listed.
    pub fn len(&self) -> usize
        ensures value { result ≡ length self.now.state.counts }
        ensures within { result ≤ self.now.spec.bound }
        ensures distinct { AllPairs (λ one other. one ≢ other) (keys_of self.now.state.counts) }
    {
        let _bound = self.spec.bound;
        self.counts.len()
    }

    /// The key at a place and its count, or none past the end.
    pub fn entry(&self, place: usize) -> Option<(&DimKey, u64)>
        ensures { option_map (λ found. (found.0.now, found.1)) result
            ≡ slice_get self.now.state.counts place }
    {
        let (key, count) = self.counts.pair(place)?;
        Some((key, *count))
    }

    /// How many keys found no room, since the table was made. The count stands still at the end of its type.
    pub fn dropped(&self) -> u64
        ensures { result ≡ self.now.state.dropped }
    {
        self.counts.dropped()
    }
}

// A key's count after one more start.
fn add_start(nesting: bool, count: u64) -> u64
    ensures { result ≡ count_after_start nesting count }
{
    if nesting { count.saturating_add(1) } else { 1 }
}

// A key's count after one more stop.
fn add_stop(nesting: bool, count: u64) -> u64
    ensures { result ≡ count_after_stop nesting count }
{
    if nesting { count.saturating_sub(1) } else { 0 }
}

// The truth of a listed key.
fn truth_of(count: u64) -> Truth
    ensures { result ≡ count_truth count }
{
    if count > 0 { Truth::True } else { Truth::False }
}

// Whether the answer is that of a key: the key agrees with the binds, and is the only one or has a count above 0.
fn decides(key: &DimKey, count: u64, binds: &[Bind], is_one: bool) -> bool
    ensures { result ≡ (agrees binds.now key.now && (is_one || nat_lt 0 count)) }
{
    has_leaves(key, binds) && (is_one || count > 0)
}

// Whether a key has what every bind asks for.
fn has_leaves(key: &DimKey, binds: &[Bind]) -> bool
    ensures { result ≡ agrees binds.now key.now }
{
    binds
        .iter()
        .all(|bind| has_leaf(key, bind.place as usize, &bind.value))
}

// Whether each of the first so many places is bound.
fn binds_every_leaf(binds: &[Bind], leaves: u32) -> bool
    ensures { result ≡ are_leaves_bound binds.now leaves }
{
    for place in 0..leaves {
        if !binds_place(binds, place) {
            return false;
        }
    }
    true
}

// Whether some bind asks for the leaf at a place. Binds that stand in the order of the leaves are found at once.
fn binds_place(binds: &[Bind], place: u32) -> bool
    ensures { result ≡ is_place_bound binds.now place }
{
    if let Some(bind) = binds.get(place as usize)
        && bind.place == place
    {
        return true;
    }
    binds.iter().any(|bind| bind.place == place)
}
