//! The inner keys of a metric of durations, which are the keys of the predicate that it times: what atoms do to them,
//! and what is told of them.
ghost use Rattle.std.specs.Prelude.{◌≡◌, ◌<◌, ◌≤◌, ◌+◌, ◌||◌, if◌then◌else◌, [], List, length, slice_get, OnOk, IfOk};
ghost use Rattle.std.specs.Option.{option_copied};
ghost use Rattle.bucket_meaning.specs.Limits.{most_keys};
ghost use Rattle.config_links.specs.SoundConfig.{MayBeWithin};
ghost use Rattle.duration_metric.specs.InnerKeys.{DurationParams, DurationCall, inner_keys, told_truth, was_told};
ghost use Rattle.duration_metric.specs.SumStands.{SumStandsFor};
ghost use Rattle.duration_metric.specs.SparseStands.{SparseStandsFor};
ghost use Rattle.metric_meaning.specs.PredicateSteps.{atom_events};
ghost use Rattle.metric_meaning.specs.Touched.{is_touched};
ghost use Rattle.metric_calls.specs.DurationCalls.{first_event_of, delta_with, told_as};
ghost use Rattle.client_engine.specs.InnerTold.{HasShared, IsStanding, HasTruth, AddsChange};
ghost use Rattle.client_engine.specs.Inners.{OnCalls, OnChanges};
ghost use Rattle.client_engine.specs.Staying.{truth_kept, is_nothing, is_kept};
ghost use Rattle.metric_meaning.specs.DurationSteps.{inner_fields};
ghost use Rattle.client_engine.specs.AskedFew.{AsksOfPlace, AsksOfAll};
ghost use Rattle.known_conditions.specs.Touchers.{tells_one};

use crate::arriving::key_into;
use crate::brought::Brought;
use crate::slices::tells_one;
use crate::stays::Stays;
use atom_record::{Atom, DimKey, MetricKey};
use condition_links::Steps;
use config_links::{LMetric, LPredBody};
use duration_metric::{InnerChange, InnerDelta, InnerEvent, MaxProducer, SumProducer};
use known_conditions::{Conditions, InnerKey, KeyRoom, Nothing, atom_key_into, event_by};
use predicate_state::Truth;
use sd_base::{Duplicate, Seq};
use std::alloc::{AllocError, Global};
use std::mem;
use std::sync::ledger::Ledger;

/// A producer of durations, as it is asked for its inner keys.
pub trait Inners {
    /// What a producer stands for that was made with these, and has got these calls.
    ghost stands: { Self → DurationParams → List DurationCall → Type 0 };

    /// The number of inner keys.
    fn len(&self) -> usize
        ensures value { OnCalls stands self.now (λ params calls.
            result ≡ length (inner_keys params.spec calls)) }
        ensures few { result ≤ most_keys };

    /// The inner key at a place.
    fn key(&self, place: usize) -> Option<&DimKey>
        ensures { OnCalls stands self.now (λ params calls.
            option_copied result ≡ slice_get (inner_keys params.spec calls) place) };

    /// The truth that was told last of the inner key at a place, if something was told of it.
    fn truth(&self, place: usize) -> Option<Truth>
        ensures { OnCalls stands self.now (λ params calls.
            result ≡ told_truth params.spec calls place) };

    /// Whether this was told last of the inner key at a place.
    fn was_told(&self, place: usize, truth: Truth, out: &MetricKey) -> bool
        ensures { OnCalls stands self.now (λ params calls.
            result ≡ was_told params.spec calls place (record { truth = truth; out = out.now })) };
}

impl Inners for SumProducer {
    ghost stands = { SumStandsFor };

    fn len(&self) -> usize {
        self.inner_len()
    }

    fn key(&self, place: usize) -> Option<&DimKey> {
        self.inner_key(place)
    }

    fn truth(&self, place: usize) -> Option<Truth> {
        self.inner_truth(place)
    }

    fn was_told(&self, place: usize, truth: Truth, out: &MetricKey) -> bool {
        SumProducer::was_told(self, place, truth, out)
    }
}

impl Inners for MaxProducer {
    ghost stands = { SparseStandsFor };

    fn len(&self) -> usize {
        self.inner_len()
    }

    fn key(&self, place: usize) -> Option<&DimKey> {
        self.inner_key(place)
    }

    fn truth(&self, place: usize) -> Option<Truth> {
        self.inner_truth(place)
    }

    fn was_told(&self, place: usize, truth: Truth, out: &MetricKey) -> bool {
        MaxProducer::was_told(self, place, truth, out)
    }
}

/// Whether an atom may change something of a duration: it touches it, or tells a state by which it is sliced.
pub fn changes_with(
    metric: &LMetric,
    brought: &Brought<'_>,
    atom: &Atom,
    conditions: &Conditions,
) -> bool
    ensures { result
        ≡ (is_touched conditions.now.predicates metric.now brought.now.matched.now
        || tells_one brought.now.states.now atom.now.id metric.now.slices) }
{
    conditions.touches(metric, brought.matched)
        || tells_one(brought.states, atom.id, metric.slices.as_slice())
}

/// What inner keys are asked by: the metric, what the frame brings, what stays of the keys that were there before it,
/// and the truth of their condition where it is the same for all.
#[derive(Clone, Copy)]
struct Asker<'a> {
    metric: &'a LMetric,
    brought: &'a Brought<'a>,
    stays: Stays<'a, 'a>,
    shared: Option<bool>,
}

/// What is told of inner keys once a frame has come: of each whose truth or output key isn't what was told of it last.
/// What stays isn't asked.
pub fn changes_of<K: Inners, L: Ledger>(
    keys: &K,
    metric: &LMetric,
    brought: &Brought<'_>,
    stays: Stays<'_, '_>,
    conditions: &mut Conditions,
    asks: &mut Steps<L>,
) -> Result<Seq<InnerChange>, AllocError>
    requires within { MayBeWithin (length conditions.old.predicates) metric.now.condition }
    ensures changes { OnChanges K.stands keys.now metric.now brought.now stays.entry conditions.old
        (λ told. IfOk result (λ changes. changes ≡ told)) }
    ensures known { conditions.new ≡ conditions.old }
    ensures asks { AsksOfAll K.stands keys.now stays.entry asks.old asks.new }
{
    let alloc = brought.alloc;
    let mut changes = Seq::new(alloc);
    let first = stays.first_asked();
    let count = keys.len();
    if count <= first {
        return Ok(changes);
    }
    let shared = shared_truth(alloc, metric, stays, conditions, asks)?;
    let asker = Asker {
        metric,
        brought,
        stays,
        shared,
    };
    let mut room = conditions.take_room(alloc);
    for place in first..count {
        add_change(
            &mut changes,
            keys,
            place,
            &asker,
            &mut room,
            conditions,
            asks,
        )?;
    }
    conditions.give_room(room);
    Ok(changes)
}

// Whether the condition is true of all inner keys alike. Where links ask by their values, there is no such truth; where
// one key is asked at most, it isn't looked for.
fn shared_truth<L: Ledger>(
    alloc: Global,
    metric: &LMetric,
    stays: Stays<'_, '_>,
    conditions: &mut Conditions,
    asks: &mut Steps<L>,
) -> Result<Option<bool>, AllocError>
    requires within { MayBeWithin (length conditions.old.predicates) metric.now.condition }
    ensures shared { IfOk result (HasShared conditions.old metric.now) }
    ensures known { conditions.new ≡ conditions.old }
    ensures asks { asks.new ≤ asks.old + (if is_nothing stays.entry then 1 else 0) }
{
    if !stays.is_nothing() || !metric.links.is_empty() {
        return Ok(None);
    }
    Ok(Some(conditions.holds(alloc, metric, &Nothing, asks)?))
}

// Adds what is told of the inner key at a place, unless it was told last. The key is copied only where it is told.
fn add_change<K: Inners, L: Ledger>(
    changes: &mut Seq<InnerChange>,
    keys: &K,
    place: usize,
    asker: &Asker<'_>,
    room: &mut KeyRoom,
    conditions: &mut Conditions,
    asks: &mut Steps<L>,
) -> Result<(), AllocError>
    requires within { MayBeWithin (length conditions.old.predicates) asker.now.metric.now.condition }
    requires few { place < most_keys }
    ensures adds { OnOk result (AddsChange K.stands keys.now place asker.now
        conditions.old changes.old changes.new) }
    ensures known { conditions.new ≡ conditions.old }
    ensures asks { AsksOfPlace K.stands keys.now asker.now.stays place asks.old asks.new }
{
    let Some(key) = keys.key(place) else {
        return Ok(());
    };
    if stays_at(place, key, asker, conditions) {
        return Ok(());
    }
    let truth = truth_at(keys, place, key, asker, conditions, asks)?;
    let inner = InnerKey {
        fields: conditions.fields_of(asker.metric.what),
        key,
    };
    key_into(asker.metric, asker.brought, &inner, room)?;
    if keys.was_told(place, truth, &room.key) {
        return Ok(());
    }
    let out = room.key.duplicate(asker.brought.alloc)?;
    changes.push(InnerChange {
        place: place as u32,
        truth,
        out,
    })
}

// Whether all stays that is so of the inner key at a place.
fn stays_at(place: usize, key: &DimKey, asker: &Asker<'_>, conditions: &Conditions) -> bool
    ensures { result ≡ is_kept asker.now.stays place
        (inner_fields (slice_get conditions.now.predicates asker.now.metric.now.what)) key.now }
{
    let inner = InnerKey {
        fields: conditions.fields_of(asker.metric.what),
        key,
    };
    asker.stays.keeps(place, &inner)
}

// The truth that is told of the inner key at a place: the one that was told last where that stays, or else the one that
// its condition has.
fn truth_at<K: Inners, L: Ledger>(
    keys: &K,
    place: usize,
    key: &DimKey,
    asker: &Asker<'_>,
    conditions: &mut Conditions,
    asks: &mut Steps<L>,
) -> Result<Truth, AllocError>
    requires within { MayBeWithin (length conditions.old.predicates) asker.now.metric.now.condition }
    ensures truth { IfOk result (HasTruth K.stands keys.now place key.now asker.now conditions.old) }
    ensures known { conditions.new ≡ conditions.old }
    ensures asks { AsksOfPlace K.stands keys.now asker.now.stays place asks.old asks.new }
{
    match kept_truth(keys, place, asker.stays) {
        Some(truth) => Ok(truth),
        None => truth_of(asker, key, conditions, asks),
    }
}

// The truth that was told last of the inner key at a place, where truths stay.
fn kept_truth<K: Inners>(keys: &K, place: usize, stays: Stays<'_, '_>) -> Option<Truth>
    ensures { (params : DurationParams) (calls : List DurationCall) → K.stands keys.now params calls
        → result ≡ truth_kept stays.entry (told_truth params.spec calls place) }
{
    match stays {
        Stays::Truths | Stays::OtherStates(..) => keys.truth(place),
        Stays::Keys(_) | Stays::Others(..) | Stays::Nothing => None,
    }
}

// The truth of an inner key's condition.
fn truth_of<L: Ledger>(
    asker: &Asker<'_>,
    key: &DimKey,
    conditions: &mut Conditions,
    asks: &mut Steps<L>,
) -> Result<Truth, AllocError>
    requires within { MayBeWithin (length conditions.old.predicates) asker.now.metric.now.condition }
    ensures truth { IfOk result (IsStanding asker.now key.now conditions.old) }
    ensures known { conditions.new ≡ conditions.old }
    ensures asks { asks.new ≤ asks.old + 1 }
{
    let alloc = asker.brought.alloc;
    match asker.shared {
        Some(holds) => Ok(truth_as(holds)),
        None => Ok(truth_as(conditions.holds_for_key(alloc, asker.metric, key, asks)?)),
    }
}

/// What is told with these changes: nothing without changes, where no event came.
pub fn delta_of(acts: bool, changes: Seq<InnerChange>) -> Option<InnerDelta>
    ensures { result ≡ delta_with acts changes }
{
    if !acts && changes.is_empty() {
        return None;
    }
    Some(InnerDelta { changes })
}

// The truth that is told of a condition: that it is true, or that it isn't.
fn truth_as(holds: bool) -> Truth
    ensures { result ≡ told_as holds }
{
    if holds { Truth::True } else { Truth::False }
}
