//! Which metrics an atom can change something of: listed when the configuration is installed, under the matchers and
//! the states by which it would.
ghost use Rattle.std.specs.Prelude.{◌≡◌, ◌++◌, map, OnOk, IfOk};
ghost use Rattle.client_engine.specs.Tracks.{metric_in};
ghost use Rattle.known_conditions.specs.Lists.{places_under};
ghost use Rattle.client_engine.specs.Waking.{told_touchers, wakers, told_states, Listens, places_woken, is_told_at};

use crate::brought::Brought;
use crate::track::Track;
use atom_record::LogFrame;
use config_links::{LKind, LMetric, LSlice, LState};
use known_conditions::{Conditions, add_if, find_matched, list_under};
use sd_base::Seq;
use std::alloc::{AllocError, Global};

/// The places of metrics, under what wakes them.
#[derive(Drop)]
pub struct Listeners {
    /// Under each matcher those of which an atom that it matches can change something.
    by_matcher: Vec<Seq<usize>>,
    /// Under each state the durations that are sliced by it.
    by_state: Vec<Seq<usize>>,
    /// Those that the present frame wakes. Only the room is kept from frame to frame.
    woken: Vec<usize>,
}

impl Listeners {
    /// The metrics of these tracks, listed.
    pub fn new(
        alloc: Global,
        tracks: &[Track],
        conditions: &Conditions,
    ) -> Result<Listeners, AllocError>
        ensures { IfOk result (λ it. Listens it conditions.now.predicates (map metric_in tracks.now)) }
    {
        let mut by_matcher = Vec::new(alloc);
        let mut by_state = Vec::new(alloc);
        for place in 0..tracks.len() {
            let metric = &tracks[place].metric;
            let matchers = wakers_of(alloc, metric, conditions)?;
            list_under(alloc, &mut by_matcher, matchers.as_slice(), place)?;
            let states = told_states_of(alloc, metric)?;
            list_under(alloc, &mut by_state, states.as_slice(), place)?;
        }
        Ok(Listeners {
            by_matcher,
            by_state,
            woken: Vec::new(alloc),
        })
    }

    /// Finds the metrics that a frame wakes: those listed under a matcher that holds, or a state that it tells.
    pub fn find(&mut self, brought: &Brought<'_>) -> Result<(), AllocError>
        ensures matchers { self.new.by_matcher ≡ self.old.by_matcher }
        ensures states { self.new.by_state ≡ self.old.by_state }
        ensures found { OnOk result (self.new.woken.items ≡ places_woken self.old brought.now.states.now
            brought.now.frame.now brought.now.matched.now) }
    {
        let LogFrame::AtomAt { atom, .. } = brought.frame else {
            self.woken.clear();
            return Ok(());
        };
        find_matched(self.by_matcher.as_slice(), brought.matched, &mut self.woken)?;
        add_told(
            self.by_state.as_slice(),
            brought.states,
            atom.id,
            &mut self.woken,
        )
    }

    /// The places of the metrics that were found, some perhaps more than once.
    pub fn woken(&self) -> &[usize]
        ensures { result.now ≡ self.now.woken.items }
    {
        self.woken.as_slice()
    }
}

// The matchers whose atoms can change something of a metric: its own, and those that touch what it is told of.
fn wakers_of(
    alloc: Global,
    metric: &LMetric,
    conditions: &Conditions,
) -> Result<Vec<u32>, AllocError>
    ensures { IfOk result (λ list. list.items ≡ wakers conditions.now.predicates metric.now) }
{
    let mut own = Seq::new(alloc);
    metric.add_matchers(&mut own)?;
    let mut list = own.into_vec();
    add_told_touchers(&mut list, metric, conditions)?;
    Ok(list)
}

// Adds the matchers that touch the predicates of which a metric is told each change.
fn add_told_touchers(
    list: &mut Vec<u32>,
    metric: &LMetric,
    conditions: &Conditions,
) -> Result<(), AllocError>
    ensures { OnOk result (list.new.items
        ≡ list.old.items ++ told_touchers conditions.now.predicates metric.now) }
{
    match &metric.kind {
        LKind::PulledValue { .. } | LKind::PulledGauge { .. } => {
            list.extend_from_slice(conditions.touchers_of(metric.condition))
        }
        LKind::SumDuration { .. } | LKind::MaxSparse { .. } => {
            list.extend_from_slice(conditions.touchers_of(metric.condition))?;
            list.extend_from_slice(conditions.touchers_of(Some(metric.what)))
        }
        LKind::Count { .. }
        | LKind::PushedValue { .. }
        | LKind::PushedGauge { .. }
        | LKind::Event => Ok(()),
    }
}

// The states whose atoms can change something of a metric.
fn told_states_of(alloc: Global, metric: &LMetric) -> Result<Vec<u32>, AllocError>
    ensures { IfOk result (λ list. list.items ≡ told_states metric.now) }
{
    match &metric.kind {
        LKind::SumDuration { .. } | LKind::MaxSparse { .. } => {
            states_of(alloc, metric.slices.as_slice())
        }
        LKind::Count { .. }
        | LKind::PushedValue { .. }
        | LKind::PulledValue { .. }
        | LKind::PushedGauge { .. }
        | LKind::PulledGauge { .. }
        | LKind::Event => Ok(Vec::new(alloc)),
    }
}

// The states that these slices name.
fn states_of(alloc: Global, slices: &[LSlice]) -> Result<Vec<u32>, AllocError>
    ensures { IfOk result (λ list. list.items ≡ map (λ (slice : LSlice). slice.state) slices.now) }
{
    let mut list = Vec::new(alloc);
    for slice in slices {
        list.push(slice.state)?;
    }
    Ok(list)
}

// Adds the places under the states that atoms of this id tell.
fn add_told(
    lists: &[Seq<usize>],
    states: &[LState],
    id: u32,
    woken: &mut Vec<usize>,
) -> Result<(), AllocError>
    ensures { OnOk result
        (woken.new.items ≡ woken.old.items ++ places_under lists.now (is_told_at states.now id)) }
{
    for state in 0..lists.len() {
        add_if(tells(states, id, state), lists[state].as_slice(), woken)?;
    }
    Ok(())
}

// Whether the state at a place is told by atoms of this id.
fn tells(states: &[LState], id: u32, place: usize) -> bool
    ensures { result ≡ is_told_at states.now id place }
{
    match states.get(place) {
        Some(state) => id == state.atom_id,
        None => false,
    }
}
