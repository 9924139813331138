//! One installed configuration.
ghost use Rattle.std.specs.Prelude.{◌≡◌, ◌<◌, true, List, OnOk, IfOk};
ghost use Rattle.atom_record.specs.declared.log.LogFrame.{LogFrame};
ghost use Rattle.pull_book.specs.PullBooks.{PullBookStandsFor};
ghost use Rattle.state_slicer.specs.StateBooks.{StateBookStandsFor};
ghost use Rattle.client_engine.specs.Running.{linked_of};

mod parts;
mod saved;

use crate::alarms::alarms_of;
use crate::brought::Brought;
use crate::listeners::Listeners;
use crate::opening::Opening;
use crate::parts::{Drops, tree_of};
use crate::request::ReportRequest;
use crate::state_drops::{dropped_atoms, state_drops};
use crate::tracks::Tracks;
use atom_record::LogFrame;
use condition_links::Steps;
use config_links::{LAlert, LMatcher, LState, Linked};
use known_conditions::Conditions;
use parts::Parts;
use pull_book::PullBook;
use report_writer::ReportTree;
use sd_base::Seq;
use state_slicer::StateBook;
use std::alloc::{AllocError, Global};
use std::marker::Model;
use std::sync::ledger::Ledger;

/// What a frame of the log comes with.
#[derive(Clone, Copy)]
pub struct LogView<'a> {
    /// For an atom the truth of each matcher, in config order, and else nothing.
    pub matched: &'a [bool],
    /// The states that the log gave, with this frame.
    pub states: &'a StateBook,
}

/// An installed configuration: its matchers, its predicates with what they know, its states, its metrics with their
/// lanes, its alerts, and when it was installed and last reported.
#[derive(Drop)]
pub struct Instance {
    alloc: Global,
    matchers: Seq<LMatcher>,
    conditions: Conditions,
    states: Seq<LState>,
    tracks: Tracks,
    alerts: Seq<LAlert>,
    listeners: Listeners,
    base: u64,
    last: u64,
}

impl Model for Instance {
    ghost use Rattle.std.specs.Coded.{codes};
    ghost use Rattle.config_types.specs.contracts.matcher.Test as test;
    ghost use Rattle.client_engine.specs.Running.{Running};
    ghost use Rattle.std.specs.Prelude.{◌≡◌, length, map, All};
    ghost use Rattle.client_engine.specs.Finding.{MayAsk};
    ghost use Rattle.client_engine.specs.Tracks.{metric_in, AllAskWithin};
    ghost use Rattle.client_engine.specs.Waking.{Listens};
    ghost use Rattle.client_engine.specs.Woken.{AllDue};

    ghost Value = { Running };

    ghost coded = { Prim.hlevel (codes, test.the_row.coded) };

    ghost view = { λ it. record {
      matchers = it.matchers;
      known = it.conditions;
      states = it.states;
      tracks = it.tracks.list.items;
      alerts = it.alerts;
      base = it.base;
      last = it.last;
    } };

    ghost invariant = { λ it. All MayAsk it.matchers × AllAskWithin it.conditions it.tracks.list.items
        × Listens it.listeners it.conditions.predicates (map metric_in it.tracks.list.items)
        × AllDue it.tracks.due it.tracks.list.items
        × (length it.tracks.marks.items ≡ length it.tracks.list.items) };
}

impl Instance {
    ghost use Rattle.bucket_clock.specs.Clock.{frame_at};
    ghost use Rattle.bucket_meaning.specs.Limits.{time_limit};
    ghost use Rattle.config_links.specs.SoundConfig.{IsSoundConfig};
    ghost use Rattle.report_writer.specs.Writable.{IsWritableReport};
    ghost use Rattle.session_frames.specs.Faultless.{IsFaultlessLog};
    ghost use Rattle.known_conditions.specs.Known.{drops_in};
    ghost use Rattle.client_engine.specs.Asleep.{IsCaughtUp};
    ghost use Rattle.client_engine.specs.InstanceParts.{AreStateDrops};
    ghost use Rattle.client_engine.specs.InstanceStands.{IsFresh, Logs, AsksAtMost, Reports};

    /// A configuration that is installed when the clock stands at `base`, and the log gave this. It has seen nothing.
    pub fn new(
        alloc: Global,
        linked: Linked,
        base: u64,
        pulls: &PullBook,
        _states: &StateBook,
    ) -> Result<Instance, AllocError>
        requires sound { IsSoundConfig linked }
        requires fits { base < time_limit }
        ensures fresh { (opening : List LogFrame) → PullBookStandsFor pulls.now opening
            → StateBookStandsFor _states.now opening → IfOk result (IsFresh linked base opening) }
        ensures linked { IfOk result (λ new. linked_of new ≡ linked) }
    {
        let Linked {
            matchers,
            predicates,
            states,
            metrics,
            alerts,
        } = linked;
        let mut conditions = Conditions::new(alloc, predicates)?;
        let opening = Opening {
            alloc,
            base,
            matchers: matchers.as_slice(),
            alerts: alerts.as_slice(),
            pulls,
        };
        let tracks = Tracks::new(metrics, &opening, &mut conditions)?;
        let parts = Parts {
            matchers,
            conditions,
            states,
            tracks,
            alerts,
            base,
            last: base,
        };
        parts.listening(alloc)
    }

    /// The matchers of the configuration, in config order.
    pub fn matchers(&self) -> &[LMatcher]
        ensures { result.now ≡ self.now.matchers }
    {
        self.matchers.as_slice()
    }

    /// A frame of the log comes as it is shown, with the truth of each matcher for an atom, and the states after it: it
    /// acts on predicates, and then comes to the metrics of which it can change something. After want of memory the
    /// configuration is of no use.
    pub fn apply<L: Ledger>(
        &mut self,
        frame: &LogFrame,
        view: &LogView<'_>,
        asks: &mut Steps<L>,
    ) -> Result<(), AllocError>
        requires faultless { IsFaultlessLog frame.now }
        ensures logs { OnOk result
            (Logs self.old frame.now view.now.matched.now view.now.states.now self.new) }
        ensures linked { linked_of self.new ≡ linked_of self.old }

        // It asks no more than the atom touches, also where memory is wanting.
        ensures asks { AsksAtMost self.old frame.now view.now.matched.now view.now.states.now
            asks.old asks.new }
    {
        self.conditions.log(self.alloc, frame, view.matched)?;
        let brought = Brought {
            alloc: self.alloc,
            frame,
            matched: view.matched,
            matchers: self.matchers.as_slice(),
            states: self.states.as_slice(),
            book: view.states,
        };
        self.listeners.find(&brought)?;
        self.tracks.log(self.listeners.woken(), &brought, &mut self.conditions, asks)
    }

    /// A run of frames went by that touch nothing of the configuration: one frame that stands for all catches it up.
    /// After want of memory it is of no use.
    #[inline(always)]
    pub fn catch_up(&mut self, at: u64, is_pull: bool) -> Result<(), AllocError>
        ensures caught { OnOk result (IsCaughtUp self.old (frame_at at is_pull) self.new) }
        ensures linked { linked_of self.new ≡ linked_of self.old }
    {
        self.tracks.catch_up(at, is_pull)
    }

    /// A report of the configuration, where the log gave these states. After want of memory it is of no use.
    pub fn show(
        &mut self,
        request: ReportRequest,
        states: &StateBook,
    ) -> Result<ReportTree, AllocError>
        ensures reports { IfOk result (Reports self.old request states.now self.new) }
        ensures linked { linked_of self.new ≡ linked_of self.old }
        ensures writable { IfOk result IsWritableReport }
    {
        let last = self.last;
        self.last = request.at;
        let alarms = alarms_of(
            self.alloc,
            self.alerts.as_slice(),
            self.tracks.list.as_slice(),
        )?;
        let metrics = self.tracks.report(self.alloc, self.base, request)?;
        let drops = self.drops(states)?;
        Ok(tree_of(request, last, metrics, drops, alarms))
    }

    /// The same as `apply`, of a configuration that is handed on.
    pub fn log<L: Ledger>(
        self,
        frame: &LogFrame,
        view: &LogView<'_>,
        asks: &mut Steps<L>,
    ) -> Result<Instance, AllocError>
        requires faultless { IsFaultlessLog frame.now }
        ensures logs { IfOk result (Logs self frame.now view.now.matched.now view.now.states.now) }
        ensures linked { IfOk result (λ new. linked_of new ≡ linked_of self) }
        ensures asks { AsksAtMost self frame.now view.now.matched.now view.now.states.now
            asks.old asks.new }
    {
        let mut instance = self;
        instance.apply(frame, view, asks)?;
        Ok(instance)
    }

    /// The same as `show`, of a configuration that is handed on.
    pub fn report(
        self,
        request: ReportRequest,
        states: &StateBook,
    ) -> Result<(Instance, ReportTree), AllocError>
        requires fits { request.at < time_limit }
        ensures reports { IfOk result (λ r. Reports self request states.now r.0 r.1) }
        ensures linked { IfOk result (λ r. linked_of r.0 ≡ linked_of self) }
        ensures writable { IfOk result (λ r. IsWritableReport r.1) }
    {
        let mut instance = self;
        let tree = instance.show(request, states)?;
        Ok((instance, tree))
    }

    // What found no room, as a report shows it.
    fn drops(&self, book: &StateBook) -> Result<Drops, AllocError>
        ensures of_predicates { IfOk result (λ drops. drops.of_predicates
            ≡ drops_in self.now.known.predicates self.now.known.tables) }
        ensures of_states { IfOk result (AreStateDrops self.now.states book.now) }
    {
        let states = self.states.as_slice();
        Ok(Drops {
            of_predicates: self.conditions.drops(self.alloc)?,
            of_states: state_drops(self.alloc, states, book)?,
            of_atoms: dropped_atoms(states, book),
        })
    }
}
