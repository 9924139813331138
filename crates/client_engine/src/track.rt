//! A metric of a configuration, the lane that collects for it, and what atoms said of its activations.
ghost use Rattle.std.specs.Prelude.{◌≡◌, [], ◌∷◌, length, slice_get, OnOk, IfOk};
ghost use Rattle.std.specs.Option.{option_copied};
ghost use Rattle.bucket_clock.specs.Clock.{frame_at};
ghost use Rattle.config_links.specs.SoundConfig.{MayBeWithin};
ghost use Rattle.report_writer.specs.Writable.{IsWritableMetric};
ghost use Rattle.client_engine.specs.Alarms.{watches_in};
ghost use Rattle.client_engine.specs.NextSteps.{TakesReport};
ghost use Rattle.client_engine.specs.AskedFew.{AsksFew};
ghost use Rattle.client_engine.specs.Bringing.{TakesBrought};
ghost use Rattle.client_engine.specs.CaughtUp.{TrackTakesRun};
ghost use Rattle.client_engine.specs.Opens.{CanOpen, StandsAtFirst};
ghost use Rattle.client_engine.specs.Finding.{CanBeBrought};
ghost use Rattle.client_engine.specs.TrackStands.{TrackStandsFor};
ghost use Rattle.client_engine.specs.Tracks.{CanBeTracked};
ghost use Rattle.client_engine.specs.Woken.{IsDue};

use crate::activity::{book_of, hear};
use crate::brought::{Brought, Taker};
use crate::lanes::{MetricLane, lane_of};
use crate::opening::Opening;
use crate::request::ReportRequest;
use alert_watch::AlertWatch;
use condition_links::Steps;
use config_links::LMetric;
use known_conditions::Conditions;
use metric_activation::ActBook;
use report_writer::MetricTree;
use std::alloc::{AllocError, Global};
use std::sync::ledger::Ledger;

/// A metric, its lane, and the book of its activations.
#[derive(Drop)]
pub struct Track {
    pub metric: LMetric,
    pub lane: MetricLane,
    pub acts: ActBook,
}

impl Track {
    /// The track of the metric at a place of a configuration, with a lane that begins where it is installed.
    pub fn new(
        metric: LMetric,
        place: usize,
        opening: &Opening<'_>,
        conditions: &mut Conditions,
    ) -> Result<Track, AllocError>
        requires opens { CanOpen opening.now }
        requires tracked { CanBeTracked metric }
        requires within { MayBeWithin (length conditions.old.predicates) metric.condition }
        ensures metric { IfOk result (λ track. track.metric ≡ metric) }
        ensures stands { IfOk result
            (StandsAtFirst TrackStandsFor opening.now conditions.old place metric) }
        ensures known { conditions.new ≡ conditions.old }
    {
        let lane = lane_of(&metric, place, opening, conditions)?;
        let acts = book_of(opening.alloc, &metric)?;
        Ok(Track { metric, lane, acts })
    }

    /// A frame of the log comes. The book of activations hears it before it is asked whether the metric is active.
    pub fn log<L: Ledger>(
        &mut self,
        brought: &Brought<'_>,
        conditions: &mut Conditions,
        asks: &mut Steps<L>,
    ) -> Result<(), AllocError>
        requires within { MayBeWithin (length conditions.old.predicates) self.old.metric.condition }
        requires matched { CanBeBrought brought.now }
        ensures metric { self.new.metric ≡ self.old.metric }
        ensures logs { OnOk result (TakesBrought TrackStandsFor
            conditions.old brought.now self.old self.new) }
        ensures known { conditions.new ≡ conditions.old }
        ensures asks { AsksFew TrackStandsFor (self.old.metric ∷ [])
            conditions.old brought.now self.old asks.old asks.new }
    {
        let Track { metric, lane, acts } = self;
        let is_active = hear(acts, metric, brought);
        let taker = Taker { metric, is_active };
        lane.log(&taker, brought, conditions, asks)
    }

    /// The one frame comes that stands for a run which leaves the metric alone: the lane crosses what that crosses.
    pub fn cross(&mut self, at: u64, is_pull: bool) -> Result<(), AllocError>
        ensures metric { self.new.metric ≡ self.old.metric }
        ensures takes { OnOk result (TrackTakesRun (frame_at at is_pull) self.old self.new) }
    {
        self.lane.cross(at, is_pull)
    }

    /// A time before which none of its buckets ends, in nanoseconds.
    pub fn next_end(&self) -> u64
        ensures { IsDue result self.now }
    {
        self.lane.next_end()
    }

    /// The watch of the alert that comes after so many others on the metric, if there is one.
    pub fn watch(&self, turn: usize) -> Option<&AlertWatch>
        ensures { option_copied result ≡ slice_get (watches_in self.now.lane) turn }
    {
        match &self.lane {
            MetricLane::Counts(lane) => lane.watch(turn),
            _ => None,
        }
    }

    /// A report, and what it shows of the metric.
    pub fn report(
        &mut self,
        alloc: Global,
        base: u64,
        request: ReportRequest,
    ) -> Result<MetricTree, AllocError>
        ensures metric { self.new.metric ≡ self.old.metric }
        ensures reports { IfOk result (TakesReport TrackStandsFor
            self.old.metric base request self.old self.new) }
        ensures writable { IfOk result IsWritableMetric }
    {
        self.lane.report(alloc, &self.metric, base, request)
    }
}
