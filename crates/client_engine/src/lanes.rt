//! The lane of a metric, by its kind.
ghost use Rattle.std.specs.Prelude.{◌≡◌, [], ◌∷◌, length, OnOk, IfOk};
ghost use Rattle.bucket_clock.specs.Clock.{frame_at};
ghost use Rattle.config_links.specs.SoundConfig.{MayBeWithin};
ghost use Rattle.config_links.specs.declared.linked.LMetric.{LMetric};
ghost use Rattle.metric_lane.specs.LaneClock.{NoEndBefore};
ghost use Rattle.report_writer.specs.Writable.{IsWritableMetric};
ghost use Rattle.client_engine.specs.NextSteps.{TakesReport};
ghost use Rattle.client_engine.specs.AskedFew.{LaneAsksFew};
ghost use Rattle.client_engine.specs.Bringing.{LaneTakes};
ghost use Rattle.client_engine.specs.CaughtUp.{TakesRun};
ghost use Rattle.client_engine.specs.Opens.{CanOpen, StandsAtFirst};
ghost use Rattle.client_engine.specs.Finding.{CanBeBrought};
ghost use Rattle.client_engine.specs.TrackStands.{LaneAlong};
ghost use Rattle.client_engine.specs.Tracks.{CanBeTracked, AsksWithin};
ghost use Rattle.client_engine.specs.Woken.{clock_of_lane};

use crate::brought::{Brought, Taker};
use crate::kinds::counts::CountLane;
use crate::kinds::{counts, events, gauges, longest, pulled_gauges, pulled_values, sums, values};
use crate::opening::Opening;
use crate::request::ReportRequest;
use crate::watches::watches_of;
use condition_links::Steps;
use config_links::{LKind, LMetric};
use duration_metric::{MaxProducer, SumProducer};
use gauge_metric::{EventProducer, PulledGauge, PushedGauge};
use known_conditions::Conditions;
use metric_lane::Lane;
use report_writer::MetricTree;
use std::alloc::{AllocError, Global};
use std::sync::ledger::Ledger;
use value_metric::{PulledValue, PushedValue};

/// The lane of a metric, by its kind.
#[derive(Drop)]
pub enum MetricLane {
    /// Of a metric that counts.
    Counts(CountLane),
    /// Of a metric of pushed values.
    Values(Lane<PushedValue>),
    /// Of a metric of pulled values.
    PulledValues(Lane<PulledValue>),
    /// Of a pushed gauge.
    Gauges(Lane<PushedGauge>),
    /// Of a pulled gauge.
    PulledGauges(Lane<PulledGauge>),
    /// Of a metric of events.
    Events(Lane<EventProducer>),
    /// Of a metric that sums durations.
    Sums(Lane<SumProducer>),
    /// Of a metric of longest durations.
    Longest(Lane<MaxProducer>),
}

impl MetricLane {
    /// A frame of the log comes, at which the metric is active or isn't.
    pub fn log<L: Ledger>(
        &mut self,
        taker: &Taker<'_>,
        brought: &Brought<'_>,
        conditions: &mut Conditions,
        asks: &mut Steps<L>,
    ) -> Result<(), AllocError>
        requires within { AsksWithin (length conditions.old.predicates) taker.now.metric.now }
        requires matched { CanBeBrought brought.now }
        ensures logs { OnOk result (LaneTakes LaneAlong taker.now
            conditions.old brought.now self.old self.new) }
        ensures known { conditions.new ≡ conditions.old }
        ensures asks { LaneAsksFew LaneAlong taker.now.metric.now
            conditions.old brought.now self.old asks.old asks.new }
    {
        match self {
            MetricLane::Counts(lane) => counts::log(lane, taker, brought, conditions, asks),
            MetricLane::Values(lane) => values::log(lane, taker, brought, conditions, asks),
            MetricLane::PulledValues(lane) => {
                pulled_values::log(lane, taker.metric, brought, conditions, asks)
            }
            MetricLane::Gauges(lane) => gauges::log(lane, taker, brought, conditions, asks),
            MetricLane::PulledGauges(lane) => {
                pulled_gauges::log(lane, taker.metric, brought, conditions, asks)
            }
            MetricLane::Events(lane) => events::log(lane, taker, brought, conditions, asks),
            MetricLane::Sums(lane) => sums::log(lane, taker.metric, brought, conditions, asks),
            MetricLane::Longest(lane) => longest::log(
                lane,
                taker.metric,
                brought,
                conditions,
                asks,
            ),
        }
    }

    /// The one frame comes that stands for a run which leaves the metric alone: the lane crosses what that crosses.
    pub fn cross(&mut self, at: u64, is_pull: bool) -> Result<(), AllocError>
        ensures { OnOk result ((metric : LMetric)
            → TakesRun (LaneAlong metric) metric (frame_at at is_pull) self.old self.new) }
    {
        match self {
            MetricLane::Counts(lane) => lane.cross(at, is_pull),
            MetricLane::Values(lane) => lane.cross(at, is_pull),
            MetricLane::PulledValues(lane) => lane.cross(at, is_pull),
            MetricLane::Gauges(lane) => lane.cross(at, is_pull),
            MetricLane::PulledGauges(lane) => lane.cross(at, is_pull),
            MetricLane::Events(lane) => lane.cross(at, is_pull),
            MetricLane::Sums(lane) => lane.cross(at, is_pull),
            MetricLane::Longest(lane) => lane.cross(at, is_pull),
        }
    }

    /// A time before which none of its buckets ends, in nanoseconds.
    pub fn next_end(&self) -> u64
        ensures { NoEndBefore result (clock_of_lane self.now) }
    {
        match self {
            MetricLane::Counts(lane) => lane.next_end(),
            MetricLane::Values(lane) => lane.next_end(),
            MetricLane::PulledValues(lane) => lane.next_end(),
            MetricLane::Gauges(lane) => lane.next_end(),
            MetricLane::PulledGauges(lane) => lane.next_end(),
            MetricLane::Events(lane) => lane.next_end(),
            MetricLane::Sums(lane) => lane.next_end(),
            MetricLane::Longest(lane) => lane.next_end(),
        }
    }

    /// A report, and what it shows of the metric.
    pub fn report(
        &mut self,
        alloc: Global,
        metric: &LMetric,
        base: u64,
        request: ReportRequest,
    ) -> Result<MetricTree, AllocError>
        ensures reports { IfOk result (TakesReport (LaneAlong metric.now)
            metric.now base request self.old self.new) }
        ensures writable { IfOk result IsWritableMetric }
    {
        match self {
            MetricLane::Counts(lane) => counts::report(lane, alloc, metric, base, request),
            MetricLane::Values(lane) => values::report(lane, alloc, metric, base, request),
            MetricLane::PulledValues(lane) => {
                pulled_values::report(lane, alloc, metric, base, request)
            }
            MetricLane::Gauges(lane) => gauges::report(lane, alloc, metric, base, request),
            MetricLane::PulledGauges(lane) => {
                pulled_gauges::report(lane, alloc, metric, base, request)
            }
            MetricLane::Events(lane) => events::report(lane, alloc, metric, base, request),
            MetricLane::Sums(lane) => sums::report(lane, alloc, metric, base, request),
            MetricLane::Longest(lane) => longest::report(lane, alloc, metric, base, request),
        }
    }
}

/// The lane of the metric at a place of a configuration, by its kind, which begins where it is installed.
pub fn lane_of(
    metric: &LMetric,
    place: usize,
    opening: &Opening<'_>,
    conditions: &mut Conditions,
) -> Result<MetricLane, AllocError>
    requires opens { CanOpen opening.now }
    requires tracked { CanBeTracked metric.now }
    requires within { MayBeWithin (length conditions.old.predicates) metric.now.condition }
    ensures stands { IfOk result
        (StandsAtFirst (LaneAlong metric.now) opening.now conditions.old place metric.now) }
    ensures known { conditions.new ≡ conditions.old }
{
    let alloc = opening.alloc;
    let base = opening.base;
    match &metric.kind {
        LKind::Count { overflow } => {
            let watches = watches_of(alloc, opening.alerts, place)?;
            Ok(MetricLane::Counts(counts::begin(alloc, base, metric, *overflow, watches)))
        }
        LKind::PushedValue { agg, .. } => {
            Ok(MetricLane::Values(values::begin(alloc, base, metric, *agg)))
        }
        LKind::PulledValue { spec, .. } => {
            let lane = pulled_values::begin(metric, *spec, opening, conditions)?;
            Ok(MetricLane::PulledValues(lane))
        }
        LKind::PushedGauge { samples, .. } => {
            Ok(MetricLane::Gauges(gauges::begin(alloc, base, metric, *samples)))
        }
        LKind::PulledGauge { samples, mode, .. } => {
            let lane = pulled_gauges::begin(metric, *samples, *mode, opening, conditions)?;
            Ok(MetricLane::PulledGauges(lane))
        }
        LKind::Event => Ok(MetricLane::Events(events::begin(alloc, base, metric))),
        LKind::SumDuration { spec } => {
            Ok(MetricLane::Sums(sums::begin(alloc, base, metric, *spec)))
        }
        LKind::MaxSparse { spec } => {
            Ok(MetricLane::Longest(longest::begin(alloc, base, metric, *spec)))
        }
    }
}
