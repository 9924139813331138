//! The flat form of a lane: the number of its kind, and what it has by it.

use crate::kinds::counts::CountLane;
use crate::lanes::MetricLane;
use crate::saved::kinds::{build_kind, flatten_kind};
use duration_metric::{MaxProducer, SumProducer};
use flat_form::{Flat, FlatError, Items};
use gauge_metric::{EventProducer, PulledGauge, PushedGauge};
use metric_lane::Lane;
use std::alloc::{AllocError, Global};
use value_metric::{PulledValue, PushedValue};

impl Flat for MetricLane {
    ghost use Rattle.std.proofs.Common.{refl};
    ghost use Rattle.flat_form.specs.Bounded.{short_head};
    ghost use Rattle.client_engine.specs.SavedLanes.{metric_lane_items, IsMetricLane};
    ghost use Rattle.client_engine.specs.SavedSizes.{IsSavableMetricLane, metric_lane_entries, metric_lane_bounded, metric_lane_few, metric_lane_savable};

    ghost flat = { metric_lane_items };

    ghost valid = { IsMetricLane };

    ghost savable = { IsSavableMetricLane };

    ghost head = { 0 };

    ghost short = { short_head 0 refl };

    ghost entries = { metric_lane_entries };

    ghost bounded = { metric_lane_bounded };

    ghost few = { metric_lane_few };

    ghost spells = { metric_lane_savable };

    fn show_valid(&self) {
        match self {
            MetricLane::Counts(lane) => lane.show_valid(),
            MetricLane::Values(lane) => lane.show_valid(),
            MetricLane::PulledValues(lane) => lane.show_valid(),
            MetricLane::Gauges(lane) => lane.show_valid(),
            MetricLane::PulledGauges(lane) => lane.show_valid(),
            MetricLane::Events(lane) => lane.show_valid(),
            MetricLane::Sums(lane) => lane.show_valid(),
            MetricLane::Longest(lane) => lane.show_valid(),
        }
    }

    fn flatten(&self, alloc: Global, out: &mut Items) -> Result<(), AllocError> {
        match self {
            MetricLane::Counts(lane) => flatten_kind(0, lane, alloc, out),
            MetricLane::Values(lane) => flatten_kind(1, lane, alloc, out),
            MetricLane::PulledValues(lane) => flatten_kind(2, lane, alloc, out),
            MetricLane::Gauges(lane) => flatten_kind(3, lane, alloc, out),
            MetricLane::PulledGauges(lane) => flatten_kind(4, lane, alloc, out),
            MetricLane::Events(lane) => flatten_kind(5, lane, alloc, out),
            MetricLane::Sums(lane) => flatten_kind(6, lane, alloc, out),
            MetricLane::Longest(lane) => flatten_kind(7, lane, alloc, out),
        }
    }

    fn build(alloc: Global, items: &Items, place: usize) -> Result<(MetricLane, usize), FlatError> {
        let (kind, middle) = u64::build(alloc, items, place)?;
        match kind {
            0 => build_kind::<CountLane>(alloc, items, place, middle),
            1 => build_kind::<Lane<PushedValue>>(alloc, items, place, middle),
            2 => build_kind::<Lane<PulledValue>>(alloc, items, place, middle),
            3 => build_kind::<Lane<PushedGauge>>(alloc, items, place, middle),
            4 => build_kind::<Lane<PulledGauge>>(alloc, items, place, middle),
            5 => build_kind::<Lane<EventProducer>>(alloc, items, place, middle),
            6 => build_kind::<Lane<SumProducer>>(alloc, items, place, middle),
            7 => build_kind::<Lane<MaxProducer>>(alloc, items, place, middle),
            _ => Err(FlatError::Bad),
        }
    }
}
