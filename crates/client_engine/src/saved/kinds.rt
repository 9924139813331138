//! The kinds of lanes, each with its number.
ghost use Rattle.std.specs.Prelude.{◌≡◌, ℕ, ◌∷◌, ◌++◌, OnOk, OnErr};
ghost use Rattle.flat_form.specs.declared.item.Item.TheVariants.{Num};
ghost use Rattle.flat_form.specs.Flat.{Anything, IsFront, IsBuilt, Builds, number_items};
ghost use Rattle.client_engine.specs.SavedLanes.{kind_number, kind_items, metric_lane_items, IsMetricLane};
ghost use Rattle.client_engine.specs.declared.lanes.MetricLane as lane_kinds;

use crate::kinds::counts::CountLane;
use crate::lanes::MetricLane;
use duration_metric::{MaxProducer, SumProducer};
use flat_form::{Flat, FlatError, Item, Items};
use gauge_metric::{EventProducer, PulledGauge, PushedGauge};
use metric_lane::Lane;
use std::alloc::{AllocError, Global};
use value_metric::{PulledValue, PushedValue};

/// What lanes of one kind have.
pub trait LaneKind: Flat {
    /// The number of the kind.
    ghost number: { ℕ };

    /// The lane that has this.
    ghost wrap: { Self → lane_kinds.MetricLane };

    /// The same.
    fn into_lane(self) -> MetricLane
        ensures { result ≡ wrap self };

    /// It is of the kind.
    ghost as_kind: { (held : Self) → kind_number (wrap held) ≡ number };

    /// It has the items of this.
    ghost as_items: { (held : Self) → kind_items (wrap held) ≡ Self.flat held };

    /// It is valid where this is.
    ghost is_lane: { (held : Self) → Self.valid held → IsMetricLane (wrap held) };

    /// Each valid lane of the kind has such a thing.
    ghost of_kind: { (lane : lane_kinds.MetricLane) → IsMetricLane lane → kind_number lane ≡ number
        → (held : Self) × (Self.valid held × (lane ≡ wrap held)) };
}

/// Adds the number of a kind, and the items of what a lane of the kind has.
pub fn flatten_kind<K: Flat>(
    number: u64,
    held: &K,
    alloc: Global,
    out: &mut Items,
) -> Result<(), AllocError>
    ensures added { OnOk result (out.new ≡ out.old ++ Num number ∷ K.flat held.now) }
    ensures valid { OnOk result (K.valid held.now) }
    ensures err { OnErr result (IsFront out.old out.new) }
{
    out.push(Item::Num(number))?;
    held.flatten(alloc, out)
}

/// The lane of a kind whose number stands at a place, and the place after it: it has what stands after the number.
pub fn build_kind<K: LaneKind + Drop>(
    alloc: Global,
    items: &Items,
    place: usize,
    middle: usize,
) -> Result<(MetricLane, usize), FlatError>
    requires { IsBuilt Anything number_items items.now place K.number middle }
    ensures { Builds IsMetricLane metric_lane_items items.now place result }
{
    let (held, next) = K::build(alloc, items, middle)?;
    Ok((held.into_lane(), next))
}

impl LaneKind for CountLane {
    ghost use Rattle.std.proofs.Common.{refl};
    ghost use Rattle.client_engine.specs.declared.lanes.MetricLane.TheVariants.{Counts};
    ghost use Rattle.client_engine.specs.LaneKinds.{of_counts};

    ghost number = { 0 };

    ghost wrap = { λ held. Counts held };

    ghost as_kind = { λ held. refl };

    ghost as_items = { λ held. refl };

    ghost is_lane = { λ held valid. valid };

    ghost of_kind = { of_counts };

    fn into_lane(self) -> MetricLane {
        MetricLane::Counts(self)
    }
}

impl LaneKind for Lane<PushedValue> {
    ghost use Rattle.std.proofs.Common.{refl};
    ghost use Rattle.client_engine.specs.declared.lanes.MetricLane.TheVariants.{Values};
    ghost use Rattle.client_engine.specs.LaneKinds.{of_values};

    ghost number = { 1 };

    ghost wrap = { λ held. Values held };

    ghost as_kind = { λ held. refl };

    ghost as_items = { λ held. refl };

    ghost is_lane = { λ held valid. valid };

    ghost of_kind = { of_values };

    fn into_lane(self) -> MetricLane {
        MetricLane::Values(self)
    }
}

impl LaneKind for Lane<PulledValue> {
    ghost use Rattle.std.proofs.Common.{refl};
    ghost use Rattle.client_engine.specs.declared.lanes.MetricLane.TheVariants.{PulledValues};
    ghost use Rattle.client_engine.specs.LaneKinds.{of_pulled_values};

    ghost number = { 2 };

    ghost wrap = { λ held. PulledValues held };

    ghost as_kind = { λ held. refl };

    ghost as_items = { λ held. refl };

    ghost is_lane = { λ held valid. valid };

    ghost of_kind = { of_pulled_values };

    fn into_lane(self) -> MetricLane {
        MetricLane::PulledValues(self)
    }
}

impl LaneKind for Lane<PushedGauge> {
    ghost use Rattle.std.proofs.Common.{refl};
    ghost use Rattle.client_engine.specs.declared.lanes.MetricLane.TheVariants.{Gauges};
    ghost use Rattle.client_engine.specs.LaneKinds.{of_gauges};

    ghost number = { 3 };

    ghost wrap = { λ held. Gauges held };

    ghost as_kind = { λ held. refl };

    ghost as_items = { λ held. refl };

    ghost is_lane = { λ held valid. valid };

    ghost of_kind = { of_gauges };

    fn into_lane(self) -> MetricLane {
        MetricLane::Gauges(self)
    }
}

impl LaneKind for Lane<PulledGauge> {
    ghost use Rattle.std.proofs.Common.{refl};
    ghost use Rattle.client_engine.specs.declared.lanes.MetricLane.TheVariants.{PulledGauges};
    ghost use Rattle.client_engine.specs.LaneKinds.{of_pulled_gauges};

    ghost number = { 4 };

    ghost wrap = { λ held. PulledGauges held };

    ghost as_kind = { λ held. refl };

    ghost as_items = { λ held. refl };

    ghost is_lane = { λ held valid. valid };

    ghost of_kind = { of_pulled_gauges };

    fn into_lane(self) -> MetricLane {
        MetricLane::PulledGauges(self)
    }
}

impl LaneKind for Lane<EventProducer> {
    ghost use Rattle.std.proofs.Common.{refl};
    ghost use Rattle.client_engine.specs.declared.lanes.MetricLane.TheVariants.{Events};
    ghost use Rattle.client_engine.specs.LaneKinds.{of_events};

    ghost number = { 5 };

    ghost wrap = { λ held. Events held };

    ghost as_kind = { λ held. refl };

    ghost as_items = { λ held. refl };

    ghost is_lane = { λ held valid. valid };

    ghost of_kind = { of_events };

    fn into_lane(self) -> MetricLane {
        MetricLane::Events(self)
    }
}

impl LaneKind for Lane<SumProducer> {
    ghost use Rattle.std.proofs.Common.{refl};
    ghost use Rattle.client_engine.specs.declared.lanes.MetricLane.TheVariants.{Sums};
    ghost use Rattle.client_engine.specs.LaneKinds.{of_sums};

    ghost number = { 6 };

    ghost wrap = { λ held. Sums held };

    ghost as_kind = { λ held. refl };

    ghost as_items = { λ held. refl };

    ghost is_lane = { λ held valid. valid };

    ghost of_kind = { of_sums };

    fn into_lane(self) -> MetricLane {
        MetricLane::Sums(self)
    }
}

impl LaneKind for Lane<MaxProducer> {
    ghost use Rattle.std.proofs.Common.{refl};
    ghost use Rattle.client_engine.specs.declared.lanes.MetricLane.TheVariants.{Longest};
    ghost use Rattle.client_engine.specs.LaneKinds.{of_longest};

    ghost number = { 7 };

    ghost wrap = { λ held. Longest held };

    ghost as_kind = { λ held. refl };

    ghost as_items = { λ held. refl };

    ghost is_lane = { λ held valid. valid };

    ghost of_kind = { of_longest };

    fn into_lane(self) -> MetricLane {
        MetricLane::Longest(self)
    }
}
