//! The matchers that a predicate and a metric name themselves.
ghost use Rattle.std.specs.Prelude.{◌≡◌, ◌++◌, OnOk};
ghost use Rattle.std.specs.List.{flat_map};
ghost use Rattle.config_links.specs.OwnMatchers.{place_named, predicate_matchers, kind_matchers, activation_matchers, metric_matchers};

use crate::linked::{LActivation, LKind, LMetric, LPredBody};
use sd_base::Seq;
use std::alloc::AllocError;

impl LPredBody {
    /// Adds the places of its matchers: of those that stop it at all keys, stop it and start it, as far as it names
    /// them.
    pub fn add_matchers(&self, places: &mut Seq<u32>) -> Result<(), AllocError>
        ensures { OnOk result (places.new ≡ places.old ++ predicate_matchers self.now) }
    {
        match self {
            LPredBody::Simple {
                start,
                stop,
                stop_all,
                ..
            } => {
                add_named(places, *stop_all)?;
                add_named(places, *stop)?;
                add_named(places, *start)
            }
            LPredBody::Combo { .. } => Ok(()),
        }
    }
}

impl LMetric {
    /// Adds the places of its matchers: of what it counts, unless that is a predicate, of a trigger, and of what starts
    /// and cancels its activations.
    pub fn add_matchers(&self, places: &mut Seq<u32>) -> Result<(), AllocError>
        ensures { OnOk result (places.new ≡ places.old ++ metric_matchers self.now) }
    {
        add_of_kind(places, self.what, &self.kind)?;
        add_starting(places, self.activations.as_slice())
    }
}

// Adds the matchers by which a metric of this kind gets atoms.
fn add_of_kind(places: &mut Seq<u32>, what: u32, kind: &LKind) -> Result<(), AllocError>
    ensures { OnOk result (places.new ≡ places.old ++ kind_matchers what kind.now) }
{
    match kind {
        LKind::PulledGauge { trigger, .. } => {
            places.push(what)?;
            add_named(places, *trigger)
        }
        LKind::SumDuration { .. } | LKind::MaxSparse { .. } => Ok(()),
        LKind::Event
        | LKind::Count { .. }
        | LKind::PushedValue { .. }
        | LKind::PulledValue { .. }
        | LKind::PushedGauge { .. } => places.push(what),
    }
}

// Adds the matchers that start and cancel these.
fn add_starting(places: &mut Seq<u32>, activations: &[LActivation]) -> Result<(), AllocError>
    ensures { OnOk result (places.new ≡ places.old ++ flat_map activation_matchers activations.now) }
{
    for activation in activations {
        add_of_activation(places, activation)?;
    }
    Ok(())
}

// Adds the matchers that start and cancel an activation.
fn add_of_activation(places: &mut Seq<u32>, activation: &LActivation) -> Result<(), AllocError>
    ensures { OnOk result (places.new ≡ places.old ++ activation_matchers activation.now) }
{
    places.push(activation.start)?;
    add_named(places, activation.cancel)
}

// Adds a place, if one is named.
fn add_named(places: &mut Seq<u32>, place: Option<u32>) -> Result<(), AllocError>
    ensures { OnOk result (places.new ≡ places.old ++ place_named place) }
{
    match place {
        Some(place) => places.push(place),
        None => Ok(()),
    }
}
