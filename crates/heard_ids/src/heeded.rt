//! The matchers that a configuration heeds, and whether one of them holds.
ghost use Rattle.std.specs.Prelude.{◌≡◌, ◌++◌, IfOk, OnOk};
ghost use Rattle.std.specs.List.{flat_map};
ghost use Rattle.config_links.specs.declared.linked.LPredicate.{LPredicate};
ghost use Rattle.config_links.specs.OwnMatchers.{predicate_matchers, metric_matchers};
ghost use Rattle.heard_ids.specs.Hearing.{heeded_matchers, truth_listed, some_holds};

use config_links::{LMetric, LPredicate, Linked};
use sd_base::Seq;
use std::alloc::{AllocError, Global};

/// The matchers that a configuration heeds: those of its predicates, then those of its metrics.
pub(crate) fn heeded_matchers(alloc: Global, linked: &Linked) -> Result<Seq<u32>, AllocError>
    ensures { IfOk result (λ places. places ≡ heeded_matchers linked.now) }
{
    let mut places = Seq::new(alloc);
    add_of_predicates(&mut places, linked.predicates.as_slice())?;
    add_of_metrics(&mut places, linked.metrics.as_slice())?;
    Ok(places)
}

/// Whether one of the matchers at these places holds.
pub(crate) fn some_holds(places: &[u32], truths: &[bool]) -> bool
    ensures { result ≡ some_holds truths.now places.now }
{
    places.iter().any(|place| is_true_at(*place, truths))
}

/// The truth at a place.
pub(crate) fn is_true_at(place: u32, truths: &[bool]) -> bool
    ensures { result ≡ truth_listed place truths.now }
{
    match truths.get(place as usize) {
        Some(truth) => *truth,
        None => false,
    }
}

// Adds the matchers of predicates.
fn add_of_predicates(places: &mut Seq<u32>, predicates: &[LPredicate]) -> Result<(), AllocError>
    ensures { OnOk result (places.new ≡ places.old
        ++ flat_map (λ (predicate : LPredicate). predicate_matchers predicate.body) predicates.now) }
{
    for predicate in predicates {
        predicate.body.add_matchers(places)?;
    }
    Ok(())
}

// Adds the matchers of metrics.
fn add_of_metrics(places: &mut Seq<u32>, metrics: &[LMetric]) -> Result<(), AllocError>
    ensures { OnOk result (places.new ≡ places.old ++ flat_map metric_matchers metrics.now) }
{
    for metric in metrics {
        metric.add_matchers(places)?;
    }
    Ok(())
}
