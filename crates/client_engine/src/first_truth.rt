//! What a pulled metric asks where it is installed.
ghost use Rattle.std.specs.Prelude.{◌≡◌, ◌<◌, length, IfOk};
ghost use Rattle.config_links.specs.SoundConfig.{MayBeWithin};
ghost use Rattle.metric_meaning.specs.SnapshotSteps.{nothing_read};
ghost use Rattle.known_conditions.specs.Known.{truth_by};

use condition_links::Steps;
use config_links::LMetric;
use known_conditions::{Conditions, Nothing};
use predicate_state::Truth;
use std::alloc::{AllocError, Global};
use std::marker::Brand;
use std::sync::ledger::{Blank, Ledger};

/// The truth of a pulled metric's condition where it is installed. The question is on a counter of its own.
pub fn first_truth(
    alloc: Global,
    metric: &LMetric,
    conditions: &mut Conditions,
) -> Result<Truth, AllocError>
    requires within { MayBeWithin (length conditions.old.predicates) metric.now.condition }
    ensures truth { IfOk result (λ truth. truth
        ≡ truth_by conditions.old metric.now nothing_read) }
    ensures known { conditions.new ≡ conditions.old }
{
    counted_truth::<Brand>(Blank::new(1), alloc, metric, conditions)
}

// The same, where a new ledger counts.
fn counted_truth<L: Ledger>(
    blank: Blank,
    alloc: Global,
    metric: &LMetric,
    conditions: &mut Conditions,
) -> Result<Truth, AllocError>
    requires name { blank.name ≡ L.name }
    requires parts { blank.parts ≡ L.parts }
    requires some { 0 < blank.parts }
    requires within { MayBeWithin (length conditions.old.predicates) metric.now.condition }
    ensures truth { IfOk result (λ truth. truth
        ≡ truth_by conditions.old metric.now nothing_read) }
    ensures known { conditions.new ≡ conditions.old }
{
    let mut asks: Steps<L> = Steps::new(blank);
    conditions.truth(alloc, metric, &Nothing, &mut asks)
}
