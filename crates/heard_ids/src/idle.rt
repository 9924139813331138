//! The truths of matchers where no simple one holds.
ghost use Rattle.std.specs.Prelude.{◌≡◌, ◌<◌, ◌^◌, length, map, Some, IfOk};
ghost use Rattle.link_graph.specs.Links.{AreInRange, HasNoCycle, IsOrder};
ghost use Rattle.matcher_truths.specs.MatcherTruths.{named_places};
ghost use Rattle.heard_ids.specs.Hearing.{idle_from, silent_truths, truth_listed};

use crate::heeded::is_true_at;
use config_links::LMatcher;
use link_graph::order_of;
use matcher_eval::combine;
use sd_base::Seq;
use std::alloc::{AllocError, Global};

/// The truth of each matcher where no simple one holds, in config order.
pub(crate) fn silent_truths(alloc: Global, matchers: &[LMatcher]) -> Result<Vec<bool>, AllocError>
    requires few { length matchers.now < 2 ^ 32 }
    requires in_range { AreInRange (named_places matchers.now) }
    requires no_cycle { HasNoCycle (named_places matchers.now) }
    ensures { IfOk result (λ truths. truths.items ≡ silent_truths matchers.now) }
{
    let order = evaluation_order(alloc, matchers)?;
    truths_along(alloc, matchers, order.as_slice())
}

// The same along an order in which each matcher comes after those that it names.
fn truths_along(
    alloc: Global,
    matchers: &[LMatcher],
    order: &[u32],
) -> Result<Vec<bool>, AllocError>
    requires in_range { AreInRange (named_places matchers.now) }
    requires no_cycle { HasNoCycle (named_places matchers.now) }
    requires in_order { IsOrder (named_places matchers.now) order.now }
    ensures { IfOk result (λ truths. truths.items ≡ silent_truths matchers.now) }
{
    let mut truths = Vec::new(alloc);
    truths.resize(matchers.len(), false)?;
    for place in order {
        let at = *place as usize;
        let truth = idle_truth(alloc, &matchers[at], truths.as_slice())?;
        truths[at] = truth;
    }
    Ok(truths)
}

// An order in which each of the matchers, of which none is below itself, comes after those that it names.
fn evaluation_order(alloc: Global, matchers: &[LMatcher]) -> Result<Seq<u32>, AllocError>
    requires few { length matchers.now < 2 ^ 32 }
    requires in_range { AreInRange (named_places matchers.now) }
    requires no_cycle { HasNoCycle (named_places matchers.now) }
    ensures { IfOk result (IsOrder (named_places matchers.now)) }
{
    match order_of(alloc, matchers)? {
        Some(order) => Ok(order),
        None => unreachable!(),
    }
}

// The truth of a matcher where no simple one holds, from those at the places that it names.
fn idle_truth(alloc: Global, matcher: &LMatcher, truths: &[bool]) -> Result<bool, AllocError>
    ensures { IfOk result (λ truth. truth
        ≡ idle_from (λ place. truth_listed place truths.now) (Some matcher.now)) }
{
    match matcher {
        LMatcher::Simple(_) => Ok(false),
        LMatcher::Combo { op, children } => {
            let below = truths_at(alloc, children.as_slice(), truths)?;
            Ok(combine(*op, below.as_slice()))
        }
    }
}

// The truths at these places.
fn truths_at(alloc: Global, places: &[u32], truths: &[bool]) -> Result<Vec<bool>, AllocError>
    ensures { IfOk result (λ below. below.items
        ≡ map (λ place. truth_listed place truths.now) places.now) }
{
    let mut below = Vec::new(alloc);
    for place in places {
        below.push(is_true_at(*place, truths))?;
    }
    Ok(below)
}
