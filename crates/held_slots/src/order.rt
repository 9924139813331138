//! The order in which matchers are interned.
ghost use Rattle.std.specs.Prelude.{◌<◌, ◌^◌, length, IfOk};
ghost use Rattle.link_graph.specs.Links.{AreInRange, HasNoCycle, IsOrder};
ghost use Rattle.matcher_truths.specs.MatcherTruths.{named_places};

use config_links::LMatcher;
use link_graph::order_of;
use sd_base::Seq;
use std::alloc::{AllocError, Global};

/// An order in which each of the matchers, of which none is below itself, comes after those that it names.
pub(crate) fn interning_order(alloc: Global, matchers: &[LMatcher]) -> Result<Seq<u32>, AllocError>
    requires few { length matchers.now < 2 ^ 32 }
    requires in_range { AreInRange (named_places matchers.now) }
    requires no_cycle { HasNoCycle (named_places matchers.now) }
    ensures { IfOk result (IsOrder (named_places matchers.now)) }
{
    match order_of(alloc, matchers)? {
        Some(order) => Ok(order),
        None => unreachable!(),
    }
}
