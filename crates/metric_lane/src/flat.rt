//! The flat form of a lane: its clock, if it has one, and its producer.
ghost use Rattle.flat_form.specs.Bounded.{parts_short};

use crate::Lane;
use bucket_clock::Clock;
use flat_form::{Flat, FlatError, Items};
use metric_producer::Producer;
use std::alloc::{AllocError, Global};

impl<P: Producer + Flat + Drop> Flat for Lane<P> {
    ghost use Rattle.std.specs.Prelude.{◌+◌, length};
    ghost use Rattle.flat_form.specs.Weight.{head_within, entries_within};
    ghost use Rattle.metric_lane.specs.LaneItems.{clock_head, lane_items, IsLane, IsSavableLane, lane_bounded, lane_few, lane_savable};

    ghost flat = { lane_items P.flat };

    ghost valid = { IsLane P.valid };

    ghost savable = { IsSavableLane P.savable };

    ghost head = { head_within (clock_head + P.head) };

    ghost short = { parts_short (clock_head + P.head) };

    ghost entries = { λ lane. entries_within (clock_head + P.head)
        (length (lane_items P.flat lane)) (P.entries lane.producer) };

    ghost bounded = { lane_bounded P.flat P.valid P.head P.entries P.bounded };

    ghost few = { lane_few P.flat P.head P.entries P.few };

    ghost spells = { lane_savable P.flat P.valid P.savable P.spells };

    fn show_valid(&self) {
        self.clock.show_valid();
        self.producer.show_valid();
    }

    fn flatten(&self, alloc: Global, out: &mut Items) -> Result<(), AllocError> {
        Flat::flatten(&self.clock, alloc, out)?;
        self.producer.flatten(alloc, out)
    }

    fn build(alloc: Global, items: &Items, place: usize) -> Result<(Lane<P>, usize), FlatError> {
        let (parts, next) = <(Option<Clock>, P)>::build(alloc, items, place)?;
        let (clock, producer) = parts;
        Ok((Lane { clock, producer }, next))
    }
}
