//! The flat form of a lane of counts: the lane, and the watches beside it. Its room isn't saved.

use super::CountLane;
use alert_watch::AlertWatch;
use count_metric::CountProducer;
use flat_form::{Flat, FlatError, Items};
use known_conditions::{KeyRoom, flatten_list, show_list};
use metric_lane::Lane;
use sd_base::Seq;
use std::alloc::{AllocError, Global};

impl Flat for CountLane {
    ghost use Rattle.std.proofs.Common.{refl};
    ghost use Rattle.flat_form.specs.Bounded.{short_head};
    ghost use Rattle.client_engine.specs.SavedLanes.{watched_items, IsWatchedLane};
    ghost use Rattle.client_engine.specs.SavedSizes.{IsSavableWatched, watched_entries, watched_bounded, watched_few, watched_savable};

    ghost flat = { watched_items };

    ghost valid = { IsWatchedLane };

    ghost savable = { IsSavableWatched };

    ghost head = { 0 };

    ghost short = { short_head 0 refl };

    ghost entries = { watched_entries };

    ghost bounded = { watched_bounded };

    ghost few = { watched_few };

    ghost spells = { watched_savable };

    fn show_valid(&self) {
        self.lane.show_valid();
        show_list(self.watches.as_slice());
    }

    fn flatten(&self, alloc: Global, out: &mut Items) -> Result<(), AllocError> {
        self.show_valid();
        self.lane.flatten(alloc, out)?;
        flatten_list(self.watches.as_slice(), alloc, out)
    }

    fn build(alloc: Global, items: &Items, place: usize) -> Result<(CountLane, usize), FlatError> {
        let (form, next) = <(Lane<CountProducer>, Seq<AlertWatch>)>::build(alloc, items, place)?;
        let (lane, watches) = form;
        let lane = CountLane {
            lane,
            watches: watches.into_vec(),
            room: KeyRoom::new(alloc),
        };
        Ok((lane, next))
    }
}
