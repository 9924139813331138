//! The flat form of a clock: four numbers.
ghost use Rattle.std.proofs.Common.{refl};
ghost use Rattle.std.specs.Prelude.{◌≡◌};

use crate::Clock;
use flat_form::{Flat, FlatError, Items};
use std::alloc::{AllocError, Global};

impl Flat for Clock {
    ghost use Rattle.flat_form.specs.Bounded.{short_head, none_few};
    ghost use Rattle.bucket_clock.specs.ClockItems.{clock_items, IsClock, clock_bounded, clock_savable};

    ghost flat = { clock_items };

    ghost valid = { IsClock };

    ghost head = { 4 };

    ghost short = { short_head 4 refl };

    ghost bounded = { clock_bounded };

    ghost few = { none_few clock_items };

    ghost spells = { clock_savable };

    fn show_valid(&self) {
        let _base = self.base();
    }

    fn flatten(&self, alloc: Global, out: &mut Items) -> Result<(), AllocError> {
        let buckets = (self.base(), self.bucket_size());
        let part = (self.part_start(), self.next_end());
        (buckets, part).flatten(alloc, out)
    }

    fn build(alloc: Global, items: &Items, place: usize) -> Result<(Clock, usize), FlatError> {
        let (form, next) = <((u64, u64), (u64, u64))>::build(alloc, items, place)?;
        let ((base, size), (start, next_end)) = form;
        let Some(clock) = Clock::restore(base, size, start, next_end) else {
            return Err(FlatError::Bad);
        };
        Ok((clock, next))
    }
}
