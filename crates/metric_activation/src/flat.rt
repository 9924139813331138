//! The flat form of a book: its timers, each as two numbers.
ghost use Rattle.std.proofs.Common.{refl};
ghost use Rattle.std.specs.Prelude.{◌≡◌};

use crate::{ActBook, Timer};
use flat_form::{Flat, FlatError, Items};
use sd_base::Seq;
use std::alloc::{AllocError, Global};

impl Flat for Timer {
    ghost use Rattle.flat_form.specs.Bounded.{short_head, none_few};
    ghost use Rattle.metric_activation.specs.BookItems.{timer_items, timer_bounded, timer_savable};

    ghost flat = { timer_items };

    ghost head = { 2 };

    ghost short = { short_head 2 refl };

    ghost bounded = { timer_bounded };

    ghost few = { none_few timer_items };

    ghost spells = { timer_savable };

    fn show_valid(&self) {}

    fn flatten(&self, alloc: Global, out: &mut Items) -> Result<(), AllocError> {
        (self.ttl, self.end).flatten(alloc, out)
    }

    fn build(alloc: Global, items: &Items, place: usize) -> Result<(Timer, usize), FlatError> {
        let ((ttl, end), next) = <(u64, u64)>::build(alloc, items, place)?;
        Ok((Timer { ttl, end }, next))
    }
}

impl Flat for ActBook {
    ghost use Rattle.flat_form.specs.Bounded.{short_head};
    ghost use Rattle.metric_activation.specs.Timers.{AreTimers};
    ghost use Rattle.metric_activation.specs.BookItems.{act_book_items, act_book_entries, act_book_bounded, act_book_few, act_book_savable};

    ghost flat = { act_book_items };

    ghost valid = { AreTimers };

    ghost head = { 1 };

    ghost short = { short_head 1 refl };

    ghost entries = { act_book_entries };

    ghost bounded = { act_book_bounded };

    ghost few = { act_book_few };

    ghost spells = { act_book_savable };

    fn show_valid(&self) {
        let _timers = self.timers();
    }

    fn flatten(&self, alloc: Global, out: &mut Items) -> Result<(), AllocError> {
        let timers = Seq::from_slice(alloc, self.timers())?;
        timers.flatten(alloc, out)
    }

    fn build(alloc: Global, items: &Items, place: usize) -> Result<(ActBook, usize), FlatError> {
        let (timers, next) = Seq::<Timer>::build(alloc, items, place)?;
        let Some(book) = ActBook::restore(timers) else {
            return Err(FlatError::Bad);
        };
        Ok((book, next))
    }
}
