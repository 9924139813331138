//! The flat form of kept rows: their weight, the number of the others, and the rows.
ghost use Rattle.std.proofs.Common.{refl};
ghost use Rattle.flat_form.specs.Bounded.{short_head};
ghost use Rattle.std.specs.Prelude.{◌≡◌};

use crate::{KeptRows, Weighed};
use flat_form::{Flat, FlatError, Items};
use sd_base::Seq;
use std::alloc::{AllocError, Global};

impl<R: Weighed + Flat + Drop> Flat for KeptRows<R> {
    ghost use Rattle.kept_rows.specs.KeptItems.{kept_items, kept_entries, IsKeeping, AreSavableRows, kept_bounded, kept_few, kept_savable};

    ghost flat = { kept_items R.flat };

    ghost valid = { IsKeeping R.weigh R.valid };

    ghost savable = { AreSavableRows R.savable };

    ghost head = { 3 };

    ghost short = { short_head 3 refl };

    ghost entries = { kept_entries R.flat };

    ghost bounded = { kept_bounded R.flat R.weigh R.valid };

    ghost few = { kept_few R.flat };

    ghost spells = { kept_savable R.flat R.weigh R.valid R.savable R.spells };

    fn show_valid(&self) {
        self.rows().show_valid();
    }

    fn flatten(&self, alloc: Global, out: &mut Items) -> Result<(), AllocError> {
        (self.weight(), self.not_kept()).flatten(alloc, out)?;
        self.rows().flatten(alloc, out)
    }

    fn build(
        alloc: Global,
        items: &Items,
        place: usize,
    ) -> Result<(KeptRows<R>, usize), FlatError> {
        let (form, next) = <((u64, u64), Seq<R>)>::build(alloc, items, place)?;
        let ((used, others), rows) = form;
        let Some(kept) = KeptRows::restore(alloc, rows, used, others) else {
            return Err(FlatError::Bad);
        };
        Ok((kept, next))
    }
}
