//! The flat form of a producer of counts.
ghost use Rattle.std.proofs.Common.{refl};
ghost use Rattle.flat_form.specs.Bounded.{short_head};
ghost use Rattle.std.specs.Prelude.{◌≡◌};

use crate::{CountCell, CountProducer, Row};
use atom_record::MetricKey;
use dim_table::Guarded;
use flat_form::{Flat, FlatError, Items};
use kept_rows::KeptRows;
use std::alloc::{AllocError, Global};

/// The counts of the open part and the kept rows.
type Rest = (Guarded<MetricKey, u64>, KeptRows<Row<CountCell>>);

/// The parts of a producer of counts. What was spilled is saved as a row would hold it.
type Parts = (u64, (CountCell, Rest));

impl Flat for CountProducer {
    ghost use Rattle.count_metric.specs.CountItems.{count_items, HasBounds, IsSavableCount, count_entries, count_bounded, count_few, count_savable};

    ghost flat = { count_items };

    ghost valid = { HasBounds };

    ghost savable = { IsSavableCount };

    ghost head = { 9 };

    ghost short = { short_head 9 refl };

    ghost entries = { count_entries };

    ghost bounded = { count_bounded };

    ghost few = { count_few };

    ghost spells = { count_savable };

    fn show_valid(&self) {
        self.table.show_valid();
        self.kept.show_valid();
    }

    fn flatten(&self, alloc: Global, out: &mut Items) -> Result<(), AllocError> {
        let cell = CountCell {
            number: self.spilled,
            overflow: self.overflow,
        };
        (self.start, cell).flatten(alloc, out)?;
        self.table.flatten(alloc, out)?;
        self.kept.flatten(alloc, out)
    }

    fn build(
        alloc: Global,
        items: &Items,
        place: usize,
    ) -> Result<(CountProducer, usize), FlatError> {
        let (parts, next) = Parts::build(alloc, items, place)?;
        let (start, (cell, (table, kept))) = parts;
        let counts = CountProducer {
            start,
            overflow: cell.overflow,
            spilled: cell.number,
            table,
            kept,
            alloc,
        };
        Ok((counts, next))
    }
}
