//! The flat form of sums of durations.
ghost use Rattle.std.proofs.Common.{refl};
ghost use Rattle.flat_form.specs.Bounded.{short_head};
ghost use Rattle.duration_metric.specs.SumForm.{RestoresSum};

use crate::counted::recount;
use crate::flat::{decode_flag, encode_flag};
use crate::inner::{Inner, InnerTable};
use crate::memory::Memory;
use crate::sum::{Span, Sums};
use crate::{Row, SumProducer};
use atom_record::{DimKey, MetricKey};
use dim_table::Guarded;
use flat_form::{Flat, FlatError, Items};
use kept_rows::KeptRows;
use sd_base::Seq;
use std::alloc::{AllocError, Global};

/// The spans of the open part, and the rows of closed ones.
type Books = (Guarded<MetricKey, Span>, KeptRows<Row<u64>>);

/// The inner keys, those that were touched, the output keys of those that left, and the books.
type Rest = (Guarded<DimKey, Inner>, (Seq<u64>, (Seq<MetricKey>, Books)));

/// The parts of a sum.
type Parts = (u64, (u64, (u64, (u64, Rest))));

// The sum that has these parts, or `Bad` where none has them.
fn restore(alloc: Global, parts: Parts) -> Result<SumProducer, FlatError>
    ensures { RestoresSum parts result }
{
    let (start, (reported, (nesting, (unknown, rest)))) = parts;
    let (keys, (touched, (gone, (table, kept)))) = rest;
    let Some(nesting) = decode_flag(nesting) else {
        return Err(FlatError::Bad);
    };
    let Some(unknown) = decode_flag(unknown) else {
        return Err(FlatError::Bad);
    };
    let tally = recount(&keys, gone.as_slice(), alloc)?;
    let sums = Sums {
        start,
        inner: InnerTable {
            nesting,
            unknown,
            keys,
            touched,
            gone,
        },
        tally,
        table,
        kept,
        reported,
        memory: Memory::new(alloc),
    };
    Ok(SumProducer { sums })
}

impl Flat for SumProducer {
    ghost use Rattle.duration_metric.specs.SumItems.{sum_producer_items, IsSumProducer, IsSavableSum, sum_entries, sum_bounded, sum_few, sum_savable};

    ghost flat = { sum_producer_items };

    ghost valid = { IsSumProducer };

    ghost savable = { IsSavableSum };

    ghost head = { 15 };

    ghost short = { short_head 15 refl };

    ghost entries = { sum_entries };

    ghost bounded = { sum_bounded };

    ghost few = { sum_few };

    ghost spells = { sum_savable };

    fn show_valid(&self) {
        self.sums.inner.keys.show_valid();
        self.sums.table.show_valid();
        self.sums.kept.show_valid();
    }

    fn flatten(&self, alloc: Global, out: &mut Items) -> Result<(), AllocError> {
        let sums = &self.sums;
        (sums.start, sums.reported).flatten(alloc, out)?;
        let kept = (
            encode_flag(sums.inner.nesting),
            encode_flag(sums.inner.unknown),
        );
        kept.flatten(alloc, out)?;
        sums.inner.keys.flatten(alloc, out)?;
        sums.inner.touched.flatten(alloc, out)?;
        sums.inner.gone.flatten(alloc, out)?;
        sums.table.flatten(alloc, out)?;
        sums.kept.flatten(alloc, out)
    }

    fn build(
        alloc: Global,
        items: &Items,
        place: usize,
    ) -> Result<(SumProducer, usize), FlatError> {
        let (parts, next) = Parts::build(alloc, items, place)?;
        let sums = restore(alloc, parts)?;
        Ok((sums, next))
    }
}
