//! The flat form of longest durations.
ghost use Rattle.std.proofs.Common.{refl};
ghost use Rattle.std.specs.Prelude.{◌≡◌};
ghost use Rattle.flat_form.specs.Bounded.{short_head};
ghost use Rattle.duration_metric.specs.SparseForm.{RestoresLongest};

use crate::flat::{decode_flag, encode_flag};
use crate::sparse_books::SparseBooks;
use crate::sparse_keys::{SparseEntry, SparseKeys};
use crate::{MaxProducer, Row};
use atom_record::{DimKey, MetricKey};
use config_types::PredSpec;
use dim_table::Guarded;
use flat_form::{Flat, FlatError, Items};
use kept_rows::KeptRows;
use std::alloc::{AllocError, Global};

/// How inner keys are kept: two flags, for how many there is room, and how many leaves each has.
type SpecParts = ((u64, u64), (u64, u64));

/// The inner keys, the longest times of the open part, and the rows of closed ones.
type Tables = (
    Guarded<DimKey, SparseEntry>,
    (Guarded<MetricKey, u64>, KeptRows<Row<u64>>),
);

/// The parts of a longest duration.
type Parts = (SpecParts, (u64, (u64, (u64, Tables))));

// The producer that has these parts, or none where no producer has them.
fn restore(parts: Parts) -> Option<MaxProducer>
    ensures { RestoresLongest parts result }
{
    let (((nesting, at_first), (bound, leaves)), (now, (start, (lost, tables)))) = parts;
    let (keys, (table, kept)) = tables;
    let nesting = decode_flag(nesting)?;
    let at_first = decode_flag(at_first)?;
    let unknown = decode_flag(now)?;
    if bound > u32::MAX as u64 || leaves > u32::MAX as u64 {
        return None;
    }
    Some(MaxProducer {
        keys: SparseKeys {
            spec: PredSpec {
                nesting,
                unknown: at_first,
                bound: bound as u32,
                leaves: leaves as u32,
            },
            unknown,
            table: keys,
        },
        books: SparseBooks {
            start,
            table,
            lost,
            kept,
        },
    })
}

impl Flat for MaxProducer {
    ghost use Rattle.duration_metric.specs.SparseItems.{longest_items, IsLongest, IsSavableLongest, longest_entries, longest_bounded, longest_few, longest_savable};

    ghost flat = { longest_items };

    ghost valid = { IsLongest };

    ghost savable = { IsSavableLongest };

    ghost head = { 16 };

    ghost short = { short_head 16 refl };

    ghost entries = { longest_entries };

    ghost bounded = { longest_bounded };

    ghost few = { longest_few };

    ghost spells = { longest_savable };

    fn show_valid(&self) {
        let _bound = self.keys.spec.bound;
        let _leaves = self.keys.spec.leaves;
        self.keys.table.show_valid();
        self.books.table.show_valid();
        self.books.kept.show_valid();
    }

    fn flatten(&self, alloc: Global, out: &mut Items) -> Result<(), AllocError> {
        let spec = self.keys.spec;
        let flags = (encode_flag(spec.nesting), encode_flag(spec.unknown));
        let sizes = (spec.bound as u64, spec.leaves as u64);
        (flags, sizes).flatten(alloc, out)?;
        encode_flag(self.keys.unknown).flatten(alloc, out)?;
        (self.books.start, self.books.lost).flatten(alloc, out)?;
        self.keys.table.flatten(alloc, out)?;
        self.books.table.flatten(alloc, out)?;
        self.books.kept.flatten(alloc, out)
    }

    fn build(
        alloc: Global,
        items: &Items,
        place: usize,
    ) -> Result<(MaxProducer, usize), FlatError> {
        let (parts, next) = Parts::build(alloc, items, place)?;
        let Some(longest) = restore(parts) else {
            return Err(FlatError::Bad);
        };
        Ok((longest, next))
    }
}
