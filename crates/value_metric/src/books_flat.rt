//! The flat forms of books and of a producer of pushed values.
ghost use Rattle.std.proofs.Common.{refl};
ghost use Rattle.std.specs.Prelude.{◌≡◌};
ghost use Rattle.flat_form.specs.Bounded.{short_head};
ghost use Rattle.value_metric.specs.BooksItems.{books_of_form};

use crate::numbers::{aggregation_of, flag_of, number_of_aggregation, number_of_flag};
use crate::value_books::ValueBooks;
use crate::{PushedValue, Row};
use atom_record::MetricKey;
use dim_table::Guarded;
use flat_form::{Flat, FlatError, Items};
use kept_rows::KeptRows;
use std::alloc::{AllocError, Global};

/// The table and the kept rows.
type Rest = (Guarded<MetricKey, Option<i128>>, KeptRows<Row<i64>>);

/// The parts of books.
type Parts = (u64, (u64, (u64, (u64, Rest))));

// The books of some parts, if there are any.
fn books_by(alloc: Global, parts: Parts) -> Option<ValueBooks>
    ensures { result ≡ books_of_form alloc parts }
{
    let (start, (aggregation, (hides_zeros, (missing, (table, kept))))) = parts;
    let aggregation = aggregation_of(aggregation)?;
    let hides_zeros = flag_of(hides_zeros)?;
    Some(ValueBooks {
        start,
        aggregation,
        hides_zeros,
        table,
        kept,
        missing,
        alloc,
    })
}

impl Flat for ValueBooks {
    ghost use Rattle.value_metric.specs.BooksItems.{books_items, AreValueBooks, AreSavableBooks, books_entries, books_bounded, books_few, books_savable};

    ghost flat = { books_items };

    ghost valid = { AreValueBooks };

    ghost savable = { AreSavableBooks };

    ghost head = { 10 };

    ghost short = { short_head 10 refl };

    ghost entries = { books_entries };

    ghost bounded = { books_bounded };

    ghost few = { books_few };

    ghost spells = { books_savable };

    fn show_valid(&self) {
        self.table.show_valid();
        self.kept.show_valid();
    }

    fn flatten(&self, alloc: Global, out: &mut Items) -> Result<(), AllocError> {
        let aggregation = number_of_aggregation(self.aggregation);
        let hides_zeros = number_of_flag(self.hides_zeros);
        (self.start, (aggregation, (hides_zeros, self.missing))).flatten(alloc, out)?;
        self.table.flatten(alloc, out)?;
        self.kept.flatten(alloc, out)
    }

    fn build(alloc: Global, items: &Items, place: usize) -> Result<(ValueBooks, usize), FlatError> {
        let (parts, next) = Parts::build(alloc, items, place)?;
        let Some(books) = books_by(alloc, parts) else {
            return Err(FlatError::Bad);
        };
        Ok((books, next))
    }
}

impl Flat for PushedValue {
    ghost use Rattle.value_metric.specs.BooksItems.{pushed_value_items, IsPushedValue, IsSavablePushedValue, pushed_value_entries, pushed_value_bounded, pushed_value_few, pushed_value_savable};

    ghost flat = { pushed_value_items };

    ghost valid = { IsPushedValue };

    ghost savable = { IsSavablePushedValue };

    ghost head = { 10 };

    ghost short = { short_head 10 refl };

    ghost entries = { pushed_value_entries };

    ghost bounded = { pushed_value_bounded };

    ghost few = { pushed_value_few };

    ghost spells = { pushed_value_savable };

    fn show_valid(&self) {
        self.books.show_valid();
    }

    fn flatten(&self, alloc: Global, out: &mut Items) -> Result<(), AllocError> {
        self.books.flatten(alloc, out)
    }

    fn build(
        alloc: Global,
        items: &Items,
        place: usize,
    ) -> Result<(PushedValue, usize), FlatError> {
        let (books, next) = ValueBooks::build(alloc, items, place)?;
        Ok((PushedValue { books }, next))
    }
}
