//! The flat form of rows, and of what a row of counts holds.
ghost use Rattle.std.proofs.Common.{refl};
ghost use Rattle.std.specs.Prelude.{◌≡◌, Bool, MatchOption};
ghost use Rattle.flat_form.specs.Bounded.{short_head};
ghost use Rattle.metric_producer.specs.CellItems.{overflow_number};

use crate::{CountCell, Row};
use atom_record::MetricKey;
use flat_form::{Flat, FlatError, Items};
use std::alloc::{AllocError, Global};

impl<V: Flat + Drop> Flat for Row<V> {
    ghost use Rattle.std.specs.Prelude.{◌+◌, length};
    ghost use Rattle.flat_form.specs.Weight.{head_within, entries_within};
    ghost use Rattle.flat_form.specs.Bounded.{parts_short};
    ghost use Rattle.metric_producer.specs.RowItems.{row_items, IsRow, IsSavableRow, row_bounded, row_few, row_savable};

    ghost flat = { row_items V.flat };

    ghost valid = { IsRow V.valid };

    ghost savable = { IsSavableRow V.savable };

    ghost head = { head_within (4 + V.head) };

    ghost short = { parts_short (4 + V.head) };

    ghost entries = { λ row. entries_within (4 + V.head)
        (length (row_items V.flat row)) (V.entries row.value) };

    ghost bounded = { row_bounded V.flat V.valid V.head V.entries V.bounded };

    ghost few = { row_few V.flat V.head V.entries V.few };

    ghost spells = { row_savable V.flat V.valid V.savable V.spells };

    fn show_valid(&self) {
        self.value.show_valid();
    }

    fn flatten(&self, alloc: Global, out: &mut Items) -> Result<(), AllocError> {
        self.key.flatten(alloc, out)?;
        (self.start, self.end).flatten(alloc, out)?;
        self.value.flatten(alloc, out)
    }

    fn build(alloc: Global, items: &Items, place: usize) -> Result<(Row<V>, usize), FlatError> {
        let (form, next) = <((MetricKey, (u64, u64)), V)>::build(alloc, items, place)?;
        let ((key, (start, end)), value) = form;
        let row = Row {
            key,
            start,
            end,
            value,
        };
        Ok((row, next))
    }
}

// Whether a row is an overflow row, as a number.
fn encode_overflow(overflow: bool) -> u64
    ensures { result ≡ overflow_number overflow }
{
    if overflow { 1 } else { 0 }
}

// Whether a row is an overflow row by a number, or none where it is another number.
fn decode_overflow(number: u64) -> Option<bool>
    ensures { MatchOption result ((overflow : Bool) → ¬ (overflow_number overflow ≡ number))
        (λ overflow. overflow_number overflow ≡ number) }
{
    match number {
        0 => Some(false),
        1 => Some(true),
        _ => None,
    }
}

impl Flat for CountCell {
    ghost use Rattle.flat_form.specs.Bounded.{none_few};
    ghost use Rattle.metric_producer.specs.CellItems.{cell_items, cell_bounded, cell_savable};

    ghost flat = { cell_items };

    ghost head = { 2 };

    ghost short = { short_head 2 refl };

    ghost bounded = { cell_bounded };

    ghost few = { none_few cell_items };

    ghost spells = { cell_savable };

    fn show_valid(&self) {}

    fn flatten(&self, alloc: Global, out: &mut Items) -> Result<(), AllocError> {
        (self.number, encode_overflow(self.overflow)).flatten(alloc, out)
    }

    fn build(alloc: Global, items: &Items, place: usize) -> Result<(CountCell, usize), FlatError> {
        let (form, next) = <(u64, u64)>::build(alloc, items, place)?;
        let (number, flag) = form;
        let Some(overflow) = decode_overflow(flag) else {
            return Err(FlatError::Bad);
        };
        Ok((CountCell { number, overflow }, next))
    }
}
