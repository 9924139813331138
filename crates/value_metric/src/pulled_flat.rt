//! The flat forms of an open interval and of a producer of pulled values.
ghost use Rattle.std.proofs.Common.{refl};
ghost use Rattle.std.specs.Prelude.{◌≡◌, ◌++◌, OnOk, OnErr};
ghost use Rattle.flat_form.specs.Flat.{IsFront};
ghost use Rattle.flat_form.specs.Bounded.{short_head};
ghost use Rattle.value_metric.specs.PulledValueItems.{open_of_form, spec_items, spec_of_numbers, pulled_value_of_form};

use crate::PulledValue;
use crate::key_sums::KeySums;
use crate::numbers::{
    aggregation_of, direction_of, flag_of, number_of_aggregation, number_of_direction,
    number_of_flag,
};
use crate::pulled_value::Open;
use crate::value_books::ValueBooks;
use config_types::DiffSpec;
use flat_form::{Flat, FlatError, Items};
use std::alloc::{AllocError, Global};

/// What an interval is saved as: whether one is open, whether it began before the last snapshot, and with which sums.
type OpenForm = Option<Option<Option<KeySums>>>;

/// The numbers that tell how differences are taken.
type Numbers = (u64, (u64, (u64, (u64, u64))));

/// The parts of a producer of pulled values.
type Parts = (Numbers, (Option<KeySums>, (Open, ValueBooks)));

// The interval of a form.
fn open_by(form: OpenForm) -> Open
    ensures { result ≡ open_of_form form }
{
    match form {
        None => Open::Nothing,
        Some(None) => Open::AtLast,
        Some(Some(sums)) => Open::Earlier(sums),
    }
}

impl Flat for Open {
    ghost use Rattle.value_metric.specs.PulledValueItems.{open_items, IsOpen, IsSavableOpen, open_entries, open_bounded, open_few, open_savable};

    ghost flat = { open_items };

    ghost valid = { IsOpen };

    ghost savable = { IsSavableOpen };

    ghost head = { 4 };

    ghost short = { short_head 4 refl };

    ghost entries = { open_entries };

    ghost bounded = { open_bounded };

    ghost few = { open_few };

    ghost spells = { open_savable };

    fn show_valid(&self) {
        if let Open::Earlier(sums) = self {
            sums.show_valid();
        }
    }

    fn flatten(&self, alloc: Global, out: &mut Items) -> Result<(), AllocError> {
        let (no, yes): (u64, u64) = (0, 1);
        match self {
            Open::Nothing => no.flatten(alloc, out),
            Open::AtLast => (yes, no).flatten(alloc, out),
            Open::Earlier(sums) => {
                (yes, yes).flatten(alloc, out)?;
                Flat::flatten(sums, alloc, out)
            }
        }
    }

    fn build(alloc: Global, items: &Items, place: usize) -> Result<(Open, usize), FlatError> {
        let (form, next) = OpenForm::build(alloc, items, place)?;
        Ok((open_by(form), next))
    }
}

// Adds the numbers that tell how differences are taken.
fn flatten_spec(spec: DiffSpec, alloc: Global, out: &mut Items) -> Result<(), AllocError>
    ensures added { OnOk result (out.new ≡ out.old ++ spec_items spec) }
    ensures err { OnErr result (IsFront out.old out.new) }
{
    number_of_aggregation(spec.agg).flatten(alloc, out)?;
    number_of_direction(spec.direction).flatten(alloc, out)?;
    number_of_flag(spec.abs_reset).flatten(alloc, out)?;
    number_of_flag(spec.skip_zero).flatten(alloc, out)?;
    number_of_flag(spec.zero_base).flatten(alloc, out)
}

// How differences are taken, by these numbers, if they are some.
fn spec_by(numbers: Numbers) -> Option<DiffSpec>
    ensures { result ≡ spec_of_numbers numbers }
{
    let (agg, (direction, (abs_reset, (skip_zero, zero_base)))) = numbers;
    Some(DiffSpec {
        agg: aggregation_of(agg)?,
        direction: direction_of(direction)?,
        abs_reset: flag_of(abs_reset)?,
        skip_zero: flag_of(skip_zero)?,
        zero_base: flag_of(zero_base)?,
    })
}

// The producer of some parts, if there is one.
fn values_by(parts: Parts) -> Option<PulledValue>
    ensures { result ≡ pulled_value_of_form parts }
{
    let (numbers, (last, (interval, books))) = parts;
    let spec = spec_by(numbers)?;
    Some(PulledValue {
        spec,
        books,
        last,
        interval,
    })
}

impl Flat for PulledValue {
    ghost use Rattle.value_metric.specs.PulledValueItems.{pulled_value_items, IsPulledValue, IsSavablePulledValue, pulled_value_entries, pulled_value_bounded, pulled_value_few, pulled_value_savable};

    ghost flat = { pulled_value_items };

    ghost valid = { IsPulledValue };

    ghost savable = { IsSavablePulledValue };

    ghost head = { 16 };

    ghost short = { short_head 16 refl };

    ghost entries = { pulled_value_entries };

    ghost bounded = { pulled_value_bounded };

    ghost few = { pulled_value_few };

    ghost spells = { pulled_value_savable };

    fn show_valid(&self) {
        self.last.show_valid();
        self.interval.show_valid();
        self.books.show_valid();
    }

    fn flatten(&self, alloc: Global, out: &mut Items) -> Result<(), AllocError> {
        flatten_spec(self.spec, alloc, out)?;
        Flat::flatten(&self.last, alloc, out)?;
        self.interval.flatten(alloc, out)?;
        self.books.flatten(alloc, out)
    }

    fn build(
        alloc: Global,
        items: &Items,
        place: usize,
    ) -> Result<(PulledValue, usize), FlatError> {
        let (parts, next) = Parts::build(alloc, items, place)?;
        let Some(values) = values_by(parts) else {
            return Err(FlatError::Bad);
        };
        Ok((values, next))
    }
}
