//! The flat forms of what is kept of inner keys and of spans.
ghost use Rattle.std.proofs.Common.{refl};
ghost use Rattle.std.specs.Prelude.{◌≡◌, Bool, MatchOption};
ghost use Rattle.flat_form.specs.Bounded.{short_head};
ghost use Rattle.predicate_state.specs.PredicateItems.{flag_number};
ghost use Rattle.predicate_state.specs.declared.truth.Truth.{Truth};
ghost use Rattle.duration_metric.specs.InnerItems.{known_truth_number};

use crate::inner::{Inner, Known};
use crate::sparse_keys::SparseEntry;
use crate::sum::Span;
use atom_record::MetricKey;
use flat_form::{Flat, FlatError, Items};
use predicate_state::Truth;
use std::alloc::{AllocError, Global};

// A flag as a number.
pub(crate) fn encode_flag(flag: bool) -> u64
    ensures { result ≡ flag_number flag }
{
    if flag { 1 } else { 0 }
}

// The flag that a number is, or none where it is another number.
pub(crate) fn decode_flag(number: u64) -> Option<bool>
    ensures { MatchOption result ((flag : Bool) → ¬ (flag_number flag ≡ number))
        (λ flag. flag_number flag ≡ number) }
{
    match number {
        0 => Some(false),
        1 => Some(true),
        _ => None,
    }
}

// A truth as a number.
fn encode_truth(truth: Truth) -> u64
    ensures { result ≡ known_truth_number truth }
{
    match truth {
        Truth::False => 0,
        Truth::Unknown => 1,
        Truth::True => 2,
    }
}

// The truth that a number is, or none where it is another number.
fn decode_truth(number: u64) -> Option<Truth>
    ensures { MatchOption result ((truth : Truth) → ¬ (known_truth_number truth ≡ number))
        (λ truth. known_truth_number truth ≡ number) }
{
    match number {
        0 => Some(Truth::False),
        1 => Some(Truth::Unknown),
        2 => Some(Truth::True),
        _ => None,
    }
}

impl Flat for Known {
    ghost use Rattle.flat_form.specs.Bounded.{none_few};
    ghost use Rattle.duration_metric.specs.InnerItems.{known_items, IsSavableKnown, known_bounded, known_savable};

    ghost flat = { known_items };

    ghost savable = { IsSavableKnown };

    ghost head = { 3 };

    ghost short = { short_head 3 refl };

    ghost bounded = { known_bounded };

    ghost few = { none_few known_items };

    ghost spells = { known_savable };

    fn show_valid(&self) {}

    fn flatten(&self, alloc: Global, out: &mut Items) -> Result<(), AllocError> {
        encode_truth(self.truth).flatten(alloc, out)?;
        self.out.flatten(alloc, out)
    }

    fn build(alloc: Global, items: &Items, place: usize) -> Result<(Known, usize), FlatError> {
        let (form, next) = <(u64, MetricKey)>::build(alloc, items, place)?;
        let (number, out) = form;
        let Some(truth) = decode_truth(number) else {
            return Err(FlatError::Bad);
        };
        Ok((Known { truth, out }, next))
    }
}

impl Flat for Inner {
    ghost use Rattle.flat_form.specs.Bounded.{none_few};
    ghost use Rattle.duration_metric.specs.InnerItems.{inner_items, IsSavableInner, inner_bounded, inner_savable};

    ghost flat = { inner_items };

    ghost savable = { IsSavableInner };

    ghost head = { 6 };

    ghost short = { short_head 6 refl };

    ghost bounded = { inner_bounded };

    ghost few = { none_few inner_items };

    ghost spells = { inner_savable };

    fn show_valid(&self) {}

    fn flatten(&self, alloc: Global, out: &mut Items) -> Result<(), AllocError> {
        (self.count, encode_flag(self.tallied)).flatten(alloc, out)?;
        Flat::flatten(&self.known, alloc, out)
    }

    fn build(alloc: Global, items: &Items, place: usize) -> Result<(Inner, usize), FlatError> {
        let (form, next) = <(u64, (u64, Option<Known>))>::build(alloc, items, place)?;
        let (count, (number, known)) = form;
        let Some(tallied) = decode_flag(number) else {
            return Err(FlatError::Bad);
        };
        let inner = Inner {
            count,
            known,
            tallied,
        };
        Ok((inner, next))
    }
}

impl Flat for SparseEntry {
    ghost use Rattle.flat_form.specs.Bounded.{none_few};
    ghost use Rattle.duration_metric.specs.InnerItems.{entry_items, IsSavableEntry, entry_bounded, entry_savable};

    ghost flat = { entry_items };

    ghost savable = { IsSavableEntry };

    ghost head = { 7 };

    ghost short = { short_head 7 refl };

    ghost bounded = { entry_bounded };

    ghost few = { none_few entry_items };

    ghost spells = { entry_savable };

    fn show_valid(&self) {}

    fn flatten(&self, alloc: Global, out: &mut Items) -> Result<(), AllocError> {
        self.count.flatten(alloc, out)?;
        (self.time, self.since).flatten(alloc, out)?;
        Flat::flatten(&self.known, alloc, out)
    }

    fn build(
        alloc: Global,
        items: &Items,
        place: usize,
    ) -> Result<(SparseEntry, usize), FlatError> {
        let (form, next) = <(u64, (u64, (u64, Option<Known>)))>::build(alloc, items, place)?;
        let (count, (time, (since, known))) = form;
        let entry = SparseEntry {
            count,
            known,
            time,
            since,
        };
        Ok((entry, next))
    }
}

impl Flat for Span {
    ghost use Rattle.flat_form.specs.Bounded.{none_few};
    ghost use Rattle.duration_metric.specs.InnerItems.{span_items, span_bounded, span_savable};

    ghost flat = { span_items };

    ghost head = { 3 };

    ghost short = { short_head 3 refl };

    ghost bounded = { span_bounded };

    ghost few = { none_few span_items };

    ghost spells = { span_savable };

    fn show_valid(&self) {}

    fn flatten(&self, alloc: Global, out: &mut Items) -> Result<(), AllocError> {
        self.sum.flatten(alloc, out)?;
        Flat::flatten(&self.since, alloc, out)
    }

    fn build(alloc: Global, items: &Items, place: usize) -> Result<(Span, usize), FlatError> {
        let (form, next) = <(u64, Option<u64>)>::build(alloc, items, place)?;
        let (sum, since) = form;
        Ok((Span { sum, since }, next))
    }
}
