//! The flat form of a predicate's table: four numbers, and its bounded table of keys.
ghost use Rattle.std.proofs.Common.{refl};
ghost use Rattle.flat_form.specs.Bounded.{short_head};
ghost use Rattle.std.specs.Prelude.{◌≡◌, ◌<◌, ◌^◌, Bool, MatchOption, IsTrue, ◌↔◌};
ghost use Rattle.predicate_state.specs.PredicateTable.{HaveLeaves};
ghost use Rattle.predicate_state.specs.PredicateItems.{flag_number};
ghost use Rattle.predicate_state.specs.PredicateForm.{IsMadeOf};

use crate::PredTable;
use atom_record::DimKey;
use config_types::PredSpec;
use dim_table::Guarded;
use flat_form::{Flat, FlatError, Items};
use std::alloc::{AllocError, Global};

// The numbers of a table, and its keys.
type Form = (((u64, u64), (u64, u64)), Guarded<DimKey, u64>);

// A truth as a number.
fn encode_flag(flag: bool) -> u64
    ensures { result ≡ flag_number flag }
{
    if flag { 1 } else { 0 }
}

// The truth that a number is, or none where it is another number.
fn decode_flag(number: u64) -> Option<bool>
    ensures { MatchOption result ((flag : Bool) → ¬ (flag_number flag ≡ number))
        (λ flag. flag_number flag ≡ number) }
{
    match number {
        0 => Some(false),
        1 => Some(true),
        _ => None,
    }
}

// Whether every key has so many leaves.
fn have_leaves(keys: &Guarded<DimKey, u64>, leaves: u32) -> bool
    ensures { IsTrue result ↔ HaveLeaves leaves keys.now.rows }
{
    for place in 0..keys.len() {
        let Some((key, _count)) = keys.pair(place) else {
            return false;
        };
        if key.len() != leaves as usize {
            return false;
        }
    }
    true
}

// The table that has these parts, or none where no table has them.
fn restore(form: Form) -> Option<PredTable>
    ensures { IsMadeOf form result }
{
    let (((nesting, at_first), (leaves, now)), counts) = form;
    let nesting = decode_flag(nesting)?;
    let at_first = decode_flag(at_first)?;
    let unknown = decode_flag(now)?;
    if leaves > u32::MAX as u64 {
        return None;
    }
    let leaves = leaves as u32;
    if !have_leaves(&counts, leaves) {
        return None;
    }
    let spec = PredSpec {
        nesting,
        unknown: at_first,
        bound: counts.bound() as u32,
        leaves,
    };
    Some(PredTable {
        spec,
        unknown,
        counts,
    })
}

impl Flat for PredTable {
    ghost use Rattle.predicate_state.specs.PredicateItems.{predicate_items, IsPredicateTable, AreShortKeys, predicate_entries, predicate_bounded, predicate_few, predicate_savable};

    ghost flat = { predicate_items };

    ghost valid = { IsPredicateTable };

    ghost savable = { AreShortKeys };

    ghost head = { 7 };

    ghost short = { short_head 7 refl };

    ghost entries = { predicate_entries };

    ghost bounded = { predicate_bounded };

    ghost few = { predicate_few };

    ghost spells = { predicate_savable };

    fn show_valid(&self) {
        let _leaves = self.spec.leaves;
        self.counts.show_valid();
    }

    fn flatten(&self, alloc: Global, out: &mut Items) -> Result<(), AllocError> {
        let kept = (
            encode_flag(self.spec.nesting),
            encode_flag(self.spec.unknown),
        );
        let known = (self.spec.leaves as u64, encode_flag(self.unknown));
        (kept, known).flatten(alloc, out)?;
        self.counts.flatten(alloc, out)
    }

    fn build(alloc: Global, items: &Items, place: usize) -> Result<(PredTable, usize), FlatError> {
        let (form, next) = Form::build(alloc, items, place)?;
        let Some(table) = restore(form) else {
            return Err(FlatError::Bad);
        };
        Ok((table, next))
    }
}
