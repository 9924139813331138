//! The flat form of a snapshot's sums.
ghost use Rattle.std.proofs.Common.{refl};
ghost use Rattle.std.specs.Prelude.{◌≡◌, ◌++◌, length, All, IfOk, OnOk, OnErr};
ghost use Rattle.std.specs.List.{flat_map};
ghost use Rattle.flat_form.specs.Flat.{IsFront};
ghost use Rattle.flat_form.specs.Bounded.{short_head};
ghost use Rattle.value_metric.specs.SumsItems.{sum_items, IsSum};

use crate::key_sums::KeySums;
use atom_record::MetricKey;
use flat_form::{Flat, FlatError, Items};
use sd_base::Seq;
use std::alloc::{AllocError, Global};

/// Keys with their sums.
type Rows = Seq<(MetricKey, i128)>;

// Each sum is one.
fn show_sums(sums: &KeySums)
    ensures { All IsSum sums.now }
{
    let count = sums.len();
    for place in 0..count {
        let Some((_key, sum)) = sums.at(place) else {
            return;
        };
        sum.show_valid();
    }
}

// Adds the items of a key and its sum.
fn flatten_sum(key: &MetricKey, sum: i128, alloc: Global, out: &mut Items) -> Result<(), AllocError>
    ensures added { OnOk result (out.new ≡ out.old ++ sum_items (key.now, sum)) }
    ensures valid { OnOk result (IsSum (key.now, sum)) }
    ensures err { OnErr result (IsFront out.old out.new) }
{
    key.flatten(alloc, out)?;
    sum.flatten(alloc, out)
}

// Adds the items of all keys and their sums.
fn flatten_sums(sums: &KeySums, alloc: Global, out: &mut Items) -> Result<(), AllocError>
    ensures added { OnOk result (out.new ≡ out.old ++ flat_map sum_items sums.now) }
    ensures valid { OnOk result (All IsSum sums.now) }
    ensures err { OnErr result (IsFront out.old out.new) }
{
    let count = sums.len();
    for place in 0..count {
        let Some((key, sum)) = sums.at(place) else {
            return Ok(());
        };
        flatten_sum(key, sum, alloc, out)?;
    }
    Ok(())
}

impl Flat for KeySums {
    ghost use Rattle.value_metric.specs.SumsItems.{sums_items, AreSums, AreSavableSums, sums_entries, sums_bounded, sums_few, sums_savable};

    ghost flat = { sums_items };

    ghost valid = { AreSums };

    ghost savable = { AreSavableSums };

    ghost head = { 1 };

    ghost short = { short_head 1 refl };

    ghost entries = { sums_entries };

    ghost bounded = { sums_bounded };

    ghost few = { sums_few };

    ghost spells = { sums_savable };

    fn show_valid(&self) {
        self.show_own_keys();
        show_sums(self);
    }

    fn flatten(&self, alloc: Global, out: &mut Items) -> Result<(), AllocError> {
        self.show_own_keys();
        let count = self.len() as u64;
        count.flatten(alloc, out)?;
        flatten_sums(self, alloc, out)
    }

    fn build(alloc: Global, items: &Items, place: usize) -> Result<(KeySums, usize), FlatError> {
        let (rows, next) = Rows::build(alloc, items, place)?;
        let found = KeySums::of_rows(alloc, rows)?;
        match found {
            Some(sums) => Ok((sums, next)),
            None => Err(FlatError::Bad),
        }
    }
}
