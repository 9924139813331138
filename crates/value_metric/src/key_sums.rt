//! The sums of a snapshot's integers, by key.
ghost use Rattle.std.specs.Prelude.{◌≡◌, IfOk, OnOk, IfSome, Some, length, slice_get};
ghost use Rattle.std.specs.Option.{option_map};
ghost use Rattle.std.specs.Map.{lookup};
ghost use Rattle.metric_kinds.specs.Diffs.{key_sums};
ghost use Rattle.metric_kinds.specs.Keys.{is_same_key};
ghost use Rattle.value_metric.specs.PulledValues.{keyed_ints};
ghost use Rattle.value_metric.specs.Sums.{with_sum};
ghost use Rattle.value_metric.specs.SumsItems.{HaveOwnKeys, AddsOwnRow, IsSumsOf};

use crate::KeyedInt;
use atom_record::MetricKey;
use indexmap::IndexMap;
use key_hash::KeyHashing;
use sd_base::Seq;
use std::alloc::{AllocError, Global};
use std::marker::Model;

/// Each key of a snapshot, where it first comes, with the sum of its integers.
#[derive(Drop)]
pub struct KeySums {
    rows: IndexMap<MetricKey, i128, KeyHashing>,
}

impl Model for KeySums {
    ghost use Rattle.std.specs.Prelude.{ℤ, List};
    ghost use Rattle.atom_record.specs.declared.value.MetricKey.{MetricKey};

    ghost Value = { List (MetricKey × ℤ) };

    ghost view = { λ s. s.rows.entries };
}

impl KeySums {
    /// Of these integers.
    pub(crate) fn of(alloc: Global, integers: Seq<KeyedInt>) -> Result<KeySums, AllocError>
        ensures { IfOk result (λ sums. sums ≡ key_sums (keyed_ints integers)) }
    {
        let mut sums = KeySums {
            rows: IndexMap::with_capacity_and_hasher(alloc, integers.len(), KeyHashing::new())?,
        };
        for integer in integers.into_vec() {
            sums.add(integer.key, integer.value as i128)?;
        }
        Ok(sums)
    }

    /// Of these rows, or none where a key comes twice.
    pub(crate) fn of_rows(
        alloc: Global,
        rows: Seq<(MetricKey, i128)>,
    ) -> Result<Option<KeySums>, AllocError>
        ensures { IfOk result (IsSumsOf rows) }
    {
        let mut sums = KeySums {
            rows: IndexMap::with_capacity_and_hasher(alloc, rows.len(), KeyHashing::new())?,
        };
        for (key, sum) in rows.into_vec() {
            if !sums.add_own(key, sum)? {
                return Ok(None);
            }
        }
        Ok(Some(sums))
    }

    // Adds the row of a key, unless the key has one already. Answers whether it was added.
    fn add_own(&mut self, key: MetricKey, sum: i128) -> Result<bool, AllocError>
        ensures { IfOk result (AddsOwnRow self.old self.new key sum) }
    {
        let before = self.rows.insert(key, sum)?;
        Ok(before.is_none())
    }

    /// No key comes twice.
    pub(crate) fn show_own_keys(&self)
        ensures { HaveOwnKeys self.now }
    {
        let _count = self.rows.len();
    }

    // One more integer of a key.
    fn add(&mut self, key: MetricKey, integer: i128) -> Result<(), AllocError>
        ensures { OnOk result (self.new ≡ with_sum self.old key integer) }
    {
        let sum = self.rows.entry(key)?.or_insert(0);
        *sum = sum.saturating_add(integer);
        Ok(())
    }

    /// The sum of a key's integers, or none where the key isn't there. It is looked for at a place first: the keys of
    /// two snapshots come in one order most often.
    pub(crate) fn sum_near(&self, place: usize, key: &MetricKey) -> Option<i128>
        ensures { result ≡ lookup (is_same_key key.now) self.now }
    {
        match self.sum_there(place, key) {
            Some(sum) => Some(sum),
            None => self.rows.get(key).copied(),
        }
    }

    // The sum at a place, if it is the key's.
    #[inline(always)]
    fn sum_there(&self, place: usize, key: &MetricKey) -> Option<i128>
        ensures { IfSome result (λ sum. lookup (is_same_key key.now) self.now ≡ Some sum) }
    {
        let _len = self.rows.len();
        match self.rows.get_index(place) {
            Some((found, sum)) if found == key => Some(*sum),
            _ => None,
        }
    }

    /// The key at a place with its sum, or none past the end.
    pub(crate) fn at(&self, place: usize) -> Option<(&MetricKey, i128)>
        ensures { option_map (λ found. (found.0.now, found.1)) result ≡ slice_get self.now place }
    {
        let (key, sum) = self.rows.get_index(place)?;
        Some((key, *sum))
    }

    /// The number of keys.
    pub(crate) fn len(&self) -> usize
        ensures { result ≡ length self.now }
    {
        self.rows.len()
    }
}
