//! For each output key, how many inner keys count for it.
ghost use Rattle.std.specs.Prelude.{◌≡◌, ◌+◌, ◌^◌, ◌<◌, not, [], ◌∷◌, IfOk, OnOk};
ghost use Rattle.duration_metric.specs.Tallies.{tally_at, is_counted, Raises, Lowers, CountsSame, NewZeros, Forgets};

use atom_record::MetricKey;
use indexmap::IndexMap;
use key_hash::KeyHashing;
use std::alloc::{AllocError, Global};
use std::marker::Model;

/// Counts by output key. A key that has a row in the open part stays while none counts for it, so that it isn't copied
/// where it begins again.
#[derive(Drop)]
pub struct Tally {
    counts: IndexMap<MetricKey, u64, KeyHashing>,
}

impl Model for Tally {
    ghost use Rattle.std.specs.Prelude.{ℕ, List};
    ghost use Rattle.atom_record.specs.declared.value.MetricKey.{MetricKey};

    ghost Value = { List (MetricKey × ℕ) };

    ghost view = { λ tally. tally.counts.entries };
}

impl Tally {
    /// Nothing is counted. It takes no memory yet.
    pub(crate) fn new(alloc: Global) -> Tally
        ensures { result ≡ [] }
    {
        Tally {
            counts: IndexMap::with_hasher(alloc, KeyHashing::new()),
        }
    }

    /// How many count for a key.
    pub(crate) fn count(&self, key: &MetricKey) -> u64
        ensures { result ≡ tally_at self.now key.now }
    {
        match self.counts.get(key) {
            Some(count) => *count,
            None => 0,
        }
    }

    /// Counts one more for a key, and says whether it is the first. A key that is there isn't copied.
    pub(crate) fn raise(&mut self, key: &MetricKey, alloc: Global) -> Result<bool, AllocError>
        requires fits { tally_at self.old key.now + 1 < 2 ^ 64 }
        ensures counts { OnOk result (Raises self.old self.new key.now) }
        ensures first { IfOk result (λ is_first. is_first ≡ not (is_counted self.old key.now)) }
        ensures zeros { OnOk result (NewZeros self.old self.new []) }
    {
        let Some(count) = self.counts.get_mut(key) else {
            self.counts.insert(key.clone_key(alloc)?, 1)?;
            return Ok(true);
        };
        let is_first = *count == 0;
        *count += 1;
        Ok(is_first)
    }

    /// Counts one fewer for a key, which stays.
    pub(crate) fn lower(&mut self, key: &MetricKey) -> Result<(), AllocError>
        ensures counts { OnOk result (Lowers self.old self.new key.now) }
        ensures zeros { OnOk result (NewZeros self.old self.new (key.now ∷ [])) }
    {
        let Some(count) = self.counts.get_mut(key) else {
            return Ok(());
        };
        *count = count.saturating_sub(1);
        Ok(())
    }

    /// Takes a key out, unless some count for it.
    pub(crate) fn forget(&mut self, key: &MetricKey)
        ensures counts { CountsSame self.old self.new }
        ensures zeros { Forgets self.old self.new (key.now ∷ []) [] }
    {
        if self.count(key) == 0 {
            let _count = self.counts.swap_remove(key);
        }
    }
}
