//! The kept rows of one metric.
ghost use Rattle.std.specs.Prelude.{◌≡◌, ◌+◌, ◌<◌, ◌≤◌, ◌↔◌, ℕ, List, [], ◌∷◌, length, OnOk, OnErr, IfSome, IsSome, IsTrue, sum_by};
ghost use Rattle.bucket_meaning.specs.Kept.{count_in_u64, most_weight};
ghost use Rattle.kept_rows.specs.KeptRows.{nothing_kept, IsKept, AddsRows, HasRoom, IsWithinWeight};

use crate::Weighed;
use sd_base::Seq;
use std::alloc::{AllocError, Global};
use std::marker::Model;
use std::mem;

/// The most weight of all rows that are kept.
const MOST_WEIGHT: u64 = 16_384;

/// The first rows that a metric closed since its last report, and the number of the others.
/// After the first row that found no room none is kept, even a lighter one.
#[derive(Drop)]
pub struct KeptRows<R: Weighed> {
    rows: Seq<R>,
    used: u64,
    others: u64,
    alloc: Global,
}

impl<R: Weighed> Model for KeptRows<R> {
    ghost use Rattle.kept_rows.specs.KeptRows.{Keeping, IsWithinWeight};

    ghost Value = { Keeping R };

    ghost view = { λ k. record { rows = k.rows; used = k.used; others = k.others } };

    ghost invariant = { λ k. IsWithinWeight R.weigh k.rows k.used };
}

impl<R: Weighed + Drop> KeptRows<R> {
    /// Of no rows. It takes no memory yet.
    pub fn new(alloc: Global) -> KeptRows<R>
        ensures empty { result ≡ nothing_kept }
        ensures stands { (weigh : R → ℕ) → IsKept weigh [] result }
    {
        KeptRows {
            rows: Seq::new(alloc),
            used: 0,
            others: 0,
            alloc,
        }
    }

    /// These rows and so many others; or none where they don't weigh so much, or so much isn't kept.
    pub fn restore(alloc: Global, rows: Seq<R>, used: u64, others: u64) -> Option<KeptRows<R>>
        ensures within { IsSome result ↔ IsWithinWeight R.weigh rows used }
        ensures value { IfSome result
            (λ it. it ≡ record { rows = rows; used = used; others = others }) }
    {
        if used > MOST_WEIGHT || !weigh_together(rows.as_slice(), used) {
            return None;
        }
        Some(KeptRows {
            rows,
            used,
            others,
            alloc,
        })
    }

    /// Whether a row found no room. From then on none is kept.
    pub fn is_full(&self) -> bool
        ensures { IsTrue result ↔ (0 < self.now.others) }
    {
        self.others > 0
    }

    /// Keeps one more row if it fits, else counts it.
    pub fn put(&mut self, row: R) -> Result<(), AllocError>
        ensures stands { OnOk result ((weigh : R → ℕ) → weigh row ≡ R.weigh row
            → AddsRows weigh self.old self.new (row ∷ [])) }

        // Only a row that fits asks for memory.
        ensures room { OnErr result (HasRoom self.old (R.weigh row)) }
        ensures err { OnErr result (self.new ≡ self.old) }
    {
        let weight = row.weight();
        if !self.has_room(weight) {
            self.others = self.others.saturating_add(1);
            return Ok(());
        }
        self.rows.push(row)?;
        self.used += weight;
        Ok(())
    }

    // Whether a row of this weight would be kept.
    fn has_room(&self, weight: u64) -> bool
        ensures { IsTrue result ↔ HasRoom self.now weight }
    {
        self.others == 0 && weight <= MOST_WEIGHT - self.used
    }

    /// Counts so many further rows, which can't be kept.
    pub fn pass(&mut self, number: u64)
        requires full { 0 < self.old.others }
        ensures { (weigh : R → ℕ) (more : List R) → count_in_u64 (length more) ≡ number
            → AddsRows weigh self.old self.new more }
    {
        self.others = self.others.saturating_add(number);
    }

    /// Hands the kept rows and the number of the others out, and starts anew.
    pub fn take(&mut self) -> (Seq<R>, u64)
        ensures given { (result.0 ≡ self.old.rows) × (result.1 ≡ self.old.others) }
        ensures anew { self.new ≡ nothing_kept }
        ensures stands { (weigh : R → ℕ) → IsKept weigh [] self.new }
    {
        let rows = mem::replace(&mut self.rows, Seq::new(self.alloc));
        let others = self.others;
        self.used = 0;
        self.others = 0;
        (rows, others)
    }

    /// The kept rows, in order.
    pub fn rows(&self) -> &Seq<R>
        ensures value { result.now ≡ self.now.rows }
        ensures within { IsWithinWeight R.weigh self.now.rows self.now.used }
    {
        let _used = self.used;
        &self.rows
    }

    /// What the kept rows weigh in all.
    pub fn weight(&self) -> u64
        ensures { result ≡ self.now.used }
    {
        self.used
    }

    /// The number of the rows that weren't kept. It stands still at the end of its type.
    pub fn not_kept(&self) -> u64
        ensures { result ≡ self.now.others }
    {
        self.others
    }
}

// Whether these rows weigh so much in all.
fn weigh_together<R: Weighed>(rows: &[R], used: u64) -> bool
    ensures sum { IsTrue result ↔ (used ≡ sum_by R.weigh rows.now) }
    ensures few { IsTrue result → length rows.now ≤ used }
{
    let mut left = used;
    for row in rows {
        let weight = row.weight();
        if weight > left {
            return false;
        }
        left -= weight;
    }
    left == 0
}
