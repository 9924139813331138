//! What a row weighs.
ghost use Rattle.std.specs.Prelude.{◌≡◌, ◌≤◌};

use sd_base::Seq;

/// What weighs something among the rows that are kept.
pub trait Weighed {
    ghost use Rattle.std.specs.Prelude.{ℕ};

    /// Its weight.
    ghost weigh: { Self → ℕ };

    /// Its weight, which is 1 at least.
    fn weight(&self) -> u64
        ensures value { result ≡ weigh self.now }
        ensures some { 1 ≤ result };
}

impl Weighed for u64 {
    ghost weigh = { λ number. 1 };

    fn weight(&self) -> u64 {
        1
    }
}

impl Weighed for i64 {
    ghost weigh = { λ number. 1 };

    fn weight(&self) -> u64 {
        1
    }
}

impl<A> Weighed for Seq<A> {
    ghost use Rattle.kept_rows.specs.KeptRows.{list_weight};

    ghost weigh = { list_weight };

    fn weight(&self) -> u64 {
        (self.len() as u64).max(1)
    }
}
