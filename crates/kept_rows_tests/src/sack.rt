//! A row of any weight.
use kept_rows::Weighed;

/// A row with a number. It weighs what it says, and one at least.
#[derive(Drop)]
pub struct Sack {
    pub number: u64,
    pub weight: u64,
}

impl Weighed for Sack {
    ghost use Rattle.std.specs.Prelude.{max};

    ghost weigh = { λ sack. max sack.weight 1 };

    fn weight(&self) -> u64 {
        self.weight.max(1)
    }
}
