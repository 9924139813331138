//! A judge of the tests' own: a matcher without tests holds, and no other.
ghost use Rattle.std.specs.Prelude.{◌≡◌, ◌==◌, length};

use atom_record::Atom;
use config_types::SimpleMatcher;
use matcher_eval::Judge;

/// It counts the questions.
#[derive(Drop)]
pub struct Asked {
    ticks: u64,
}

impl Asked {
    /// It wasn't asked yet.
    pub fn new() -> Asked {
        Asked { ticks: 0 }
    }

    /// How many questions it was asked.
    pub fn ticks(&self) -> u64 {
        self.ticks
    }
}

impl Judge for Asked {
    ghost says = { λ matcher atom. length matcher.tests == 0 };

    ghost ticks = { λ judge. judge.ticks };

    fn eval_simple(&mut self, matcher: &SimpleMatcher, _atom: &Atom) -> bool {
        self.ticks = self.ticks.saturating_add(1);
        matcher.tests.is_empty()
    }
}
