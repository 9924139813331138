//! The judge that reads the fields of the atom.
ghost use Rattle.std.specs.Prelude.{◌≡◌};

use crate::Judge;
use crate::fields::matches;
use atom_record::Atom;
use config_types::SimpleMatcher;

/// A judge that tests the fields of the atom.
#[derive(Debug, Drop)]
pub struct FieldJudge {
    ticks: u64,
}

impl FieldJudge {
    /// A judge that wasn't asked yet.
    pub fn new() -> FieldJudge
        ensures { result.ticks ≡ 0 }
    {
        FieldJudge { ticks: 0 }
    }

    /// How many questions it was asked. The count stands still at 2^64 - 1.
    pub fn ticks(&self) -> u64
        ensures { result ≡ self.now.ticks }
    {
        self.ticks
    }
}

impl Judge for FieldJudge {
    ghost use Rattle.matcher_eval.specs.AtomTests.{matcher_holds};

    ghost says = { matcher_holds };

    ghost ticks = { λ judge. judge.ticks };

    fn eval_simple(&mut self, matcher: &SimpleMatcher, atom: &Atom) -> bool {
        self.ticks = self.ticks.saturating_add(1);
        matches(matcher, atom)
    }
}
