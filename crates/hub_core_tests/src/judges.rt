//! Judges who don't look at the atom as the product does, and tell how often they were asked.
use atom_record::Atom;
use config_types::SimpleMatcher;
use matcher_eval::{FieldJudge, Judge};

/// A judge who tells how often it was asked.
pub trait Counting: Judge + Sized {
    /// How many questions it was asked.
    fn asked(&self) -> u64;

    /// One that wasn't asked yet.
    fn fresh() -> Self;
}

impl Counting for FieldJudge {
    fn asked(&self) -> u64 {
        self.ticks()
    }

    fn fresh() -> FieldJudge {
        FieldJudge::new()
    }
}

/// Each matcher holds, whatever the atom has.
#[derive(Drop)]
pub struct Nodder {
    pub asked: u64,
}

impl Judge for Nodder {
    ghost use Rattle.std.specs.Prelude.{true};

    ghost says = { λ matcher atom. true };

    ghost ticks = { λ judge. judge.asked };

    fn eval_simple(&mut self, _matcher: &SimpleMatcher, _atom: &Atom) -> bool {
        self.asked = self.asked.saturating_add(1);
        true
    }
}

impl Counting for Nodder {
    fn asked(&self) -> u64 {
        self.asked
    }

    fn fresh() -> Nodder {
        Nodder { asked: 0 }
    }
}

/// A matcher holds if it tests as many fields as the atom has entries, whatever they hold.
#[derive(Drop)]
pub struct Tallier {
    pub asked: u64,
}

impl Judge for Tallier {
    ghost use Rattle.std.specs.Prelude.{length, ◌==◌};

    ghost says = { λ matcher atom. length matcher.tests == length atom.fields };

    ghost ticks = { λ judge. judge.asked };

    fn eval_simple(&mut self, matcher: &SimpleMatcher, atom: &Atom) -> bool {
        self.asked = self.asked.saturating_add(1);
        matcher.tests.as_slice().len() == atom.fields.as_slice().len()
    }
}

impl Counting for Tallier {
    fn asked(&self) -> u64 {
        self.asked
    }

    fn fresh() -> Tallier {
        Tallier { asked: 0 }
    }
}
