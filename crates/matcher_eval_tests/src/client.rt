//! A client that holds a judge of any type, and cites in its clauses what the judge says.
ghost use Rattle.std.specs.Prelude.{◌≡◌};
ghost use Rattle.atom_record.specs.AtomSound.{HasNoFault};
ghost use Rattle.config_types.specs.Askable.{IsAskable};
ghost use Rattle.matcher_eval.specs.Questions.{IsOneTick};

use atom_record::Atom;
use config_types::SimpleMatcher;
use matcher_eval::Judge;

/// A judge of which each matcher holds on each atom.
#[derive(Drop)]
pub struct Nodder {
    pub asked: u64,
}

impl Judge for Nodder {
    ghost use Rattle.std.specs.Prelude.{true};

    ghost says = { λ matcher atom. true };

    ghost ticks = { λ judge. judge.asked };

    fn eval_simple(&mut self, _matcher: &SimpleMatcher, _atom: &Atom) -> bool {
        self.asked = self.asked.saturating_add(1);
        true
    }
}

/// Keeps what its judge said last.
#[derive(Drop)]
pub struct Client<J: Judge> {
    pub judge: J,
    pub last: bool,
}

impl<J: Judge> Client<J> {
    /// Asks its judge once.
    pub fn ask(&mut self, matcher: &SimpleMatcher, atom: &Atom)
        requires askable { IsAskable matcher.now }
        requires sound { HasNoFault atom.now }
        ensures last { self.new.last ≡ J.says matcher.now atom.now }
        ensures ticks { IsOneTick (J.ticks self.old.judge) (J.ticks self.new.judge) }
    {
        self.last = self.judge.eval_simple(matcher, atom);
    }
}
