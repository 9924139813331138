//! What a judge is.
ghost use Rattle.std.specs.Prelude.{◌≡◌, ℕ, Bool};
ghost use Rattle.atom_record.specs.declared.atom.Atom.{Atom};
ghost use Rattle.atom_record.specs.AtomSound.{HasNoFault};
ghost use Rattle.config_types.specs.declared.matcher.SimpleMatcher.{SimpleMatcher};
ghost use Rattle.config_types.specs.Askable.{IsAskable};
ghost use Rattle.matcher_eval.specs.Questions.{IsOneTick};

use atom_record::Atom;
use config_types::SimpleMatcher;

/// The one who is asked whether a simple matcher holds on an atom, and who counts the questions.
pub trait Judge: Drop {
    /// What each judge of the type answers.
    ghost says: { SimpleMatcher → Atom → Bool };

    /// How many questions were asked. The count stands still at 2^64 - 1.
    ghost ticks: { Self → ℕ };

    /// Whether the matcher holds on the atom. It takes no memory.
    fn eval_simple(&mut self, matcher: &SimpleMatcher, atom: &Atom) -> bool
        requires askable { IsAskable matcher.now }
        requires sound { HasNoFault atom.now }
        ensures says { result ≡ says matcher.now atom.now }
        ensures ticks { IsOneTick (ticks self.old) (ticks self.new) };
}
