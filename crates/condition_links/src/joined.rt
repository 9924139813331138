//! The operations in three values.
ghost use Rattle.std.specs.Prelude.{◌≡◌, ◌∷◌, ◌++◌, [], List, map};
ghost use Rattle.predicate_state.specs.declared.truth.Truth.{Truth};
ghost use Rattle.condition_links.specs.ThreeValues.{combined3, is_true};
ghost use Rattle.matcher_eval.specs.Combined.{combined_truth};
ghost use Rattle.condition_links.specs.SeenTruths.{seen_of};

use config_types::Operation;
use predicate_state::Truth;

/// The truth of a combination, from its children's truths.
pub fn combine3(op: Operation, children: &[Truth]) -> Truth
    ensures { result ≡ combined3 op children.now }
{
    let mut seen = Seen::NONE;
    for truth in children {
        seen = seen.with(*truth);
    }
    seen.joined(op)
}

// What matters of the truths that were seen.
#[derive(Clone, Copy)]
pub(crate) struct Seen {
    unknown: bool,
    any: bool,
    all: bool,
}

impl Seen {
    pub(crate) const NONE: Seen = Seen {
        unknown: false,
        any: false,
        all: true,
    };

    pub(crate) fn with(self, truth: Truth) -> Seen
        ensures { (truths : List Truth) → self ≡ seen_of truths
            → result ≡ seen_of (truths ++ truth ∷ []) }
    {
        match truth {
            Truth::False => Seen { all: false, ..self },
            Truth::Unknown => Seen {
                unknown: true,
                all: false,
                ..self
            },
            Truth::True => Seen { any: true, ..self },
        }
    }

    pub(crate) fn joined(self, op: Operation) -> Truth
        ensures { (truths : List Truth) → self ≡ seen_of truths → result ≡ combined3 op truths }
    {
        if self.unknown {
            return Truth::Unknown;
        }
        if self.holds(op) {
            Truth::True
        } else {
            Truth::False
        }
    }

    fn holds(self, op: Operation) -> bool
        ensures { (truths : List Truth) → self ≡ seen_of truths
            → result ≡ combined_truth op (map is_true truths) }
    {
        match op {
            Operation::And => self.all,
            Operation::Or => self.any,
            Operation::Not => !self.any,
            Operation::Nand => !self.all,
            Operation::Nor => !self.any,
        }
    }
}
