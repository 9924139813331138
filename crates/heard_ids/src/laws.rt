//! What holds of the atoms that a configuration doesn't hear.
ghost use Rattle.std.specs.Prelude.{◌≡◌, Bool, false};
ghost use Rattle.atom_record.specs.declared.atom.Atom.{Atom};
ghost use Rattle.config_types.specs.declared.matcher.SimpleMatcher.{SimpleMatcher};
ghost use Rattle.config_links.specs.declared.linked.Linked.{Linked};
ghost use Rattle.matcher_truths.specs.MatcherTruths.{all_truths};
ghost use Rattle.heard_ids.specs.Hearing.{is_heard, heeded_matchers, some_holds, hears_all};

/// Of an atom that a configuration doesn't hear, under any judge, none of the matchers that it heeds holds. It does
/// nothing when it runs.
pub fn unheard_atoms_hold_nothing()
    ensures { (says : SimpleMatcher → Atom → Bool) (atom : Atom) (linked : Linked)
        → hears_all linked ≡ false → is_heard linked atom.id ≡ false
        → some_holds (all_truths says atom linked.matchers) (heeded_matchers linked) ≡ false }
{}
