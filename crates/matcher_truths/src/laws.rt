//! What holds of the truths of all configurations, so that a contract may say it.
ghost use Rattle.std.specs.Prelude.{◌≡◌, ℕ, ◌<◌, Bool, List, length, slice_get};
ghost use Rattle.atom_record.specs.declared.atom.Atom.{Atom};
ghost use Rattle.config_types.specs.declared.matcher.SimpleMatcher.{SimpleMatcher};
ghost use Rattle.config_links.specs.declared.linked.LMatcher.{LMatcher};
ghost use Rattle.link_graph.specs.Links.{AreInRange, HasNoCycle};
ghost use Rattle.matcher_truths.specs.MatcherTruths.{named_places, truth_from, matches};

/// Where no matcher is below itself, each one's truth is what it makes of the truths at the places that it names. It
/// does nothing when it runs.
pub fn truths_come_from_children()
    ensures { (says : SimpleMatcher → Atom → Bool) (atom : Atom) (matchers : List LMatcher)
        → AreInRange (named_places matchers) → HasNoCycle (named_places matchers) → (place : ℕ)
        → place < length matchers → matches says atom matchers place
        ≡ truth_from says atom (matches says atom matchers) (slice_get matchers place) }
{}
