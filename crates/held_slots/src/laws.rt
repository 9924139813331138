//! Laws of what configurations hold.
ghost use Rattle.std.specs.Prelude.{◌≡◌, ℕ, ◌<◌, Bool, List, length, map, slice_index};
ghost use Rattle.atom_record.specs.declared.atom.Atom.{Atom};
ghost use Rattle.config_types.specs.declared.matcher.SimpleMatcher.{SimpleMatcher};
ghost use Rattle.config_links.specs.declared.linked.LMatcher.{LMatcher};
ghost use Rattle.link_graph.specs.Links.{AreInRange, HasNoCycle};
ghost use Rattle.matcher_truths.specs.MatcherTruths.{named_places, all_truths};
ghost use Rattle.matcher_table.specs.Slots.{times_among};
ghost use Rattle.matcher_table.specs.Tables.{SlotTable, outside_uses, result_at};
ghost use Rattle.matcher_table.specs.Trees.{slot_tree};
ghost use Rattle.matcher_table.specs.Truths.{Evaluates};
ghost use Rattle.matcher_table.specs.TableFacts.{IsSoundTable};
ghost use Rattle.held_slots.specs.Holdings.{HoldMatchers, matcher_tree};
ghost use Rattle.held_slots.specs.HoldingSteps.{KeepsLive, ReleasesAll};

/// What a configuration holds stays held through an install of another, through an evaluation, and through a release
/// after which each of its slots has an outside use.
pub fn others_keep_what_is_held()
    ensures hold { (old new : SlotTable) (slots : List ℕ) (matchers : List LMatcher) → KeepsLive old new
        → HoldMatchers old slots matchers → HoldMatchers new slots matchers }
    ensures release { (old new : SlotTable) (released slots : List ℕ) (matchers : List LMatcher)
        → ((s : ℕ) → 0 < times_among s slots → 0 < outside_uses new s)
        → ReleasesAll old released new → HoldMatchers old slots matchers → HoldMatchers new slots matchers }
    ensures evaluate { (says : SimpleMatcher → Atom → Bool) (atom : Atom) (old new : SlotTable) (slots : List ℕ)
        (matchers : List LMatcher) → Evaluates says atom old new → HoldMatchers old slots matchers
        → HoldMatchers new slots matchers }
{}

/// A held slot has the tree of the configuration's own matcher, whatever its number.
pub fn held_slots_have_their_trees()
    ensures { (table : SlotTable) (slots : List ℕ) (matchers : List LMatcher) → AreInRange (named_places matchers)
        → HasNoCycle (named_places matchers) → IsSoundTable table → HoldMatchers table slots matchers → (place : ℕ)
        → place < length matchers
        → slot_tree table.slots (slice_index slots place) ≡ matcher_tree matchers place }
{}

/// After an evaluation the results of held slots are the truths of the configuration's own matchers.
pub fn held_slots_have_their_truths()
    ensures { (says : SimpleMatcher → Atom → Bool) (atom : Atom) (old new : SlotTable) (slots : List ℕ)
        (matchers : List LMatcher) → AreInRange (named_places matchers) → HasNoCycle (named_places matchers)
        → IsSoundTable new → Evaluates says atom old new → HoldMatchers new slots matchers
        → map (result_at new) slots ≡ all_truths says atom matchers }
{}
