//! What holds of the truths of predicates.
ghost use Rattle.std.specs.Prelude.{◌≡◌, ℕ, ◌<◌, List, length, slice_get};
ghost use Rattle.config_links.specs.declared.linked.LPredicate.{LPredicate};
ghost use Rattle.link_graph.specs.Links.{AreInRange, HasNoCycle};
ghost use Rattle.predicate_state.specs.declared.bind.Bind.{Bind};
ghost use Rattle.predicate_state.specs.PredicateTable.{PredicateTable};
ghost use Rattle.condition_links.specs.Conditions.{predicate_names, predicate_truth, truth_of_found, table_truth_at};

/// Without a cycle, each predicate has the truth that its kind makes of its table or of its children's truths.
pub fn each_truth_is_made_of_others()
    ensures { (tables : List PredicateTable) (binds : List (List Bind)) (nodes : List LPredicate)
        → AreInRange (predicate_names nodes) → HasNoCycle (predicate_names nodes)
        → (at : ℕ) → at < length nodes → predicate_truth tables binds nodes at
        ≡ truth_of_found (table_truth_at tables binds at) (predicate_truth tables binds nodes)
        (slice_get nodes at) }
{}
