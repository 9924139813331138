//! What holds of all references, whatever code follows them.
ghost use Rattle.std.specs.Prelude.{◌≡◌, ℕ, List};
ghost use Rattle.link_graph.specs.Links.{AreInRange, HasNoCycle, IsFirstOnCycle, AreBothFirst, IsOrder};
ghost use Rattle.link_graph.specs.Depth.{AllEnd};
ghost use Rattle.link_graph.specs.Unrolling.{AllMeetTheirStep};
ghost use Rattle.link_graph.specs.Within.{FindsReached};
ghost use Rattle.link_graph.specs.Ids.{IdNode, FindsReachedById, FirstResolves, NoneResolves};

/// Where there is an order, no place reaches itself.
pub fn an_order_has_no_cycle()
    ensures { (links : List (List ℕ)) (order : List ℕ) → IsOrder links order → HasNoCycle links }
{}

/// Where no place reaches itself, no list of references is as long as there are places.
pub fn without_a_cycle_all_end()
    ensures { (links : List (List ℕ)) → AreInRange links → HasNoCycle links → AllEnd links }
{}

/// Where every list of references ends, a function that looks at what each place names is known by following as many
/// references as there are places.
pub fn values_come_from_below<V>()
    ensures { (links : List (List ℕ)) → AllEnd links → AllMeetTheirStep V links }
{}

/// Only one place is the first on a cycle, and where there is one, there is a cycle.
pub fn one_place_is_first()
    ensures one { (links : List (List ℕ)) (x y : ℕ) → AreBothFirst links x y → x ≡ y }
    ensures cycle { (links : List (List ℕ)) (x : ℕ) → IsFirstOnCycle links x → ¬ HasNoCycle links }
{}

/// A search that follows no more references than there are entities finds what is reached, by ids and by places.
pub fn so_many_references_are_enough()
    ensures ids { (nodes : List IdNode) → FindsReachedById nodes }
    ensures places { (links : List (List ℕ)) → FindsReached links }
{}

/// Where the ids of a kind differ and each that is named is there, cycles by ids and by places are the same.
pub fn places_stand_for_ids()
    ensures first { (nodes : List IdNode) (links : List (List ℕ)) → FirstResolves nodes links }
    ensures none { (nodes : List IdNode) (links : List (List ℕ)) → NoneResolves nodes links }
{}
