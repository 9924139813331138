//! What is saved of predicates: their tables.
ghost use Rattle.std.specs.Prelude.{◌≡◌, ◌++◌, All, OnOk, OnErr};
ghost use Rattle.flat_form.specs.Flat.{IsFront, list_items};
ghost use Rattle.predicate_state.specs.PredicateItems.{predicate_items, IsPredicateTable};
ghost use Rattle.known_conditions.specs.KeptPredicates.{HaveTheirSpecs};

use super::Conditions;
use crate::flat_lists::{flatten_list, show_list};
use flat_form::Items;
use std::alloc::{AllocError, Global};

impl Conditions {
    /// Each table is valid, and kept as its predicate says.
    pub fn show_saved(&self)
        ensures specs { HaveTheirSpecs self.now.predicates self.now.tables }
        ensures tables { All IsPredicateTable self.now.tables }
    {
        show_list(self.tables.as_slice());
    }

    /// Adds the items of the tables.
    pub fn flatten(&self, alloc: Global, out: &mut Items) -> Result<(), AllocError>
        ensures added { OnOk result (out.new ≡ out.old ++ list_items predicate_items self.now.tables) }
        ensures err { OnErr result (IsFront out.old out.new) }
    {
        flatten_list(self.tables.as_slice(), alloc, out)
    }
}
