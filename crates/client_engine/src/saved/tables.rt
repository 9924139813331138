//! Whether tables that were built are those of predicates.
ghost use Rattle.std.specs.Prelude.{◌≡◌, IsTrue, ◌↔◌};
ghost use Rattle.known_conditions.specs.KeptPredicates.{HaveTheirSpecs};

use config_links::LPredicate;
use config_types::PredSpec;
use known_conditions::spec_of;
use predicate_state::PredTable;

/// Whether there is a table for each of these predicates, which is kept as the predicate says.
pub fn have_their_specs(predicates: &[LPredicate], tables: &[PredTable]) -> bool
    ensures { IsTrue result ↔ HaveTheirSpecs predicates.now tables.now }
{
    if predicates.len() != tables.len() {
        return false;
    }
    for place in 0..tables.len() {
        if !is_same_spec(tables[place].spec(), spec_of(&predicates[place].body)) {
            return false;
        }
    }
    true
}

// Whether tables that are kept so are kept alike.
fn is_same_spec(one: PredSpec, other: PredSpec) -> bool
    ensures { IsTrue result ↔ (one ≡ other) }
{
    one.nesting == other.nesting
        && one.unknown == other.unknown
        && one.bound == other.bound
        && one.leaves == other.leaves
}
