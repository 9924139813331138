//! Trees of predicates and their tables.
ghost use Rattle.condition_links.specs.Conditions.{predicate_names, condition_of, IsSoundTree, AreTables};
ghost use Rattle.link_graph.specs.Links.{AreInRange, HasNoCycle};
ghost use Rattle.std.specs.Prelude.{◌≡◌, IfOk, IfSome, IsTrue, ◌<◌, ◌^◌, length};

use atom_record::DimKey;
use condition_links::{Steps, query};
use config_links::{CondTree, LPredBody, LPredicate, MOST_PREDICATES};
use config_types::{Operation, PredSpec};
use field_select::FieldSet;
use link_graph::{are_in_range, first_on_cycle};
use predicate_state::{BindList, PredEvent, PredTable, Truth};
use sd_base::Seq;
use std::alloc::{AllocError, Global};
use std::marker::Brand;
use std::sync::ledger::{Blank, Ledger};

/// How keys of no leaves are counted: a table of one key at most, which is unknown at first.
pub const SPEC: PredSpec = PredSpec {
    nesting: false,
    unknown: true,
    bound: 1,
    leaves: 0,
};

/// A simple predicate without dimensions.
pub fn simple(alloc: Global) -> LPredicate {
    let dims = FieldSet {
        atom_id: 0,
        leaves: Seq::new(alloc),
    };
    let body = LPredBody::Simple {
        start: None,
        stop: None,
        stop_all: None,
        dims,
        spec: SPEC,
    };
    LPredicate { id: 0, body }
}

/// A combination of the predicates at these places.
pub fn combo(alloc: Global, op: Operation, places: &[u32]) -> Result<LPredicate, AllocError> {
    let children = Seq::from_slice(alloc, places)?;
    let body = LPredBody::Combo { op, children };
    Ok(LPredicate { id: 0, body })
}

/// The table of a predicate without dimensions that is true, false or unknown.
pub fn table(alloc: Global, truth: Truth) -> Result<PredTable, AllocError> {
    let mut table = PredTable::new(alloc, SPEC);
    let key = DimKey::new(alloc);
    match truth {
        Truth::True => table.apply(PredEvent::Start, &key)?,
        Truth::False => table.apply(PredEvent::Stop, &key)?,
        Truth::Unknown => {}
    }
    Ok(table)
}

// Whether a root is one of so many predicates, or there is none.
fn is_below(root: Option<u32>, count: usize) -> bool
    ensures { IsTrue result → IfSome root (λ place. place < count) }
{
    match root {
        Some(place) => (place as usize) < count,
        None => true,
    }
}

// Whether all predicates name predicates that are there.
fn are_there(nodes: &[LPredicate]) -> bool
    requires { length nodes.now < 2 ^ 32 }
    ensures { IsTrue result → AreInRange (predicate_names nodes.now) }
{
    are_in_range(nodes)
}

// Whether no predicate is below itself.
fn stand_on_no_cycle(alloc: Global, nodes: &[LPredicate]) -> Result<bool, AllocError>
    requires few { length nodes.now < 2 ^ 32 }
    requires in_range { AreInRange (predicate_names nodes.now) }
    ensures { IfOk result (λ free. IsTrue free → HasNoCycle (predicate_names nodes.now)) }
{
    match first_on_cycle(alloc, nodes)? {
        Some(_) => Ok(false),
        None => Ok(true),
    }
}

/// The truth of a condition, or none where the tree isn't sound or a table or a list is wanting.
pub fn asked(
    alloc: Global,
    tree: &CondTree,
    tables: &[PredTable],
    binds: &[BindList],
) -> Result<Option<Truth>, AllocError> {
    let nodes = tree.nodes.as_slice();
    let count = nodes.len();
    if count > MOST_PREDICATES || tables.len() != count || binds.len() != count {
        return Ok(None);
    }
    if !is_below(tree.root, count) {
        return Ok(None);
    }
    if !are_there(nodes) || !stand_on_no_cycle(alloc, nodes)? {
        return Ok(None);
    }
    Ok(Some(counted::<Brand>(Blank::new(1), tree, tables, binds)))
}

// The truth of a condition, which is asked on a counter of its own.
fn counted<L: Ledger>(
    blank: Blank,
    tree: &CondTree,
    tables: &[PredTable],
    binds: &[BindList],
) -> Truth
    requires name { blank.name ≡ L.name }
    requires parts { blank.parts ≡ L.parts }
    requires some { 0 < blank.parts }
    requires sound { IsSoundTree tree.now }
    requires tables { AreTables tree.now.nodes tables.now binds.now }
    ensures { result ≡ condition_of tree.now tables.now binds.now }
{
    let mut asks: Steps<L> = Steps::new(blank);
    query(tree, tables, binds, &mut asks)
}
