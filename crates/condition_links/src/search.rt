//! The truth of a condition.
ghost use Rattle.std.specs.Prelude.{◌≡◌, ℕ, ◌<◌, ◌≤◌, ◌+◌, length, map, slice_index_or, slice_get, true, Some, None};
ghost use Rattle.link_graph.specs.Links.{AreInRange, HasNoCycle};
ghost use Rattle.link_graph.specs.Depth.{EndsWithin};
ghost use Rattle.predicate_state.specs.declared.truth.Truth.{Truth};
ghost use Rattle.condition_links.specs.Conditions.{predicate_names, condition_of, predicate_truth, table_truth_at, truth_of_body, IsSoundTree, AreTables};
ghost use Rattle.condition_links.specs.FoundTruths.{AreFound};

use crate::joined::Seen;
use crate::steps::Steps;
use config_links::{CondTree, LPredBody, LPredicate, MOST_PREDICATES};
use predicate_state::{BindList, PredTable, Truth};
use std::sync::ledger::Ledger;

/// The truth of the condition. Each predicate is asked or joined at most once, and no memory is taken. It is one
/// question, whatever the condition is. A predicate that is no combination is asked at once.
pub fn query<L: Ledger>(
    tree: &CondTree,
    tables: &[PredTable],
    binds: &[BindList],
    asks: &mut Steps<L>,
) -> Truth
    requires sound { IsSoundTree tree.now }
    requires tables { AreTables tree.now.nodes tables.now binds.now }
    ensures truth { result ≡ condition_of tree.now tables.now binds.now }
    ensures asks { asks.new ≡ asks.old + 1 }
{
    asks.tick();
    let Some(root) = tree.root else {
        return Truth::True;
    };
    let nodes = tree.nodes.as_slice();
    if is_simple(&nodes[root as usize]) {
        return ask(tables, binds, root as usize);
    }
    let mut found = [None; MOST_PREDICATES];
    find(nodes, tables, binds, root as usize, nodes.len(), &mut found)
}

// Whether a predicate is no combination.
fn is_simple(predicate: &LPredicate) -> bool
    ensures { result ≡ true → (own : Truth) (truth : ℕ → Truth)
        → truth_of_body own truth predicate.now.body ≡ own }
{
    match &predicate.body {
        LPredBody::Simple {
            start: _,
            stop: _,
            stop_all: _,
            dims: _,
            spec: _,
        } => true,
        LPredBody::Combo { op: _, children: _ } => false,
    }
}

// The truth at a place from which fewer references lead down than `depth`. What is found is kept in `found`.
fn find(
    nodes: &[LPredicate],
    tables: &[PredTable],
    binds: &[BindList],
    at: usize,
    depth: usize,
    found: &mut [Option<Truth>],
) -> Truth
    requires few { length nodes.now ≤ length found.old }
    requires tables { AreTables nodes.now tables.now binds.now }
    requires here { at < length nodes.now }
    requires in_range { AreInRange (predicate_names nodes.now) }
    requires no_cycle { HasNoCycle (predicate_names nodes.now) }
    requires depth { EndsWithin (predicate_names nodes.now) depth at }
    requires found { AreFound (predicate_truth tables.now binds.now nodes.now) found.old }
    ensures truth { result ≡ predicate_truth tables.now binds.now nodes.now at }
    ensures found { AreFound (predicate_truth tables.now binds.now nodes.now) found.new }
{
    if let Some(truth) = found[at] {
        return truth;
    }
    let truth = match &nodes[at].body {
        LPredBody::Simple {
            start: _,
            stop: _,
            stop_all: _,
            dims: _,
            spec: _,
        } => ask(tables, binds, at),
        LPredBody::Combo { op, children } => {
            let mut seen = Seen::NONE;
            for child in children.as_slice() {
                seen = seen.with(find(nodes, tables, binds, *child as usize, depth - 1, found));
            }
            seen.joined(*op)
        }
    };
    found[at] = Some(truth);
    truth
}

// What the table at a place says under the binds there.
fn ask(tables: &[PredTable], binds: &[BindList], at: usize) -> Truth
    requires table { at < length tables.now }
    requires list { at < length binds.now }
    ensures { result ≡ table_truth_at tables.now binds.now at }
{
    tables[at].any(binds[at].as_slice())
}
