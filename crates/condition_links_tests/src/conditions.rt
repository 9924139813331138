//! The truth of conditions.
use crate::samples::{asked, combo, simple, table};
use condition_links::combine3;
use config_links::CondTree;
use config_types::Operation;
use config_types::Operation::{And, Nand, Nor, Not, Or};
use predicate_state::Truth;
use predicate_state::Truth::{False, True, Unknown};
use sd_base::Seq;
use std::alloc::{AllocError, Global};
use std::test::*;

/// An operation, two children, and the truth.
const PAIRS: [(Operation, [Truth; 2], Truth); 12] = [
    (Or, [True, Unknown], Unknown),
    (Or, [Unknown, True], Unknown),
    (Or, [True, False], True),
    (Or, [False, False], False),
    (And, [False, Unknown], Unknown),
    (And, [True, True], True),
    (And, [True, False], False),
    (Nand, [True, True], False),
    (Nand, [False, True], True),
    (Nor, [False, False], True),
    (Nor, [Unknown, False], Unknown),
    (Nor, [False, True], False),
];

#[test]
fn an_unknown_child_makes_unknown(rt: HostRuntime) -> Result<(), Fail> {
    for (op, children, truth) in &PAIRS {
        assert!(rt; combine3(*op, children) == *truth, "at {op:?} {children:?}");
    }
    for (child, truth) in [(True, False), (False, True), (Unknown, Unknown)] {
        assert!(rt; combine3(Not, &[child]) == truth, "at {child:?}");
    }
    Ok(())
}

/// Predicates: a truth of a simple one, or an operation on those at these places.
#[derive(Clone, Copy)]
enum Node {
    Is(Truth),
    Of(Operation, &'static [u32]),
}

// The truth of the condition at a place among these predicates.
fn truth_at(alloc: Global, nodes: &[Node], root: Option<u32>) -> Result<Option<Truth>, AllocError> {
    let mut predicates = Seq::new(alloc);
    let mut tables = Seq::new(alloc);
    let mut lists = Seq::new(alloc);
    for node in nodes {
        match node {
            Node::Is(truth) => {
                predicates.push(simple(alloc))?;
                tables.push(table(alloc, *truth)?)?;
            }
            Node::Of(op, places) => {
                predicates.push(combo(alloc, *op, places)?)?;
                tables.push(table(alloc, Unknown)?)?;
            }
        }
        lists.push(Seq::new(alloc))?;
    }
    let tree = CondTree {
        root,
        nodes: predicates,
    };
    asked(alloc, &tree, tables.as_slice(), lists.as_slice())
}

/// Predicates, the condition, and its truth.
const TREES: [(&[Node], Option<u32>, Truth); 8] = [
    (&[], None, True),
    (&[Node::Is(False)], None, True),
    (&[Node::Is(False)], Some(0), False),
    (&[Node::Is(Unknown)], Some(0), Unknown),
    // a child may stand later, and be named twice
    (
        &[Node::Of(Not, &[1]), Node::Of(And, &[2, 2]), Node::Is(True)],
        Some(0),
        False,
    ),
    // one is named by two others
    (
        &[
            Node::Is(True),
            Node::Of(Not, &[0]),
            Node::Of(Or, &[0, 0]),
            Node::Of(Or, &[1, 2]),
        ],
        Some(3),
        True,
    ),
    (
        &[Node::Is(Unknown), Node::Is(True), Node::Of(Nor, &[0, 1])],
        Some(2),
        Unknown,
    ),
    // what the condition doesn't name isn't asked
    (
        &[Node::Is(Unknown), Node::Is(True), Node::Of(And, &[1, 1])],
        Some(2),
        True,
    ),
];

#[test]
fn follows_references(rt: HostRuntime) -> Result<(), Fail> {
    for (nodes, root, truth) in &TREES {
        assert!(rt;
            truth_at(rt.alloc(), nodes, *root)? == Some(*truth),
            "at {root:?}"
        );
    }
    Ok(())
}

// The truth of the last of a chain in which each names the one before twice.
fn chain_truth(alloc: Global, first: Truth, count: u32) -> Result<Option<Truth>, AllocError> {
    let mut predicates = Seq::new(alloc);
    let mut tables = Seq::new(alloc);
    let mut lists = Seq::new(alloc);
    predicates.push(simple(alloc))?;
    tables.push(table(alloc, first)?)?;
    lists.push(Seq::new(alloc))?;
    for place in 1..count {
        predicates.push(combo(alloc, And, &[place - 1, place - 1])?)?;
        tables.push(table(alloc, Unknown)?)?;
        lists.push(Seq::new(alloc))?;
    }
    let tree = CondTree {
        root: Some(count.saturating_sub(1)),
        nodes: predicates,
    };
    asked(alloc, &tree, tables.as_slice(), lists.as_slice())
}

#[test]
fn a_chain_of_three_hundred_is_asked(rt: HostRuntime) -> Result<(), Fail> {
    for truth in [True, False, Unknown] {
        assert!(rt;
            chain_truth(rt.alloc(), truth, 300)? == Some(truth),
            "at {truth:?}"
        );
    }
    assert!(rt; chain_truth(rt.alloc(), True, 301)?.is_none());
    Ok(())
}
