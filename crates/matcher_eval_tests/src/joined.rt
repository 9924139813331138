//! What operations make of the truths of their children, as `AND yes no = no`.
use config_types::Operation;
use matcher_eval::combine;
use std::alloc::{AllocError, Global};
use test_tools::{Row, Tester};

fn operation_of(name: &str) -> Option<Operation> {
    match name {
        "AND" => Some(Operation::And),
        "OR" => Some(Operation::Or),
        "NOT" => Some(Operation::Not),
        "NAND" => Some(Operation::Nand),
        "NOR" => Some(Operation::Nor),
        _ => None,
    }
}

fn truth_of(word: &str) -> Option<bool> {
    match word {
        "yes" => Some(true),
        "no" => Some(false),
        _ => None,
    }
}

/// Joins the truths of each line of a row.
pub fn run_joined(alloc: Global, tester: &mut Tester, row: &Row<'_>) -> Result<(), AllocError> {
    for line in row.block().lines() {
        if let Some(text) = line.strip_prefix("join ") {
            tester.case();
            tester.holds(line, is_joined_so(alloc, text)?)?;
        }
    }
    Ok(())
}

/// Whether an operation, its children's truths and its own are so. What isn't read isn't so.
fn is_joined_so(alloc: Global, text: &str) -> Result<bool, AllocError> {
    let (head, wanted) = text.split_once(" = ").unwrap_or((text, ""));
    let (name, children) = head.split_once(' ').unwrap_or((head, ""));
    let (Some(operation), Some(truth)) = (operation_of(name), truth_of(wanted)) else {
        return Ok(false);
    };
    let mut truths = Vec::new(alloc);
    for word in children.split_whitespace() {
        let Some(child) = truth_of(word) else {
            return Ok(false);
        };
        truths.push(child)?;
    }
    Ok(combine(operation, truths.as_slice()) == truth)
}
