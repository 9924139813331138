//! A row: steps with what they answer, one after another.

use crate::shared::Shared;
use config_types::Operation;
use std::alloc::{AllocError, Global};

/// The first step that answers otherwise, and what it answers.
pub fn difference(alloc: Global, row: &str) -> Result<Option<String>, AllocError> {
    let mut shared = Shared::new(alloc);
    for step in row.split_whitespace() {
        let (asked, want) = step.split_once('=').unwrap_or((step, ""));
        let got = answer(alloc, &mut shared, asked)?;
        if got.as_str() != want {
            return Ok(Some(format!(in alloc; "{asked} is {got}")?));
        }
    }
    Ok(None)
}

// What a step answers, as a word.
fn answer(alloc: Global, shared: &mut Shared, step: &str) -> Result<String, AllocError> {
    let (word, rest) = step.split_once(':').unwrap_or((step, ""));
    match word {
        "simple" => simple(alloc, shared, rest),
        "atom" => asked(alloc, shared, rest),
        "release" => released(alloc, shared, rest),
        "uses" => uses(alloc, shared, rest),
        "result" => result(alloc, shared, rest),
        "chain" => chain(alloc, shared, rest),
        "many" => many(alloc, shared, rest),
        "wide" => wide(alloc, shared, rest),
        _ => combination(alloc, shared, word, rest),
    }
}

fn slot_text(alloc: Global, slot: Option<usize>) -> Result<String, AllocError> {
    match slot {
        Some(number) => format!(in alloc; "{number}"),
        None => String::from_str(alloc, "none"),
    }
}

// A matcher of an id, and of a number after a comma.
fn simple(alloc: Global, shared: &mut Shared, text: &str) -> Result<String, AllocError> {
    let (id, number) = text.split_once(',').unwrap_or((text, ""));
    let Ok(id) = id.parse::<i32>() else {
        return String::from_str(alloc, "no id");
    };
    let slot = shared.simple(id, number.parse::<i64>().ok())?;
    slot_text(alloc, slot)
}

fn operation_of(word: &str) -> Option<Operation> {
    match word {
        "and" => Some(Operation::And),
        "or" => Some(Operation::Or),
        "not" => Some(Operation::Not),
        "nand" => Some(Operation::Nand),
        "nor" => Some(Operation::Nor),
        _ => None,
    }
}

fn combination(
    alloc: Global,
    shared: &mut Shared,
    word: &str,
    text: &str,
) -> Result<String, AllocError> {
    let Some(op) = operation_of(word) else {
        return String::from_str(alloc, "no such step");
    };
    let mut children = Vec::new(alloc);
    for child in text.split(',') {
        if let Ok(number) = child.parse::<usize>() {
            children.push(number)?;
        }
    }
    let slot = shared.combination(op, children.as_slice())?;
    slot_text(alloc, slot)
}

fn asked(alloc: Global, shared: &mut Shared, text: &str) -> Result<String, AllocError> {
    let Ok(id) = text.parse::<u32>() else {
        return String::from_str(alloc, "no id");
    };
    match shared.evaluate(id)? {
        Some(asked) => format!(in alloc; "{asked}"),
        None => String::from_str(alloc, "no atom"),
    }
}

fn released(alloc: Global, shared: &mut Shared, text: &str) -> Result<String, AllocError> {
    let Ok(number) = text.parse::<usize>() else {
        return String::from_str(alloc, "no slot");
    };
    if !shared.release(number) {
        return String::from_str(alloc, "none");
    }
    uses_text(alloc, shared, number)
}

fn uses(alloc: Global, shared: &mut Shared, text: &str) -> Result<String, AllocError> {
    let Ok(number) = text.parse::<usize>() else {
        return String::from_str(alloc, "no slot");
    };
    uses_text(alloc, shared, number)
}

// The outside uses of a live slot.
fn uses_text(alloc: Global, shared: &Shared, number: usize) -> Result<String, AllocError> {
    match shared.result(number) {
        Some(_) => {
            let uses = shared.uses(number);
            format!(in alloc; "{uses}")
        }
        None => String::from_str(alloc, "gone"),
    }
}

fn result(alloc: Global, shared: &mut Shared, text: &str) -> Result<String, AllocError> {
    let Ok(number) = text.parse::<usize>() else {
        return String::from_str(alloc, "no slot");
    };
    match shared.result(number) {
        Some(truth) => format!(in alloc; "{truth}"),
        None => String::from_str(alloc, "gone"),
    }
}

// So many combinations, each of the one before twice, over slot 0. All but the last are released.
fn chain(alloc: Global, shared: &mut Shared, text: &str) -> Result<String, AllocError> {
    let Ok(count) = text.parse::<usize>() else {
        return String::from_str(alloc, "no count");
    };
    let mut below: usize = 0;
    for _ in 0..count {
        let Some(next) = shared.combination(Operation::And, &[below, below])? else {
            return String::from_str(alloc, "none");
        };
        shared.release(below);
        below = next;
    }
    format!(in alloc; "{below}")
}

// So many interns of one matcher.
fn many(alloc: Global, shared: &mut Shared, text: &str) -> Result<String, AllocError> {
    let Ok(count) = text.parse::<usize>() else {
        return String::from_str(alloc, "no count");
    };
    let mut slot = None;
    for _ in 0..count {
        slot = shared.simple(5, None)?;
    }
    slot_text(alloc, slot)
}

// So many combinations, each of slot 0 and of the one before. All are held.
fn wide(alloc: Global, shared: &mut Shared, text: &str) -> Result<String, AllocError> {
    let Ok(count) = text.parse::<usize>() else {
        return String::from_str(alloc, "no count");
    };
    let mut below: usize = 0;
    for _ in 0..count {
        let Some(next) = shared.combination(Operation::And, &[0, below])? else {
            return String::from_str(alloc, "none");
        };
        below = next;
    }
    format!(in alloc; "{below}")
}
