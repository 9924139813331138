//! What comes to an instance, by words.
use super::fed::Fed;
use super::shown::text_of;
use std::alloc::{AllocError, Global};
use test_tools::{Tester, unsigned};

/// Runs steps, which stand between semicolons. After each the instance is saved and built again, where that is to be
/// done.
pub fn run_steps(
    alloc: Global,
    tester: &mut Tester,
    fed: &mut Fed,
    steps: &str,
) -> Result<(), AllocError> {
    for step in steps.split(';') {
        if !step.trim().is_empty() {
            run_step(alloc, tester, fed, step.trim())?;
            fed.renew();
        }
    }
    Ok(())
}

/// Runs a step: a word, and what it says.
fn run_step(
    alloc: Global,
    tester: &mut Tester,
    fed: &mut Fed,
    step: &str,
) -> Result<(), AllocError> {
    let (name, rest) = step.split_once(' ').unwrap_or((step, ""));
    if name == "told" {
        return tell(alloc, tester, fed, rest);
    }
    let (time, words) = rest.split_once(' ').unwrap_or((rest, ""));
    let Some(at) = unsigned(time) else {
        return tester.differs("a step with no time", step);
    };
    let is_taken = match name {
        "sees" => see(alloc, tester, fed, at, words)?,
        "ticks" => fed.tick(at)?,
        "fails" => fed.failed_pull(at)?,
        "pulls" => pull(alloc, tester, fed, at, words)?,
        "slept" => fed.catch_up(at, false)?,
        "slept-to-pull" => fed.catch_up(at, true)?,
        "shows" => show(alloc, tester, fed, at, false, words)?,
        "cuts" => show(alloc, tester, fed, at, true, words)?,
        _ => false,
    };
    tester.holds(step, is_taken)
}

/// Tells the book of states an atom by its id and entries, as `27 1=int:6,exclusive`.
pub fn tell(
    alloc: Global,
    tester: &mut Tester,
    fed: &mut Fed,
    words: &str,
) -> Result<(), AllocError> {
    let payload = payload_of(alloc, tester, words)?;
    let is_told = fed.tell(payload.as_slice())?;
    tester.holds(words, is_told)
}

/// The payload of an id and entries. Where a word isn't known, which is told, it has no byte.
fn payload_of(alloc: Global, tester: &mut Tester, words: &str) -> Result<Vec<u8>, AllocError> {
    let text = format!(in alloc; "u32:{words}")?;
    match tester.bytes(text.as_str())? {
        Some(payload) => Ok(payload),
        None => Ok(Vec::new(alloc)),
    }
}

/// Gives the book of states and the instance an atom, after the truths of all matchers, as `tf 5 1=int:3`.
fn see(
    alloc: Global,
    tester: &mut Tester,
    fed: &mut Fed,
    at: u64,
    words: &str,
) -> Result<bool, AllocError> {
    let (letters, words) = words.split_once(' ').unwrap_or((words, ""));
    let payload = payload_of(alloc, tester, words)?;
    let Some(truths) = truths_of(alloc, letters)? else {
        return Ok(false);
    };
    if !fed.tell(payload.as_slice())? {
        return Ok(false);
    }
    fed.atom(at, payload.as_slice(), truths.as_slice())
}

/// Gives the instance a pull of two atoms, as `10001 1=int:3 / 10001 1=int:4`.
fn pull(
    alloc: Global,
    tester: &mut Tester,
    fed: &mut Fed,
    at: u64,
    words: &str,
) -> Result<bool, AllocError> {
    let (one, other) = words.split_once(" / ").unwrap_or((words, ""));
    let one = payload_of(alloc, tester, one)?;
    let other = payload_of(alloc, tester, other)?;
    fed.pull(at, one.as_slice(), other.as_slice())
}

/// The truths of letters, each `t` or `f`.
fn truths_of(alloc: Global, letters: &str) -> Result<Option<Vec<bool>>, AllocError> {
    let mut truths = Vec::new(alloc);
    for letter in letters.bytes() {
        if letter != b't' && letter != b'f' {
            return Ok(None);
        }
        truths.push(letter == b't')?;
    }
    Ok(Some(truths))
}

/// Compares what a report shows, if that isn't `any`.
fn show(
    alloc: Global,
    tester: &mut Tester,
    fed: &mut Fed,
    at: u64,
    is_cut: bool,
    wanted: &str,
) -> Result<bool, AllocError> {
    let Some(tree) = fed.report(at, is_cut)? else {
        return Ok(false);
    };
    tester.case();
    if wanted == "any" {
        return Ok(true);
    }
    let found = text_of(alloc, &tree)?;
    tester.same_text("report", wanted, found.as_str())?;
    Ok(true)
}
