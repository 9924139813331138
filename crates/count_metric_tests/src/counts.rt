//! The rows: a producer, its calls, and what it hands out.
use super::calls::{act, call_of};
use super::shown::closed_text;
use count_metric::{CountProducer, Producer};
use flat_form::{FlatError, rebuild};
use std::alloc::{AllocError, Global};
use test_tools::{Row, Table, Tester, unsigned};

/// The table of producers.
pub struct Counts;

impl Table for Counts {
    fn marks(&self) -> &'static str {
        "made do"
    }

    fn run(&self, alloc: Global, tester: &mut Tester, row: &Row<'_>) -> Result<(), AllocError> {
        let text = row.text(alloc, "do")?;
        let Some(steps) = tester.written_out(text.as_str())? else {
            return Ok(());
        };
        match made(alloc, row.word("made")) {
            Some(counts) => run_steps(alloc, tester, counts, steps.as_str()),
            None => tester.differs("no producer", row.word("made")),
        }
    }
}

/// The producer whose time begins at 0, with buckets of a size, and with so many keys at most, as `10 2`, or with
/// overflow rows too, as `10 2 overflow`.
fn made(alloc: Global, text: &str) -> Option<CountProducer> {
    let (numbers, overflow) = match text.strip_suffix(" overflow") {
        Some(numbers) => (numbers, true),
        None => (text, false),
    };
    let (first, second) = numbers.split_once(' ')?;
    let size = unsigned(first)?;
    let bound = second.parse::<usize>().ok()?;
    if size < 1 || size > 86_400_000_000_000 || bound < 1 || bound > 3000 {
        return None;
    }
    Some(CountProducer::new(alloc, 0, size, bound, overflow))
}

/// Runs steps, which stand between semicolons.
fn run_steps(
    alloc: Global,
    tester: &mut Tester,
    made: CountProducer,
    steps: &str,
) -> Result<(), AllocError> {
    let mut counts = made;
    for step in steps.split(';') {
        if step.trim() == "rebuilt" {
            match rebuild(alloc, &counts) {
                Ok(built) => counts = built,
                Err(FlatError::Memory) => return Err(AllocError),
                Err(FlatError::Bad) => return tester.differs("not rebuilt", ""),
            }
        } else {
            run_step(alloc, tester, &mut counts, step.trim())?;
        }
    }
    Ok(())
}

/// Runs a step: a call, or one that compares what is handed out, as `gives ROWS`, or how much, as `sizes ROWS OTHERS`.
fn run_step(
    alloc: Global,
    tester: &mut Tester,
    counts: &mut CountProducer,
    step: &str,
) -> Result<(), AllocError> {
    if step.is_empty() {
        return Ok(());
    }
    if let Some(wanted) = step.strip_prefix("gives ") {
        tester.case();
        let found = closed_text(alloc, &counts.take())?;
        return tester.same_text("handed out", wanted, found.as_str());
    }
    if let Some(wanted) = step.strip_prefix("sizes ") {
        tester.case();
        let closed = counts.take();
        let (rows, others) = (closed.rows.len(), closed.not_kept);
        let found = format!(in alloc; "{rows} {others}")?;
        return tester.same_text("sizes", wanted, found.as_str());
    }
    match call_of(step) {
        Some(call) => act(alloc, counts, call),
        None => tester.differs("a step that isn't known", step),
    }
}
