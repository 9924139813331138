//! The rows: what a producer is made with, its calls, and what its reports show.
use super::calls::played;
use super::saved::run_built;
use config_types::PredSpec;
use duration_metric::{MaxProducer, SumProducer};
use std::alloc::{AllocError, Global};
use test_tools::{Row, Table, Tester, unsigned};

/// The table of producers of durations.
pub struct Durations;

impl Table for Durations {
    fn marks(&self) -> &'static str {
        "sum longest calls shows items built"
    }

    fn run(&self, alloc: Global, tester: &mut Tester, row: &Row<'_>) -> Result<(), AllocError> {
        if row.has("items") {
            return run_built(alloc, tester, row);
        }
        let longest = row.word("longest");
        let is_longest = !longest.is_empty();
        let text = if is_longest { longest } else { row.word("sum") };
        match made_of(is_longest, text) {
            Some(made) => run_row(alloc, tester, row, made),
            None => tester.differs("no producer", text),
        }
    }
}

/// What a producer is made with: whether the longest time is shown or their sum, where its time begins, how long a
/// bucket is, and how its inner keys are kept.
#[derive(Clone, Copy)]
struct Made {
    is_longest: bool,
    base: u64,
    size: u64,
    spec: PredSpec,
}

/// What a producer is made with, as `0 10 2`, and then `nesting`, `unknown`, both, or neither.
fn made_of(is_longest: bool, text: &str) -> Option<Made> {
    let (base, rest) = text.split_once(' ')?;
    let (size, rest) = rest.split_once(' ')?;
    let (bound, rest) = rest.split_once(' ').unwrap_or((rest, ""));
    Some(Made {
        is_longest,
        base: unsigned(base)?,
        size: unsigned(size)?,
        spec: PredSpec {
            nesting: rest.contains("nesting"),
            unknown: rest.contains("unknown"),
            bound: bound.parse::<u32>().ok()?,
            leaves: 1,
        },
    })
}

fn run_row(
    alloc: Global,
    tester: &mut Tester,
    row: &Row<'_>,
    made: Made,
) -> Result<(), AllocError> {
    let text = row.text(alloc, "calls")?;
    let Some(calls) = tester.written_out(text.as_str())? else {
        return Ok(());
    };
    let wanted = row.text(alloc, "shows")?;
    let Some(wanted) = tester.written_out(wanted.as_str())? else {
        return Ok(());
    };
    let Some(found) = played_by(alloc, made, calls.as_str())? else {
        return tester.differs("no producer is made with these numbers", "");
    };
    tester.case();
    tester.same_text("shown", wanted.as_str().trim(), found.as_str().trim())
}

/// What the reports of these calls show, where a producer is made with these numbers.
fn played_by(alloc: Global, made: Made, calls: &str) -> Result<Option<String>, AllocError> {
    if made.base >= 1 << 63 || made.size < 1 || made.size > 86_400_000_000_000 {
        return Ok(None);
    }
    if made.spec.bound < 1 || made.spec.bound > 3000 {
        return Ok(None);
    }
    if made.is_longest {
        let mut longest = MaxProducer::new(alloc, made.base, made.size, made.spec);
        return Ok(Some(played(alloc, &mut longest, made.size, calls)?));
    }
    let mut sums = SumProducer::new(alloc, made.base, made.size, made.spec);
    Ok(Some(played(alloc, &mut sums, made.size, calls)?))
}
