//! The rows: what a producer is made with, its calls, and what its reports show.
use super::{pulled, pushed};
use config_types::{Aggregation, DiffSpec, Direction};
use std::alloc::{AllocError, Global};
use test_tools::{Row, Table, Tester, unsigned};
use value_metric::{PulledValue, PushedValue};

/// The table of producers of values.
pub struct Values;

impl Table for Values {
    fn marks(&self) -> &'static str {
        "pushed pulled calls shows"
    }

    fn run(&self, alloc: Global, tester: &mut Tester, row: &Row<'_>) -> Result<(), AllocError> {
        match made_by(row) {
            Some(made) => run_row(alloc, tester, row, made),
            None => tester.differs("no producer", row.block()),
        }
    }
}

/// What a producer is made with. Its time begins at a base, a full bucket has a size, and a part admits so many keys.
#[derive(Clone, Copy)]
struct Made {
    aggregation: Aggregation,
    base: u64,
    size: u64,
    bound: u64,
    /// How differences are taken, of pulled values.
    spec: Option<DiffSpec>,
}

/// What the producer of a row is made with.
fn made_by(row: &Row<'_>) -> Option<Made> {
    if row.has("pulled") {
        return pulled_of(row.word("pulled"));
    }
    made_of(row.word("pushed"))
}

/// What a producer is made with, as `sum 0 10 2`.
fn made_of(text: &str) -> Option<Made> {
    let (aggregation, rest) = text.split_once(' ')?;
    let (base, rest) = rest.split_once(' ')?;
    let (size, bound) = rest.split_once(' ')?;
    Some(Made {
        aggregation: aggregation_of(aggregation)?,
        base: unsigned(base)?,
        size: unsigned(size)?,
        bound: unsigned(bound)?,
        spec: None,
    })
}

/// What a producer of pulled values is made with, as `up reset+skip sum 0 10 2`: the way in which values go, and what
/// is asked for (`plain`, where nothing is).
fn pulled_of(text: &str) -> Option<Made> {
    let (direction, rest) = text.split_once(' ')?;
    let (flags, rest) = rest.split_once(' ')?;
    let made = made_of(rest)?;
    let spec = DiffSpec {
        agg: made.aggregation,
        direction: direction_of(direction)?,
        abs_reset: has_flag(flags, "reset"),
        skip_zero: has_flag(flags, "skip"),
        zero_base: has_flag(flags, "zero"),
    };
    Some(Made {
        aggregation: made.aggregation,
        base: made.base,
        size: made.size,
        bound: made.bound,
        spec: Some(spec),
    })
}

fn has_flag(flags: &str, name: &str) -> bool {
    flags.split('+').any(|flag| flag == name)
}

fn direction_of(word: &str) -> Option<Direction> {
    match word {
        "up" => Some(Direction::Increasing),
        "down" => Some(Direction::Decreasing),
        "any" => Some(Direction::Any),
        _ => None,
    }
}

fn aggregation_of(word: &str) -> Option<Aggregation> {
    match word {
        "sum" => Some(Aggregation::Sum),
        "min" => Some(Aggregation::Min),
        "max" => Some(Aggregation::Max),
        _ => None,
    }
}

fn run_row(
    alloc: Global,
    tester: &mut Tester,
    row: &Row<'_>,
    made: Made,
) -> Result<(), AllocError> {
    let text = row.text(alloc, "calls")?;
    let Some(calls) = tester.written_out(text.as_str())? else {
        return Ok(());
    };
    let wanted = row.text(alloc, "shows")?;
    let Some(wanted) = tester.written_out(wanted.as_str())? else {
        return Ok(());
    };
    let Some(found) = played_by(alloc, made, calls.as_str())? else {
        return tester.differs("no producer is made with these numbers", "");
    };
    tester.case();
    tester.same_text("shown", wanted.as_str().trim(), found.as_str().trim())
}

/// What the reports of these calls show, where a producer is made with these numbers.
fn played_by(alloc: Global, made: Made, calls: &str) -> Result<Option<String>, AllocError> {
    if made.base >= 1 << 63 || made.size < 1 || made.size > 86_400_000_000_000 {
        return Ok(None);
    }
    if made.bound < 1 || made.bound > 3000 {
        return Ok(None);
    }
    let bound = made.bound as usize;
    match made.spec {
        None => {
            let mut values = PushedValue::new(alloc, made.base, made.size, bound, made.aggregation);
            Ok(Some(pushed::played(alloc, &mut values, made.size, calls)?))
        }
        Some(spec) => {
            let mut values = PulledValue::new(alloc, made.base, made.size, bound, spec);
            Ok(Some(pulled::played(alloc, &mut values, made.size, calls)?))
        }
    }
}
