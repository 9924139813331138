//! The steps of a lane, and what its reports show.
use atom_record::{DimKey, Leaf, MetricKey, Value};
use count_metric::{Closed, CountCell, CountProducer, Row};
use flat_form::{FlatError, rebuild};
use metric_lane::Lane;
use sd_base::Seq;
use std::alloc::{AllocError, Global};

/// One step: a frame with an arrival of a key, a frame without one, a pull, or a report and what it shows.
#[derive(Drop)]
pub enum Step<'a> {
    Came(u64, i32),
    Passed(u64),
    Pull(u64),
    Report(u64, bool, Shown<'a>),
}

/// What a report shows: rows of key, start, end and count; how many weren't kept; how many were dropped.
#[derive(Drop)]
pub struct Shown<'a> {
    pub rows: &'a [(i32, u64, u64, u64)],
    pub not_kept: u64,
    pub dropped: u64,
}

// The key of one number.
fn key_of(alloc: Global, number: i32) -> Result<MetricKey, AllocError> {
    let mut dims = DimKey::new(alloc);
    dims.push(Leaf::One(Value::Int(number)))?;
    Ok(MetricKey {
        dims,
        slices: Seq::new(alloc),
    })
}

// Whether a row is of this key, these times and this count.
fn is_row(row: &Row<CountCell>, wanted: (i32, u64, u64, u64)) -> bool {
    let (number, start, end, count) = wanted;
    let same_key = match row.key.dims.get(0) {
        Some(Leaf::One(Value::Int(found))) => *found == number,
        _ => false,
    };
    same_key
        && row.start == start
        && row.end == end
        && row.value.number == count
        && !row.value.overflow
}

// Whether a report shows just this.
fn shows(closed: &Closed<CountCell>, shown: &Shown) -> bool {
    let mut same = closed.rows.len() == shown.rows.len();
    for (row, wanted) in closed.rows.as_slice().iter().zip(shown.rows) {
        same &= is_row(row, *wanted);
    }
    same && closed.not_kept == shown.not_kept
        && closed.dropped == shown.dropped
        && closed.missing == 0
}

// A key comes, at even times as the lane's own, at odd times as one that is shown.
fn comes(lane: &mut Lane<CountProducer>, at: u64, key: MetricKey) -> Result<(), AllocError> {
    if at % 2 == 0 {
        return lane.log(at, false, Some(key));
    }
    lane.log_of(at, false, Some(&key))
}

// Takes one step; whether a report shows what it has to.
fn goes(alloc: Global, lane: &mut Lane<CountProducer>, step: &Step) -> Result<bool, AllocError> {
    match step {
        Step::Came(at, number) => {
            comes(lane, *at, key_of(alloc, *number)?)?;
            Ok(true)
        }
        Step::Passed(at) => {
            lane.log(*at, false, None)?;
            Ok(true)
        }
        Step::Pull(at) => {
            lane.log(*at, true, None)?;
            Ok(true)
        }
        Step::Report(at, include_current, shown) => {
            let closed = lane.report(*at, *include_current)?;
            Ok(shows(&closed, shown))
        }
    }
}

/// How many of these steps go as they have to, up to the first that doesn't: with the lane, and with one beside it that
/// is saved before each step and built again from its items.
pub fn run(
    alloc: Global,
    lane: &mut Lane<CountProducer>,
    steps: &[Step],
) -> Result<usize, FlatError> {
    let mut saved = rebuild(alloc, &*lane)?;
    for (place, step) in steps.iter().enumerate() {
        let mut built = rebuild(alloc, &saved)?;
        if !goes(alloc, lane, step)? || !goes(alloc, &mut built, step)? {
            return Ok(place);
        }
        saved = built;
    }
    Ok(steps.len())
}
