//! What a report shows, as words: `7:0-10=5` is the row of a key from a start to an end.
use atom_record::{DimKey, Leaf, Value};
use duration_metric::{Closed, Row};
use std::alloc::AllocError;

/// What one report shows, with a `;` after it.
pub fn push_closed(text: &mut String, closed: &Closed<u64>) -> Result<(), AllocError> {
    for row in closed.rows.as_slice() {
        push_row(text, row)?;
    }
    push_count(text, "others", closed.not_kept)?;
    push_count(text, "dropped", closed.dropped)?;
    push_count(text, "missing", closed.missing)?;
    text.push_str("; ")
}

/// What one report shows, as the number of its rows and the sum of their values, with a `;` after it.
pub fn push_total(text: &mut String, closed: &Closed<u64>) -> Result<(), AllocError> {
    let mut total = 0_u64;
    for row in closed.rows.as_slice() {
        total = total.saturating_add(row.value);
    }
    let count = closed.rows.len();
    write!(text, "{count} rows {total} ; ")
}

fn push_row(text: &mut String, row: &Row<u64>) -> Result<(), AllocError> {
    push_key(text, &row.key.dims)?;
    let (start, end, value) = (row.start, row.end, row.value);
    write!(text, ":{start}-{end}={value} ")
}

/// The numbers that a key is made of.
pub fn push_key(text: &mut String, key: &DimKey) -> Result<(), AllocError> {
    for place in 0..key.len() {
        push_leaf(text, key.get(place))?;
    }
    Ok(())
}

fn push_leaf(text: &mut String, leaf: Option<&Leaf>) -> Result<(), AllocError> {
    match leaf {
        Some(Leaf::One(Value::Int(number))) => write!(text, "{number}"),
        _ => text.push_str("?"),
    }
}

/// A count that isn't 0, with its name.
fn push_count(text: &mut String, name: &str, count: u64) -> Result<(), AllocError> {
    if count == 0 {
        return Ok(());
    }
    write!(text, "{name} {count} ")
}
