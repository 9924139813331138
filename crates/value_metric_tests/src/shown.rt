//! What a report shows, as words: `7:0-10=5` is the row of a key from a start to an end.
use atom_record::{Leaf, Value};
use std::alloc::AllocError;
use value_metric::{Closed, Row};

/// What one report shows, with a `;` after it.
pub fn push_closed(text: &mut String, closed: &Closed<i64>) -> Result<(), AllocError> {
    for row in closed.rows.as_slice() {
        push_row(text, row)?;
    }
    push_count(text, "others", closed.not_kept)?;
    push_count(text, "dropped", closed.dropped)?;
    push_count(text, "missing", closed.missing)?;
    text.push_str("; ")
}

fn push_row(text: &mut String, row: &Row<i64>) -> Result<(), AllocError> {
    for place in 0..row.key.dims.len() {
        push_leaf(text, row.key.dims.get(place))?;
    }
    let (start, end, value) = (row.start, row.end, row.value);
    write!(text, ":{start}-{end}={value} ")
}

fn push_leaf(text: &mut String, leaf: Option<&Leaf>) -> Result<(), AllocError> {
    match leaf {
        Some(Leaf::One(Value::Int(number))) => write!(text, "{number}"),
        _ => text.push_str("?"),
    }
}

/// A count that isn't 0, with its name.
fn push_count(text: &mut String, name: &str, count: u64) -> Result<(), AllocError> {
    if count == 0 {
        return Ok(());
    }
    write!(text, "{name} {count} ")
}
