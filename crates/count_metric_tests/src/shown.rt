//! What a producer hands out, as text.
use atom_record::{DimKey, Leaf, MetricKey, Value};
use count_metric::{Closed, CountCell, Row};
use sd_base::Seq;
use std::alloc::{AllocError, Global};

/// The key with one number.
pub fn key_of(alloc: Global, number: i32) -> Result<MetricKey, AllocError> {
    let mut dims = DimKey::new(alloc);
    dims.push(Leaf::One(Value::Int(number)))?;
    Ok(MetricKey {
        dims,
        slices: Seq::new(alloc),
    })
}

/// The empty key.
pub fn no_key(alloc: Global) -> MetricKey {
    MetricKey {
        dims: DimKey::new(alloc),
        slices: Seq::new(alloc),
    }
}

/// The rows and what isn't among them, as `1:0..10=2 others 0 drops 2`: keys, starts, ends and counts. An overflow row
/// says so, as `overflow none:0..10=2`.
pub fn closed_text(alloc: Global, closed: &Closed<CountCell>) -> Result<String, AllocError> {
    let mut text = String::new(alloc);
    for row in closed.rows.as_slice() {
        push_row(&mut text, row)?;
    }
    let (others, drops, missing) = (closed.not_kept, closed.dropped, closed.missing);
    write!(text, "others {others} drops {drops}")?;
    if missing > 0 {
        write!(text, " missing {missing}")?;
    }
    Ok(text)
}

fn push_row(text: &mut String, row: &Row<CountCell>) -> Result<(), AllocError> {
    if row.value.overflow {
        text.push_str("overflow ")?;
    }
    push_key(text, &row.key)?;
    let (start, end, number) = (row.start, row.end, row.value.number);
    write!(text, ":{start}..{end}={number} ")
}

/// Puts the number of a key that has one and nothing else, or that the key is empty.
fn push_key(text: &mut String, key: &MetricKey) -> Result<(), AllocError> {
    match (key.dims.len(), key.dims.get(0), key.slices.is_empty()) {
        (1, Some(Leaf::One(Value::Int(number))), true) => write!(text, "{number}"),
        (0, None, true) => text.push_str("none"),
        _ => text.push_str("another key"),
    }
}
