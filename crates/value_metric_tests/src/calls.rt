//! The calls that all producers have, as words: `cross:10+2` is the crossing of a full end and of so many full buckets
//! after it, `cut:5` a cut, and `take` a report. After `rebuilt` a producer goes on that was built from its items, and
//! `with:3=7` tells whether one is built where the number 7 stands at the place 3.
use super::forms::{Other, change_of, go_on, try_other};
use super::shown::push_closed;
use atom_record::{DimKey, Leaf, MetricKey, Value};
use bucket_clock::Crossings;
use flat_form::Flat;
use sd_base::Seq;
use std::alloc::{AllocError, Global};
use test_tools::unsigned;
use value_metric::Producer;

/// One call.
#[derive(Clone, Copy)]
pub enum Do {
    /// A frame crosses a full end, and so many full buckets after it.
    Cross(u64, u64),
    /// A report cuts the open part.
    Cut(u64),
    /// A report is made.
    Take,
    /// What was built from the items goes on.
    GoOn,
    /// Another item stands at a place.
    With(usize, Other),
}

/// The call of a word.
pub fn call_of(word: &str) -> Option<Do> {
    if word == "take" {
        return Some(Do::Take);
    }
    if word == "rebuilt" {
        return Some(Do::GoOn);
    }
    let (before, after) = word.split_once(':')?;
    match before {
        "cut" => Some(Do::Cut(unsigned(after)?)),
        "cross" => crossing_of(after),
        "with" => {
            let (place, other) = change_of(after)?;
            Some(Do::With(place, other))
        }
        _ => None,
    }
}

/// The crossing of an end, as `10` or as `10+2`.
fn crossing_of(text: &str) -> Option<Do> {
    let (end, full) = text.split_once('+').unwrap_or((text, "0"));
    Some(Do::Cross(unsigned(end)?, unsigned(full)?))
}

/// The key with one leaf.
pub fn key_of(alloc: Global, number: i32) -> Result<MetricKey, AllocError> {
    let mut dims = DimKey::new(alloc);
    dims.push(Leaf::One(Value::Int(number)))?;
    Ok(MetricKey {
        dims,
        slices: Seq::new(alloc),
    })
}

/// One call, through the bound that all kinds of metric meet; what a report shows is added. Full buckets have a size.
pub fn act<P: Producer<Value = i64> + Flat + Drop>(
    alloc: Global,
    shown: &mut String,
    producer: &mut P,
    size: u64,
    call: Do,
) -> Result<(), AllocError> {
    match call {
        Do::Cross(first_end, full_buckets) => producer.cross(Crossings {
            start: 0,
            first_end,
            full_buckets,
            size,
        }),
        Do::Cut(at) => producer.cut(at),
        Do::Take => push_closed(shown, &producer.take()),
        Do::GoOn => go_on(alloc, shown, producer),
        Do::With(place, other) => try_other(alloc, shown, &*producer, place, other),
    }
}
