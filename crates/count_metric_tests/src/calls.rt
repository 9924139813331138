//! Calls of a producer by their words.
use super::shown::{key_of, no_key};
use atom_record::MetricKey;
use bucket_clock::Crossings;
use count_metric::Producer;
use std::alloc::{AllocError, Global};
use test_tools::unsigned;

/// One call.
#[derive(Clone, Copy)]
pub enum Call {
    /// An event with a key comes at a time.
    Key(u64, i32),
    /// An event with the empty key comes.
    NoKey(u64),
    /// Its condition changes, which it doesn't look at.
    Condition(u64),
    /// A frame crosses a full end, and so many full buckets of a size after it.
    Cross(u64, u64, u64),
    /// A report cuts the open part.
    Cut(u64),
}

/// The call of some words, as `key 1 7`, `no_key 1`, `condition 2`, `cross 10 0 10` or `cuts 5`.
pub fn call_of(text: &str) -> Option<Call> {
    let (name, rest) = text.split_once(' ')?;
    match name {
        "key" => key_call(rest),
        "no_key" => Some(Call::NoKey(unsigned(rest)?)),
        "condition" => Some(Call::Condition(unsigned(rest)?)),
        "cross" => cross_call(rest),
        "cuts" => Some(Call::Cut(unsigned(rest)?)),
        _ => None,
    }
}

fn key_call(text: &str) -> Option<Call> {
    let (time, number) = text.split_once(' ')?;
    Some(Call::Key(unsigned(time)?, number.parse::<i32>().ok()?))
}

fn cross_call(text: &str) -> Option<Call> {
    let (end, rest) = text.split_once(' ')?;
    let (full, size) = rest.split_once(' ')?;
    Some(Call::Cross(unsigned(end)?, unsigned(full)?, unsigned(size)?))
}

/// Makes a call, through the bound that all kinds of metric meet.
pub fn act<P: Producer<Event = MetricKey, After = ()>>(
    alloc: Global,
    producer: &mut P,
    call: Call,
) -> Result<(), AllocError> {
    match call {
        Call::Key(at, number) => {
            let key = key_of(alloc, number)?;
            producer.event(at, key)
        }
        Call::NoKey(at) => producer.event(at, no_key(alloc)),
        Call::Condition(at) => producer.condition(at, ()),
        Call::Cross(first_end, full_buckets, size) => producer.cross(Crossings {
            start: 0,
            first_end,
            full_buckets,
            size,
        }),
        Call::Cut(at) => producer.cut(at),
    }
}
