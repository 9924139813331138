//! Calls of a producer by their words.
use bucket_clock::Crossings;
use gauge_metric::Producer;
use std::alloc::AllocError;
use test_tools::unsigned;

/// One call.
#[derive(Clone, Copy)]
pub enum Call {
    /// An atom with a number comes at a time, with a key.
    Atom(u64, i32, i32),
    /// The condition changes, which these producers don't look at.
    Condition(u64),
    /// A frame crosses a full end, and so many full buckets of a size after it.
    Cross(u64, u64, u64),
    /// A report cuts the open part.
    Cut(u64),
}

/// The call of some words, as `gets 1 7 3`, `condition 2`, `cross 10 0 10` or `cuts 5`.
pub fn call_of(text: &str) -> Option<Call> {
    let (name, rest) = text.split_once(' ')?;
    match name {
        "gets" => atom_call(rest),
        "condition" => Some(Call::Condition(unsigned(rest)?)),
        "cross" => cross_call(rest),
        "cuts" => Some(Call::Cut(unsigned(rest)?)),
        _ => None,
    }
}

fn atom_call(text: &str) -> Option<Call> {
    let (time, rest) = text.split_once(' ')?;
    let (key, number) = rest.split_once(' ')?;
    let key = key.parse::<i32>().ok()?;
    Some(Call::Atom(unsigned(time)?, key, number.parse::<i32>().ok()?))
}

fn cross_call(text: &str) -> Option<Call> {
    let (end, rest) = text.split_once(' ')?;
    let (full, size) = rest.split_once(' ')?;
    Some(Call::Cross(unsigned(end)?, unsigned(full)?, unsigned(size)?))
}

/// Makes a call, through the bound that all kinds of metric meet.
pub fn act<P: Producer<After = ()>>(
    producer: &mut P,
    call: Call,
    event: P::Event,
) -> Result<(), AllocError> {
    match call {
        Call::Atom(at, _, _) => producer.event(at, event),
        Call::Condition(at) => producer.condition(at, ()),
        Call::Cross(first_end, full_buckets, size) => producer.cross(Crossings {
            start: 0,
            first_end,
            full_buckets,
            size,
        }),
        Call::Cut(at) => producer.cut(at),
    }
}
