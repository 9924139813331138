//! Pushed values: `3:7=-5` is an integer of a key at a time, and `cond:3` a condition.
use super::calls::{act, call_of, key_of};
use std::alloc::{AllocError, Global};
use test_tools::{signed, unsigned};
use value_metric::{KeyedInt, Producer, PushedValue};

/// What is told at a time.
#[derive(Clone, Copy)]
enum Told {
    /// An integer of a key comes.
    Integer(u64, i32, i64),
    /// The condition is told.
    Condition(u64),
}

/// What a word tells, if it isn't a call that all producers have.
fn told_of(word: &str) -> Option<Told> {
    let (before, after) = word.split_once(':')?;
    match before {
        "cond" => Some(Told::Condition(unsigned(after)?)),
        _ => integer_of(unsigned(before)?, after),
    }
}

/// The integer of a key, as `7=-5`.
fn integer_of(at: u64, text: &str) -> Option<Told> {
    let (key, value) = text.split_once('=')?;
    Some(Told::Integer(at, key.parse::<i32>().ok()?, signed(value)?))
}

/// What the reports of these calls show, one after the other. Full buckets have a size.
pub fn played(
    alloc: Global,
    values: &mut PushedValue,
    size: u64,
    text: &str,
) -> Result<String, AllocError> {
    let mut shown = String::new(alloc);
    for word in text.split_whitespace() {
        match call_of(word) {
            Some(call) => act(alloc, &mut shown, values, size, call)?,
            None => tell(alloc, &mut shown, values, word)?,
        }
    }
    Ok(shown)
}

/// One call that tells something.
fn tell(
    alloc: Global,
    shown: &mut String,
    values: &mut PushedValue,
    word: &str,
) -> Result<(), AllocError> {
    match told_of(word) {
        Some(Told::Integer(at, number, value)) => {
            let key = key_of(alloc, number)?;
            values.event(at, KeyedInt { key, value })
        }
        Some(Told::Condition(at)) => values.condition(at, ()),
        None => write!(shown, "no call {word} "),
    }
}
