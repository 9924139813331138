//! Pulled values: `pull:3=7:5,8:-6` is a snapshot at a time, of integers with their keys; `pull:3=` has none of them,
//! and `pull:3=none` is no snapshot. `true:3`, `false:3` and `unknown:3` tell a condition at a time.
use super::calls::{act, call_of, key_of};
use predicate_state::Truth;
use sd_base::Seq;
use std::alloc::{AllocError, Global};
use test_tools::{signed, unsigned};
use value_metric::{KeyedInt, Producer, PulledValue, SnapInts};

/// What the reports of these calls show, one after the other. Full buckets have a size.
pub fn played(
    alloc: Global,
    values: &mut PulledValue,
    size: u64,
    text: &str,
) -> Result<String, AllocError> {
    let mut shown = String::new(alloc);
    for word in text.split_whitespace() {
        match call_of(word) {
            Some(call) => act(alloc, &mut shown, values, size, call)?,
            None => tell(alloc, &mut shown, values, word)?,
        }
    }
    Ok(shown)
}

/// One call that tells something.
fn tell(
    alloc: Global,
    shown: &mut String,
    values: &mut PulledValue,
    word: &str,
) -> Result<(), AllocError> {
    let Some((name, rest)) = word.split_once(':') else {
        return write!(shown, "no call {word} ");
    };
    if name == "pull" {
        return pull(alloc, shown, values, rest);
    }
    match (truth_of(name), unsigned(rest)) {
        (Some(now), Some(at)) => values.condition(at, now),
        _ => write!(shown, "no call {word} "),
    }
}

fn truth_of(word: &str) -> Option<Truth> {
    match word {
        "true" => Some(Truth::True),
        "false" => Some(Truth::False),
        "unknown" => Some(Truth::Unknown),
        _ => None,
    }
}

/// A pull, as `3=7:5,8:-6`.
fn pull(
    alloc: Global,
    shown: &mut String,
    values: &mut PulledValue,
    text: &str,
) -> Result<(), AllocError> {
    let Some((at, rest)) = text.split_once('=') else {
        return write!(shown, "no pull {text} ");
    };
    let Some(at) = unsigned(at) else {
        return write!(shown, "no pull {text} ");
    };
    let found = found_in(alloc, rest)?;
    values.event(at, SnapInts { found })
}

/// What a pull found: integers with their keys, or no snapshot.
fn found_in(alloc: Global, text: &str) -> Result<Option<Seq<KeyedInt>>, AllocError> {
    if text == "none" {
        return Ok(None);
    }
    let mut integers = Seq::new(alloc);
    for part in text.split(',') {
        if let Some((first, last, value)) = keyed_of(part) {
            push_keyed(alloc, &mut integers, first, last, value)?;
        }
    }
    Ok(Some(integers))
}

/// Keys with an integer, as `7:5` or `1..4000:5`.
fn keyed_of(text: &str) -> Option<(i32, i32, i64)> {
    let (keys, value) = text.split_once(':')?;
    let (first, last) = keys.split_once("..").unwrap_or((keys, keys));
    Some((
        first.parse::<i32>().ok()?,
        last.parse::<i32>().ok()?,
        signed(value)?,
    ))
}

/// Adds the integer for each of these keys.
fn push_keyed(
    alloc: Global,
    integers: &mut Seq<KeyedInt>,
    first: i32,
    last: i32,
    value: i64,
) -> Result<(), AllocError> {
    for key in first..=last {
        let key = key_of(alloc, key)?;
        integers.push(KeyedInt { key, value })?;
    }
    Ok(())
}
