//! What stands many times: `for FIRST..LAST ( WORDS )`, where `@` in a word is the number of the round, and `@+1`,
//! `@+2`, `@-1` and `@-2` are those beside it.
use super::encoder::words_of;
use super::numbers::unsigned;
use std::alloc::{AllocError, Global};

/// More words than a text has once its loops are written out.
const MOST_WORDS: u64 = 100_000_000;

/// What may follow an `@`, and how far the number is moved.
const STEPS: &[(&str, i64)] = &[("+1", 1), ("-1", -1), ("+2", 2), ("-2", -2)];

/// A loop that is gone through.
#[derive(Clone, Copy)]
struct Loop {
    begin: usize,
    now: u64,
    last: u64,
}

/// A text with its loops written out, or nothing where a loop isn't well formed.
pub fn unrolled(alloc: Global, text: &str) -> Result<Option<String>, AllocError> {
    let words = words_of(alloc, text)?;
    let mut flat = String::new(alloc);
    let mut open: Vec<Loop> = Vec::new(alloc);
    let mut at = 0_usize;
    for _ in 0..MOST_WORDS {
        let Some(word) = words.get(at).copied() else {
            break;
        };
        let Some(next) = next_at(&mut open, words.as_slice(), word, at)? else {
            return Ok(None);
        };
        if word != "for" && word != ")" {
            push_word(&mut flat, word, open.last().copied())?;
        }
        at = next;
    }
    Ok(if open.is_empty() { Some(flat) } else { None })
}

/// The place of the word that comes next.
fn next_at(
    open: &mut Vec<Loop>,
    words: &[&str],
    word: &str,
    at: usize,
) -> Result<Option<usize>, AllocError> {
    match word {
        "for" => begin(open, words, at),
        ")" => end(open, at),
        _ => Ok(Some(at.saturating_add(1))),
    }
}

/// Begins a loop.
fn begin(open: &mut Vec<Loop>, words: &[&str], at: usize) -> Result<Option<usize>, AllocError> {
    let Some((now, last)) = range_of(words, at) else {
        return Ok(None);
    };
    let begin = at.saturating_add(3);
    open.push(Loop { begin, now, last })?;
    Ok(Some(begin))
}

/// The first and the last number of a loop.
fn range_of(words: &[&str], at: usize) -> Option<(u64, u64)> {
    if words.get(at.saturating_add(2)).copied() != Some("(") {
        return None;
    }
    let (first, last) = words.get(at.saturating_add(1))?.split_once("..")?;
    let (first, last) = (unsigned(first)?, unsigned(last)?);
    if first > last {
        None
    } else {
        Some((first, last))
    }
}

/// Ends a round of the inner loop.
fn end(open: &mut Vec<Loop>, at: usize) -> Result<Option<usize>, AllocError> {
    let Some(round) = open.pop() else {
        return Ok(None);
    };
    if round.now >= round.last {
        return Ok(Some(at.saturating_add(1)));
    }
    open.push(Loop {
        now: round.now.saturating_add(1),
        ..round
    })?;
    Ok(Some(round.begin))
}

/// Puts a word after others, with the number of its round.
fn push_word(flat: &mut String, word: &str, round: Option<Loop>) -> Result<(), AllocError> {
    match round {
        Some(round) => push_with(flat, word, round.now),
        None => push_plain(flat, word),
    }
}

/// Puts a word after others.
pub fn push_plain(flat: &mut String, word: &str) -> Result<(), AllocError> {
    flat.push_str(word)?;
    flat.push_str(" ")
}

/// Puts a word in which each `@`, `@+N` or `@-N` is a number.
pub fn push_with(flat: &mut String, word: &str, number: u64) -> Result<(), AllocError> {
    let mut parts = word.split('@');
    flat.push_str(parts.next().unwrap_or(""))?;
    for part in parts {
        push_part(flat, part, number)?;
    }
    flat.push_str(" ")
}

/// Puts a number and what stands after its `@`.
fn push_part(flat: &mut String, part: &str, number: u64) -> Result<(), AllocError> {
    for &(mark, steps) in STEPS {
        if let Some(rest) = part.strip_prefix(mark) {
            let moved = number.saturating_add_signed(steps);
            return write!(flat, "{moved}{rest}");
        }
    }
    write!(flat, "{number}{part}")
}
