//! Saved forms of sessions, which are written and taken by the engine.
use super::outcomes::{Outcome, outcome_of, words_of};
use super::streams::Streams;
use std::alloc::{AllocError, Global};
use test_tools::Tester;

/// How many bytes the length of a saved form has, and that of a reply.
pub const LONG: usize = 8;

/// How many bytes the length of a frame has.
pub const SHORT: usize = 4;

/// What the engine writes where it saves a session.
pub fn saved(alloc: Global, session: &[u8], streams: &Streams) -> Result<Outcome, AllocError> {
    let words = words_of(alloc, "save")?;
    outcome_of(alloc, words.as_slice(), session, streams)
}

/// What it leaves where it goes on from these bytes.
pub fn resumed(alloc: Global, bytes: &[u8], streams: &Streams) -> Result<Outcome, AllocError> {
    let words = words_of(alloc, "resume")?;
    outcome_of(alloc, words.as_slice(), bytes, streams)
}

/// The saved form of a session, which is good to its end.
pub fn form_of(
    alloc: Global,
    tester: &mut Tester,
    session: &[u8],
    streams: &Streams,
) -> Result<Vec<u8>, AllocError> {
    let outcome = saved(alloc, session, streams)?;
    tester.holds("a saved form", is_form(&outcome))?;
    Ok(outcome.replies)
}

/// Whether a session was saved: a length was written, and so many bytes.
fn is_form(outcome: &Outcome) -> bool {
    match past(outcome.replies.as_slice(), LONG) {
        Some(rest) => outcome.status == 0 && outcome.note.is_empty() && rest.is_empty(),
        None => false,
    }
}

/// Two pieces of bytes as one.
pub fn joined(alloc: Global, front: &[u8], back: &[u8]) -> Result<Vec<u8>, AllocError> {
    let mut all = front.to_vec(alloc)?;
    all.extend_from_slice(back)?;
    Ok(all)
}

/// What is after a length of so many bytes and the bytes that it counts.
pub fn past(bytes: &[u8], width: usize) -> Option<&[u8]> {
    let size = low_first(bytes.get(..width)?);
    bytes.get(width..)?.get(size as usize..)
}

/// The number of these bytes, the lowest first.
fn low_first(bytes: &[u8]) -> u64 {
    let mut number = 0;
    for byte in bytes.iter().rev() {
        number = (number << 8) | u64::from(*byte);
    }
    number
}
