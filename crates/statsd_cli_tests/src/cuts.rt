//! Sessions that are cut, short ones after each of their frames: what is before the cut is saved, and what is after
//! it is answered after the saved form, as it is answered in the uncut session.
use super::forms::{LONG, SHORT, form_of, joined, past, resumed};
use super::outcomes::{Due, Outcome, compare_due, front};
use super::streams::{AMPLE, Streams};
use super::wanted::Wanted;
use std::alloc::{AllocError, Global};
use test_tools::Tester;

/// The least number of the kind of a command.
const COMMANDS: u8 = 16;

/// What is left of a session and of its replies after a cut.
#[derive(Clone, Copy)]
struct Rest<'a> {
    frames: &'a [u8],
    replies: &'a [u8],
}

/// Cuts a session that is good to its end before its first frame, and after each one.
pub fn run_cuts(
    alloc: Global,
    tester: &mut Tester,
    input: &[u8],
    wanted: &Wanted,
) -> Result<(), AllocError> {
    let mut rest = Rest {
        frames: input,
        replies: wanted.replies.as_slice(),
    };
    for round in 0..=input.len() {
        run_cut(alloc, tester, input, rest, streams_of(round))?;
        match rest.next() {
            Some(next) => rest = next,
            None => return tester.holds("cut to its end", rest.frames.is_empty()),
        }
    }
    Ok(())
}

/// Cuts a session that is good to its end once, at the first frame after its middle.
pub fn run_middle_cut(
    alloc: Global,
    tester: &mut Tester,
    input: &[u8],
    wanted: &Wanted,
) -> Result<(), AllocError> {
    let mut rest = Rest {
        frames: input,
        replies: wanted.replies.as_slice(),
    };
    for _ in 0..input.len() {
        if rest.frames.len() <= input.len() / 2 {
            break;
        }
        if let Some(next) = rest.next() {
            rest = next;
        }
    }
    run_cut(alloc, tester, input, rest, Streams::AMPLE)
}

impl<'a> Rest<'a> {
    /// What is left one frame later. A command has a reply.
    fn next(self) -> Option<Rest<'a>> {
        let frames = past(self.frames, SHORT)?;
        let replies = match self.frames.get(SHORT) {
            Some(kind) if *kind >= COMMANDS => past(self.replies, LONG)?,
            _ => self.replies,
        };
        Some(Rest { frames, replies })
    }
}

/// How the streams of a round give: each round another way.
fn streams_of(round: usize) -> Streams {
    Streams {
        piece: piece_of(round),
        ahead: ahead_of(round),
        ..Streams::AMPLE
    }
}

/// How many bytes a read gives at most.
fn piece_of(round: usize) -> usize {
    match round % 4 {
        0 => AMPLE,
        1 => 1,
        2 => 3,
        _ => 4096,
    }
}

/// How many bytes a source holds at most.
fn ahead_of(round: usize) -> Option<usize> {
    match round % 3 {
        0 => None,
        1 => Some(5),
        _ => Some(4096),
    }
}

/// Saves what is before a cut, and answers what is after it.
fn run_cut(
    alloc: Global,
    tester: &mut Tester,
    input: &[u8],
    rest: Rest<'_>,
    streams: Streams,
) -> Result<(), AllocError> {
    let before = front(input, input.len().saturating_sub(rest.frames.len()));
    let form = form_twice(alloc, tester, before, &streams)?;
    let outcome = resumed_after(alloc, form.as_slice(), rest.frames, &streams)?;
    let due = Due {
        status: 0,
        replies: rest.replies,
        note: &[],
    };
    compare_due(tester, due, &outcome)
}

/// The saved form of a session, which is the same once more.
fn form_twice(
    alloc: Global,
    tester: &mut Tester,
    session: &[u8],
    streams: &Streams,
) -> Result<Vec<u8>, AllocError> {
    let form = form_of(alloc, tester, session, streams)?;
    same_again(alloc, tester, session, form.as_slice())?;
    Ok(form)
}

/// Compares the saved form of a session with one that was saved before.
fn same_again(
    alloc: Global,
    tester: &mut Tester,
    session: &[u8],
    form: &[u8],
) -> Result<(), AllocError> {
    let again = form_of(alloc, tester, session, &Streams::AMPLE)?;
    tester.same_bytes("saved again", form, again.as_slice())
}

/// What these frames leave after a form.
fn resumed_after(
    alloc: Global,
    form: &[u8],
    frames: &[u8],
    streams: &Streams,
) -> Result<Outcome, AllocError> {
    let bytes = joined(alloc, form, frames)?;
    resumed(alloc, bytes.as_slice(), streams)
}
