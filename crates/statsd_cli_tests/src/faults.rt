//! Runs of which each read and each write fails in turn.
use super::ahead::{Faulty, faulty_of};
use super::outcomes::{Outcome, compare, outcome_of, words_of};
use super::streams::{AMPLE, Streams, faults_of};
use super::wanted::{Wanted, words_in};
use atom_record::Bytes;
use std::alloc::{AllocError, Global};
use test_tools::{Row, Tester};

const READ_FAULT: u64 = 4;

const WRITE_FAULT: u64 = 5;

/// How many bytes the sources hold at most over which calls fail: none, a few, all of a short session.
const HELD: &[Option<usize>] = &[None, Some(5), Some(4096)];

/// A session, and what its row says of it.
#[derive(Clone, Copy)]
struct Session<'a> {
    words: &'a [Bytes],
    input: &'a [u8],
    wanted: &'a Wanted,
    /// Whether all is written at the end: the saved form.
    is_saved: bool,
}

/// Runs a session once with each read that fails, and once with each write that does, as many as the row says, over
/// each kind of source.
pub fn run_faults(
    alloc: Global,
    tester: &mut Tester,
    row: &Row<'_>,
    input: &[u8],
    wanted: &Wanted,
) -> Result<(), AllocError> {
    let words = words_of(alloc, words_in(row))?;
    let session = Session {
        words: words.as_slice(),
        input,
        wanted,
        is_saved: row.has("form"),
    };
    for call in 0..faults_of(row) {
        for ahead in HELD {
            run_fault(alloc, tester, session, *ahead, call)?;
        }
    }
    Ok(())
}

/// Runs a session with a read that fails, and with a write that does.
fn run_fault(
    alloc: Global,
    tester: &mut Tester,
    session: Session<'_>,
    ahead: Option<usize>,
    call: u64,
) -> Result<(), AllocError> {
    let reading = Streams {
        ahead,
        failed_read: Some(call),
        ..Streams::AMPLE
    };
    let run = faulty_of(alloc, session.words, session.input, &reading)?;
    compare_read(alloc, tester, session, &run)?;
    let writing = Streams {
        ahead,
        failed_put: Some(call),
        ..Streams::AMPLE
    };
    let run = faulty_of(alloc, session.words, session.input, &writing)?;
    compare_write(tester, session, &run)
}

/// A run whose read failed ends with the status of that, and has answered what a session is answered that ends there,
/// or saved nothing. One that had no such read ends as the row says.
fn compare_read(
    alloc: Global,
    tester: &mut Tester,
    session: Session<'_>,
    run: &Faulty,
) -> Result<(), AllocError> {
    if !run.is_read {
        return compare(tester, session.wanted, AMPLE, AMPLE, &run.outcome);
    }
    compare_fault(
        tester,
        session,
        &run.outcome,
        READ_FAULT,
        "statsd: read fault\n",
    )?;
    if session.is_saved {
        return tester.holds("nothing is written", run.outcome.replies.is_empty());
    }
    let cut = Streams {
        len: run.read,
        ..Streams::AMPLE
    };
    let ended = outcome_of(alloc, session.words, session.input, &cut)?;
    let replies = run.outcome.replies.as_slice();
    tester.same_bytes("replies before the read", ended.replies.as_slice(), replies)
}

/// A run whose write failed ends with the status of that, and not all is written. One that had no such write ends as
/// the row says.
fn compare_write(
    tester: &mut Tester,
    session: Session<'_>,
    run: &Faulty,
) -> Result<(), AllocError> {
    if !run.is_written {
        return compare(tester, session.wanted, AMPLE, AMPLE, &run.outcome);
    }
    compare_fault(
        tester,
        session,
        &run.outcome,
        WRITE_FAULT,
        "statsd: write fault\n",
    )?;
    let written = run.outcome.replies.len();
    tester.holds("less is written", written < session.wanted.replies.len())
}

/// Compares the status and the note of a run that failed. Its replies are the first ones of the row.
fn compare_fault(
    tester: &mut Tester,
    session: Session<'_>,
    outcome: &Outcome,
    fault: u64,
    note: &str,
) -> Result<(), AllocError> {
    tester.case();
    tester.same_number("status", fault, u64::from(outcome.status))?;
    tester.same_bytes("note", note.as_bytes(), outcome.note.as_slice())?;
    let replies = outcome.replies.as_slice();
    tester.holds(
        "a front of the replies",
        session.wanted.replies.starts_with(replies),
    )
}
