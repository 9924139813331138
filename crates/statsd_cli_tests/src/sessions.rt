//! The rows: sessions and configurations, and what they leave.
use super::bent::run_bent;
use super::cuts::{run_cuts, run_middle_cut};
use super::faults::run_faults;
use super::notes::run_note;
use super::outcomes::{compare, outcome_of, words_of};
use super::std_streams::std_outcome_of;
use super::streams::{
    AMPLE, HELD, MOST_IN_PIECES, Streams, has_streams, held_rounds, misspelled, rounds, streams_at,
};
use super::wanted::{Wanted, input_of, wanted_of, words_in};
use std::alloc::{AllocError, Global};
use test_tools::{Row, Table, Tester};

/// The table of whole sessions.
pub struct Sessions;

impl Table for Sessions {
    fn marks(&self) -> &'static str {
        "> < words config report json line status note len piece failed_read room failed_put \
         note_room failed_note ahead each_fault saved form bent reader writer write"
    }

    fn run(&self, alloc: Global, tester: &mut Tester, row: &Row<'_>) -> Result<(), AllocError> {
        if row.has("write") {
            return run_note(alloc, tester, row);
        }
        if let Some(mark) = misspelled(row) {
            return tester.differs("no number", mark);
        }
        run_session(alloc, tester, row)
    }
}

fn run_session(alloc: Global, tester: &mut Tester, row: &Row<'_>) -> Result<(), AllocError> {
    let Some(input) = input_of(alloc, tester, row)? else {
        return Ok(());
    };
    let Some(wanted) = wanted_of(alloc, tester, row, input.as_slice())? else {
        return Ok(());
    };
    if row.has("reader") || row.has("writer") {
        return run_std(alloc, tester, row, input.as_slice(), &wanted);
    }
    run_faults(alloc, tester, row, input.as_slice(), &wanted)?;
    for round in 0..rounds(row, input.len()) {
        let streams = streams_at(row, round);
        run_round(alloc, tester, row, input.as_slice(), &wanted, &streams)?;
    }
    for held in HELD {
        run_held(alloc, tester, row, input.as_slice(), &wanted, *held)?;
    }
    run_saved(alloc, tester, row, input.as_slice(), &wanted)
}

/// Runs a session cut, after each of its frames where it is short, and over changed saved forms, where its row says so.
fn run_saved(
    alloc: Global,
    tester: &mut Tester,
    row: &Row<'_>,
    input: &[u8],
    wanted: &Wanted,
) -> Result<(), AllocError> {
    if row.has("bent") {
        run_bent(alloc, tester, input)?;
    }
    if words_in(row) != "replay" || !may_be_cut(row, wanted) {
        return Ok(());
    }
    if input.len() > MOST_IN_PIECES {
        return run_middle_cut(alloc, tester, input, wanted);
    }
    run_cuts(alloc, tester, input, wanted)
}

/// Whether a session is cut: it is good to its end, and its row speaks of no stream.
fn may_be_cut(row: &Row<'_>, wanted: &Wanted) -> bool {
    wanted.status == 0 && !has_streams(row)
}

/// Runs a row over a source that holds so many bytes at most.
fn run_held(
    alloc: Global,
    tester: &mut Tester,
    row: &Row<'_>,
    input: &[u8],
    wanted: &Wanted,
    held: usize,
) -> Result<(), AllocError> {
    for round in 0..held_rounds(row, input.len(), held) {
        let streams = Streams {
            ahead: Some(held),
            ..streams_at(row, round)
        };
        run_round(alloc, tester, row, input, wanted, &streams)?;
    }
    Ok(())
}

/// Runs a row with these streams.
fn run_round(
    alloc: Global,
    tester: &mut Tester,
    row: &Row<'_>,
    input: &[u8],
    wanted: &Wanted,
    streams: &Streams,
) -> Result<(), AllocError> {
    let words = words_of(alloc, words_in(row))?;
    let outcome = outcome_of(alloc, words.as_slice(), input, streams)?;
    compare(tester, wanted, streams.room, streams.note_room, &outcome)
}

/// Runs a row over a reader or a writer of std.
fn run_std(
    alloc: Global,
    tester: &mut Tester,
    row: &Row<'_>,
    input: &[u8],
    wanted: &Wanted,
) -> Result<(), AllocError> {
    match std_outcome_of(alloc, row, input)? {
        Some(outcome) => compare(tester, wanted, AMPLE, AMPLE, &outcome),
        None => tester.differs("a reader or a writer that isn't known", row.word("writer")),
    }
}
