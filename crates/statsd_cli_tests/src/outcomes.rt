//! Runs of the top call over memory, and what they left.
use super::ahead::outcome_ahead;
use super::streams::Streams;
use super::wanted::Wanted;
use atom_record::Bytes;
use sd_io::{MemSink, MemSource};
use statsd_cli::statsd_top;
use std::alloc::{AllocError, Global};
use test_tools::Tester;

/// What a run left.
#[derive(Drop)]
pub struct Outcome {
    pub status: u8,
    pub replies: Vec<u8>,
    pub note: Vec<u8>,
}

/// The words of a command line, which are `replay` where a row doesn't say so.
pub fn words_of(alloc: Global, text: &str) -> Result<Vec<Bytes>, AllocError> {
    let mut words = Vec::new(alloc);
    for word in text.split_whitespace() {
        words.push(Bytes::from_slice(alloc, word.as_bytes())?)?;
    }
    Ok(words)
}

/// What a run over memory leaves, or over a source that holds bytes, where the streams say so.
pub fn outcome_of(
    alloc: Global,
    words: &[Bytes],
    input: &[u8],
    streams: &Streams,
) -> Result<Outcome, AllocError> {
    if streams.ahead.is_some() {
        return outcome_ahead(alloc, words, input, streams);
    }
    let mut source = source_of(alloc, input, streams)?;
    let mut out = sink_of(alloc, streams.room, streams.failed_put)?;
    let mut notes = sink_of(alloc, streams.note_room, streams.failed_note)?;
    let status = statsd_top(alloc, words, &mut source, &mut out, &mut notes);
    left(alloc, status, out.bytes(), notes.bytes())
}

/// What was left in these.
pub fn left(alloc: Global, status: u8, replies: &[u8], note: &[u8]) -> Result<Outcome, AllocError> {
    Ok(Outcome {
        status,
        replies: replies.to_vec(alloc)?,
        note: note.to_vec(alloc)?,
    })
}

fn source_of(alloc: Global, input: &[u8], streams: &Streams) -> Result<MemSource, AllocError> {
    let bytes = front(input, streams.len).to_vec(alloc)?;
    let fails = listed(alloc, streams.failed_read)?;
    Ok(MemSource::new(bytes, streams.piece.max(1), fails))
}

/// A sink in memory with so much room, of which one put fails, or none.
pub fn sink_of(alloc: Global, room: usize, fails: Option<u64>) -> Result<MemSink, AllocError> {
    MemSink::new(alloc, room, listed(alloc, fails)?)
}

/// The calls that fail: one, or none.
fn listed(alloc: Global, call: Option<u64>) -> Result<Vec<u64>, AllocError> {
    let mut calls = Vec::new(alloc);
    if let Some(call) = call {
        calls.push(call)?;
    }
    Ok(calls)
}

/// The first bytes, as many as there is room for.
pub fn front(bytes: &[u8], room: usize) -> &[u8] {
    bytes.get(..room).unwrap_or(bytes)
}

/// Compares what a run left with what it should leave.
pub fn compare(
    tester: &mut Tester,
    wanted: &Wanted,
    room: usize,
    note_room: usize,
    outcome: &Outcome,
) -> Result<(), AllocError> {
    let due = Due {
        status: wanted.status,
        replies: front(wanted.replies.as_slice(), room),
        note: front(wanted.note.as_bytes(), note_room),
    };
    compare_due(tester, due, outcome)
}

/// What a run should leave, as it is written.
#[derive(Clone, Copy)]
pub struct Due<'a> {
    pub status: u64,
    pub replies: &'a [u8],
    pub note: &'a [u8],
}

/// Compares what a run left with just that.
pub fn compare_due(tester: &mut Tester, due: Due<'_>, outcome: &Outcome) -> Result<(), AllocError> {
    tester.case();
    tester.same_number("status", due.status, u64::from(outcome.status))?;
    tester.same_bytes("replies", due.replies, outcome.replies.as_slice())?;
    tester.same_bytes("note", due.note, outcome.note.as_slice())
}
