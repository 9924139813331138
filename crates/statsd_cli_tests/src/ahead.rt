//! Runs over readers and writers of std: over a reader that is read as it comes, and over one of which bytes are held.
use super::outcomes::{Outcome, front, left, sink_of};
use super::pieces::{Kept, Pieces};
use super::streams::Streams;
use atom_record::Bytes;
use sd_io::{BufferedSource, MemSink, Sink, StdSink, StdSource};
use statsd_cli::statsd_top;
use std::alloc::{AllocError, Global};
use std::io::BufReader;

/// What a run left over streams of which a call fails, and whether that call came.
#[derive(Drop)]
pub struct Faulty {
    pub outcome: Outcome,
    /// Whether the read came that was to fail.
    pub is_read: bool,
    /// Whether the write came that was to fail.
    pub is_written: bool,
    /// How many bytes were read.
    pub read: usize,
}

/// The engine's status on a reader, of which so many bytes are held at most as the streams say, and its notes.
fn status_over<K: Sink>(
    alloc: Global,
    words: &[Bytes],
    streams: &Streams,
    pieces: &mut Pieces<'_>,
    out: &mut K,
) -> Result<(u8, MemSink), AllocError> {
    let mut notes = sink_of(alloc, streams.note_room, streams.failed_note)?;
    let Some(ahead) = streams.ahead else {
        let mut source = StdSource::new(pieces);
        let status = statsd_top(alloc, words, &mut source, out, &mut notes);
        return Ok((status, notes));
    };
    let Ok(buffered) = BufReader::with_capacity(alloc, ahead, pieces) else {
        return Err(AllocError);
    };
    let mut source = BufferedSource::new(buffered);
    let status = statsd_top(alloc, words, &mut source, out, &mut notes);
    Ok((status, notes))
}

/// The reader of a run.
fn pieces_of<'a>(input: &'a [u8], streams: &Streams) -> Pieces<'a> {
    Pieces::new(
        front(input, streams.len),
        streams.piece.max(1),
        streams.failed_read,
    )
}

/// What a run leaves over a reader and a sink in memory.
pub fn outcome_ahead(
    alloc: Global,
    words: &[Bytes],
    input: &[u8],
    streams: &Streams,
) -> Result<Outcome, AllocError> {
    let mut pieces = pieces_of(input, streams);
    let mut out = sink_of(alloc, streams.room, streams.failed_put)?;
    let (status, notes) = status_over(alloc, words, streams, &mut pieces, &mut out)?;
    left(alloc, status, out.bytes(), notes.bytes())
}

/// What a run leaves over a reader and a writer.
pub fn faulty_of(
    alloc: Global,
    words: &[Bytes],
    input: &[u8],
    streams: &Streams,
) -> Result<Faulty, AllocError> {
    let mut pieces = pieces_of(input, streams);
    let mut kept = Kept::new(alloc, streams.failed_put);
    let mut out = StdSink::new(&mut kept);
    let (status, notes) = status_over(alloc, words, streams, &mut pieces, &mut out)?;
    Ok(Faulty {
        outcome: left(alloc, status, kept.bytes(), notes.bytes())?,
        is_read: pieces.has_failed(),
        is_written: kept.has_failed(),
        read: input.len().saturating_sub(pieces.left()),
    })
}
