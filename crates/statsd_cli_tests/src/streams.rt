//! How the streams of a run give, take and fail.
use test_tools::{Row, unsigned};

/// More bytes than any row reads or writes.
pub const AMPLE: usize = 1 << 22;

/// A session with at most so many bytes is read in pieces, too, where its row speaks of no stream.
pub const MOST_IN_PIECES: usize = 4096;

/// How the streams of a run give, take and fail.
#[derive(Clone, Copy)]
pub struct Streams {
    /// The most bytes that the input has.
    pub len: usize,
    /// The most bytes that a read gives.
    pub piece: usize,
    /// The number of the read that fails, from 0.
    pub failed_read: Option<u64>,
    /// The bytes that the output takes.
    pub room: usize,
    /// The number of the put that fails, from 0.
    pub failed_put: Option<u64>,
    /// The bytes that the notes take.
    pub note_room: usize,
    /// The number of the put of notes that fails, from 0.
    pub failed_note: Option<u64>,
    /// The most bytes that the source holds, if it holds any.
    pub ahead: Option<usize>,
}

impl Streams {
    /// Those of a run in which nothing fails and nothing ends.
    pub const AMPLE: Streams = Streams {
        len: AMPLE,
        piece: AMPLE,
        failed_read: None,
        room: AMPLE,
        failed_put: None,
        note_room: AMPLE,
        failed_note: None,
        ahead: None,
    };
}

/// The marks of streams. Each has a number, or the first and the last of some, of which each round of runs takes one.
const MARKS: &[&str] = &[
    "len",
    "piece",
    "failed_read",
    "room",
    "failed_put",
    "note_room",
    "failed_note",
    AHEAD,
];

/// The mark of a source that holds bytes, with how many it holds at most.
const AHEAD: &str = "ahead";

/// How many bytes are held at most in the runs that a row has beside its own, over sources that hold bytes.
pub const HELD: &[usize] = &[1, 5, HELD_OF_LONG, 65_536];

/// How many are held at most in the one such run of a long session.
const HELD_OF_LONG: usize = 4096;

/// The mark of a row of which each call of a stream fails in turn, with how many are tried.
const EACH_FAULT: &str = "each_fault";

/// The first number of a mark and the last one.
fn range_of(row: &Row<'_>, mark: &str) -> Option<(u64, u64)> {
    let word = row.line(mark)?;
    let (first, last) = word.split_once("..").unwrap_or((word, word));
    Some((unsigned(first)?, unsigned(last)?))
}

/// How many calls of a stream fail in turn.
pub fn faults_of(row: &Row<'_>) -> u64 {
    match range_of(row, EACH_FAULT) {
        Some((_first, last)) => last,
        None => 0,
    }
}

/// The first mark of a stream whose numbers can't be read.
pub fn misspelled(row: &Row<'_>) -> Option<&'static str> {
    for &mark in MARKS {
        if row.has(mark) && range_of(row, mark).is_none() {
            return Some(mark);
        }
    }
    if row.has(EACH_FAULT) && faults_of(row) == 0 {
        return Some(EACH_FAULT);
    }
    None
}

/// How often a row is run.
pub fn rounds(row: &Row<'_>, len: usize) -> u64 {
    let mut most = 0;
    for mark in MARKS {
        if let Some((first, last)) = range_of(row, mark) {
            most = most.max(last.saturating_sub(first).saturating_add(1));
        }
    }
    match most {
        0 if len <= MOST_IN_PIECES => 3,
        0 => 1,
        _ => most,
    }
}

/// The number of a mark in a round.
fn number_at(row: &Row<'_>, mark: &str, round: u64) -> Option<u64> {
    let (first, last) = range_of(row, mark)?;
    Some(first.saturating_add(round).min(last))
}

/// The same as a count of bytes. There are enough of them where a row doesn't say so.
fn bytes_at(row: &Row<'_>, mark: &str, round: u64) -> usize {
    match number_at(row, mark, round) {
        Some(number) => number as usize,
        None => AMPLE,
    }
}

/// The streams of a round.
pub fn streams_at(row: &Row<'_>, round: u64) -> Streams {
    Streams {
        len: bytes_at(row, "len", round),
        piece: piece_at(row, round),
        failed_read: number_at(row, "failed_read", round),
        room: bytes_at(row, "room", round),
        failed_put: number_at(row, "failed_put", round),
        note_room: bytes_at(row, "note_room", round),
        failed_note: number_at(row, "failed_note", round),
        ahead: ahead_at(row, round),
    }
}

/// The most bytes that the source holds, where a row says so.
fn ahead_at(row: &Row<'_>, round: u64) -> Option<usize> {
    number_at(row, AHEAD, round).map(|number| number as usize)
}

/// How often a row is run with so many bytes held: once, or as often as its marks say. One that says of itself what is
/// held, or which read fails, has no such run, and a long one has one.
pub fn held_rounds(row: &Row<'_>, len: usize, held: usize) -> u64 {
    if row.has(AHEAD) || row.has("failed_read") {
        return 0;
    }
    if len > MOST_IN_PIECES && held != HELD_OF_LONG {
        return 0;
    }
    if has_streams(row) {
        rounds(row, len)
    } else {
        1
    }
}

/// The most bytes that a read gives: where a row speaks of no stream, enough in the first round, then 1, then 3.
fn piece_at(row: &Row<'_>, round: u64) -> usize {
    if row.has("piece") {
        return bytes_at(row, "piece", round).max(1);
    }
    if has_streams(row) {
        return AMPLE;
    }
    match round {
        0 => AMPLE,
        1 => 1,
        _ => 3,
    }
}

/// Whether a row speaks of a stream.
pub fn has_streams(row: &Row<'_>) -> bool {
    for mark in MARKS {
        if row.has(mark) {
            return true;
        }
    }
    false
}
