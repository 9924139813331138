//! What all tests of sessions share: a session of four frames, and what a source is read as.
use sd_io::{MemSource, Source};
use session_frames::{Frame, FrameError, FrameReader};
use std::alloc::{AllocError, Global};

/// An install, two atoms and a report.
pub const LEAST: [u8; 83] =
    *b"\x1b\0\0\0\x10\x0a\0\0\0\x07\0\0\0\0\0\0\0\x3a\x06\x08\x01\x12\x02\x08\x05\x1a\x04\x08\x64\x10\x01\
    \x0d\0\0\0\x02\x02\0\0\0\0\0\0\0\x05\0\0\0\
    \x0d\0\0\0\x02\x03\0\0\0\0\0\0\0\x05\0\0\0\
    \x0e\0\0\0\x12\x0a\0\0\0\x07\0\0\0\0\0\0\0\x01";

/// What a source is read as: its frames, and how it ended.
#[derive(Drop)]
pub struct Session {
    pub frames: Vec<Frame>,
    pub end: String,
}

fn push_frame(frames: &mut Vec<Frame>, frame: Frame) -> Result<(), AllocError> {
    frames.push(frame)?;
    Ok(())
}

/// Takes the next frame of a source, and gives the reader that goes on from there, or none where this is the end.
fn take_next<S: Source>(
    reader: FrameReader,
    source: &mut S,
    frames: &mut Vec<Frame>,
) -> Result<Option<FrameReader>, FrameError> {
    let (next, frame) = reader.next(source)?;
    let Some(frame) = frame else {
        return Ok(None);
    };
    push_frame(frames, frame)?;
    Ok(Some(next))
}

/// Takes the frames of a source up to its end or to its error, a hundred at most, after a session whose last time was
/// this.
fn take_all<S: Source>(
    alloc: Global,
    clock: u64,
    source: &mut S,
    frames: &mut Vec<Frame>,
) -> Result<(), FrameError> {
    let mut reader = FrameReader::resumed(alloc, clock);
    for _ in 0..100 {
        reader = match take_next(reader, source, frames)? {
            Some(next) => next,
            None => return Ok(()),
        };
    }
    Ok(())
}

/// How a source ended, as a text.
fn end_of(alloc: Global, taken: &Result<(), FrameError>) -> Result<String, AllocError> {
    match taken {
        Ok(()) => format!(in alloc; "end"),
        Err(e) => format!(in alloc; "{e}"),
    }
}

/// Reads a source to its end or to its error, a hundred frames at most.
pub fn read<S: Source>(alloc: Global, source: &mut S) -> Result<Session, AllocError> {
    read_after(alloc, 0, source)
}

/// The same, after a session whose last time was this.
pub fn read_after<S: Source>(
    alloc: Global,
    clock: u64,
    source: &mut S,
) -> Result<Session, AllocError> {
    let mut frames = Vec::new(alloc);
    let taken = take_all(alloc, clock, source, &mut frames);
    let end = end_of(alloc, &taken)?;
    Ok(Session { frames, end })
}

/// A source of these bytes, in pieces of this size.
fn source_of(alloc: Global, bytes: &[u8], piece: usize) -> Result<MemSource, AllocError> {
    let bytes = bytes.to_vec(alloc)?;
    Ok(MemSource::new(bytes, piece.max(1), Vec::new(alloc)))
}

/// Whether these bytes, after a session whose last time was this, are read as these frames, by their `Debug`, and then
/// this end.
pub fn resumes_as(
    alloc: Global,
    clock: u64,
    bytes: &[u8],
    text: &str,
    end: &str,
) -> Result<bool, AllocError> {
    let mut source = source_of(alloc, bytes, 7)?;
    let session = read_after(alloc, clock, &mut source)?;
    Ok(is_so(alloc, &session, text, end))
}

/// What these bytes, in pieces of this size, are read as.
pub fn read_bytes(alloc: Global, bytes: &[u8], piece: usize) -> Result<Session, AllocError> {
    let mut source = source_of(alloc, bytes, piece)?;
    read(alloc, &mut source)
}

/// Whether these frames are printed so.
fn are_printed(alloc: Global, frames: &Vec<Frame>, text: &str) -> Result<bool, AllocError> {
    let printed = format!(in alloc; "{frames:?}")?;
    Ok(printed.as_str() == text)
}

/// Whether a session has these frames, by their `Debug`, and then this end.
pub fn is_so(alloc: Global, session: &Session, text: &str, end: &str) -> bool {
    session.end.as_str() == end && are_printed(alloc, &session.frames, text) == Ok(true)
}

/// Whether these bytes, in pieces of this size, are read as these frames, by their `Debug`, and then this end.
pub fn reads_as(
    alloc: Global,
    bytes: &[u8],
    piece: usize,
    text: &str,
    end: &str,
) -> Result<bool, AllocError> {
    let session = read_bytes(alloc, bytes, piece)?;
    Ok(is_so(alloc, &session, text, end))
}
