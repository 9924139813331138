//! The engine over readers and writers of std.
use super::outcomes::{Outcome, left, words_of};
use super::streams::AMPLE;
use sd_io::{MemSink, Sink, Source, StdSink, StdSource};
use statsd_cli::statsd_top;
use std::alloc::{AllocError, Global};
use std::io;
use std::io::{ErrorKind, Read, Write};
use test_tools::Row;

/// Gives its bytes one a call, and then fails.
#[derive(Drop)]
struct Failing<'a>(&'a [u8]);

impl Read for Failing<'_> {
    fn read(&mut self, buf: &mut [u8]) -> io::Result<usize> {
        let Some((first, others)) = self.0.split_first() else {
            return Err(io::Error::from(ErrorKind::BrokenPipe));
        };
        if buf.is_empty() {
            return Ok(0);
        }
        buf[0] = *first;
        self.0 = others;
        Ok(1)
    }
}

/// What a writer does with a piece.
#[derive(Clone, Copy)]
enum Takes {
    OneByte,
    Nothing,
    AnError,
}

/// Keeps what it takes.
#[derive(Drop)]
struct Taking {
    takes: Takes,
    bytes: Vec<u8>,
}

impl Write for Taking {
    fn write(&mut self, buf: &[u8]) -> io::Result<usize> {
        match (self.takes, buf.first()) {
            (Takes::OneByte, Some(first)) => {
                self.bytes.push(*first).map_err(AllocError::from)?;
                Ok(1)
            }
            (Takes::AnError, _) => Err(io::Error::from(ErrorKind::BrokenPipe)),
            _ => Ok(0),
        }
    }

    fn flush(&mut self) -> io::Result<()> {
        Ok(())
    }
}

/// What a run leaves over the reader or the writer that a row names, if there is one.
pub fn std_outcome_of(
    alloc: Global,
    row: &Row<'_>,
    input: &[u8],
) -> Result<Option<Outcome>, AllocError> {
    match (row.word("reader"), row.word("writer")) {
        ("fails", "") => Ok(Some(over_failing(alloc, input)?)),
        ("", "takes a byte") => Ok(Some(over_taking(alloc, input, Takes::OneByte)?)),
        ("", "takes nothing") => Ok(Some(over_taking(alloc, input, Takes::Nothing)?)),
        ("", "fails") => Ok(Some(over_taking(alloc, input, Takes::AnError)?)),
        _ => Ok(None),
    }
}

/// Runs `replay` over these, and gives its status and its notes.
fn replay<S: Source, K: Sink>(
    alloc: Global,
    input: &mut S,
    out: &mut K,
) -> Result<(u8, MemSink), AllocError> {
    let words = words_of(alloc, "replay")?;
    let mut notes = MemSink::new(alloc, AMPLE, Vec::new(alloc))?;
    let status = statsd_top(alloc, words.as_slice(), input, out, &mut notes);
    Ok((status, notes))
}

fn over_failing(alloc: Global, input: &[u8]) -> Result<Outcome, AllocError> {
    let mut source = StdSource::new(Failing(input));
    let mut out = MemSink::new(alloc, AMPLE, Vec::new(alloc))?;
    let (status, notes) = replay(alloc, &mut source, &mut out)?;
    left(alloc, status, out.bytes(), notes.bytes())
}

fn over_taking(alloc: Global, input: &[u8], takes: Takes) -> Result<Outcome, AllocError> {
    let mut taking = Taking {
        takes,
        bytes: Vec::new(alloc),
    };
    let mut source = StdSource::new(input);
    let (status, notes) = replay(alloc, &mut source, &mut StdSink::new(&mut taking))?;
    left(alloc, status, taking.bytes.as_slice(), notes.bytes())
}
