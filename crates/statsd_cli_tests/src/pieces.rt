//! A reader and a writer of std that fail at a call by its number, and count their calls.
use std::alloc::{AllocError, Global};
use std::io;
use std::io::{ErrorKind, Read, Write};

/// Gives bytes in pieces.
#[derive(Drop)]
pub struct Pieces<'a> {
    left: &'a [u8],
    piece: usize,
    fails: Option<u64>,
    calls: u64,
}

impl<'a> Pieces<'a> {
    /// A call gives at most `piece` of these bytes. The call of a number, from 0, fails; the next ones don't.
    pub fn new(bytes: &'a [u8], piece: usize, fails: Option<u64>) -> Pieces<'a> {
        Pieces {
            left: bytes,
            piece,
            fails,
            calls: 0,
        }
    }

    /// Whether the call came that was to fail.
    pub fn has_failed(&self) -> bool {
        is_past(self.fails, self.calls)
    }

    /// How many bytes it hasn't given.
    pub fn left(&self) -> usize {
        self.left.len()
    }
}

impl Read for Pieces<'_> {
    fn read(&mut self, buf: &mut [u8]) -> io::Result<usize> {
        let call = self.calls;
        self.calls = call.saturating_add(1);
        if self.fails == Some(call) {
            return Err(io::Error::from(ErrorKind::BrokenPipe));
        }
        let count = self.piece.min(buf.len().min(self.left.len()));
        buf[..count].copy_from_slice(&self.left[..count]);
        self.left = &self.left[count..];
        Ok(count)
    }
}

/// Keeps what is written.
#[derive(Drop)]
pub struct Kept {
    bytes: Vec<u8>,
    fails: Option<u64>,
    calls: u64,
}

impl Kept {
    /// Nothing is written yet. The call of a number, from 0, writes nothing and fails; the next ones don't.
    pub fn new(alloc: Global, fails: Option<u64>) -> Kept {
        Kept {
            bytes: Vec::new(alloc),
            fails,
            calls: 0,
        }
    }

    /// What was written.
    pub fn bytes(&self) -> &[u8] {
        self.bytes.as_slice()
    }

    /// Whether the call came that was to fail.
    pub fn has_failed(&self) -> bool {
        is_past(self.fails, self.calls)
    }
}

impl Write for Kept {
    fn write(&mut self, buf: &[u8]) -> io::Result<usize> {
        let call = self.calls;
        self.calls = call.saturating_add(1);
        if self.fails == Some(call) {
            return Err(io::Error::from(ErrorKind::BrokenPipe));
        }
        self.bytes.extend_from_slice(buf).map_err(AllocError::from)?;
        Ok(buf.len())
    }

    fn flush(&mut self) -> io::Result<()> {
        Ok(())
    }
}

/// Whether there were so many calls that the one of this number was among them.
fn is_past(call: Option<u64>, calls: u64) -> bool {
    match call {
        Some(call) => call < calls,
        None => false,
    }
}
