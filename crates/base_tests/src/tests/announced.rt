//! A length of the most that a frame may have, whose body comes in small pieces or never: no room is asked for it at
//! once.
use super::asserts::assert_found;
use sd_io::{MemSource, ReadFailed, Source};
use session_frames::FrameReader;
use std::alloc::{AllocError, Global};

/// A source over memory that notes the most bytes it was asked for at once.
#[derive(Drop)]
struct Watched {
    inner: MemSource,
    most: usize,
}

impl Source for Watched {
    ghost use Rattle.sd_io.specs.MemSource.{input_of};

    ghost state = { λ s. input_of s.inner };

    fn read(&mut self, buf: &mut [u8]) -> Result<usize, ReadFailed> {
        self.most = self.most.max(buf.len());
        self.inner.read(buf)
    }
}

/// A length of 1,048,576 and what comes after it, in pieces of this size; the reads of these numbers fail.
fn announced(
    alloc: Global,
    body: &[u8],
    piece: usize,
    fails: &[u64],
) -> Result<Watched, AllocError> {
    let mut bytes = b"\0\0\x10\0".to_vec(alloc)?;
    bytes.extend_from_slice(body)?;
    let inner = MemSource::new(bytes, piece.max(1), fails.to_vec(alloc)?);
    Ok(Watched { inner, most: 0 })
}

/// How the first call of a reader ends, as a text.
fn first_end(alloc: Global, source: &mut Watched) -> Result<String, AllocError> {
    match FrameReader::new(alloc).next(source) {
        Ok(_) => format!(in alloc; "a frame"),
        Err(e) => format!(in alloc; "{e}"),
    }
}

/// A body, the size of its pieces, which reads fail, and how the reader ends.
type Row = (&'static [u8], usize, &'static [u64], &'static str);

const ROWS: &[Row] = &[
    (b"", 4, &[], "bad session at 0: cut"),
    (
        b"\x10\x0a\0\0\0\x07\0\0\0\0\0",
        1,
        &[],
        "bad session at 0: cut",
    ),
    (
        b"\x10\x0a\0\0\0\x07\0\0\0\0\0",
        3,
        &[2],
        "the source failed",
    ),
];

/// Whether the reader ends so, and asked for 65,536 bytes at once at most.
fn asks_little(alloc: Global, row: &Row) -> Result<bool, AllocError> {
    let (body, piece, fails, end) = *row;
    let mut source = announced(alloc, body, piece, fails)?;
    let text = first_end(alloc, &mut source)?;
    Ok(text.as_str() == end && source.most <= 65_536)
}

#[test]
fn a_length_alone_takes_no_megabyte(rt: HostRuntime) {
    for row in ROWS {
        assert_found(&rt, asks_little(rt.alloc(), row), &row.3);
    }
}
