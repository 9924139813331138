//! Sources and sinks over memory.
use super::super::asserts::assert_holds;
use sd_io::{MemSink, MemSource, Sink, Source};
use std::alloc::{AllocError, Global};
use std::process::Abort;
use std::test::*;

/// A source of these bytes, in pieces of this size, that fails at these calls.
fn source_of(
    alloc: Global,
    bytes: &[u8],
    piece: usize,
    fails: &[u64],
) -> Result<MemSource, AllocError> {
    let bytes = bytes.to_vec(alloc)?;
    let fails = fails.to_vec(alloc)?;
    Ok(MemSource::new(bytes, piece.max(1), fails))
}

/// A sink with this room that fails at these calls.
fn sink_of(alloc: Global, room: usize, fails: &[u64]) -> Result<MemSink, AllocError> {
    MemSink::new(alloc, room, fails.to_vec(alloc)?)
}

/// Whether a read gives so many bytes, or fails where there is no number, and leaves these in the buffer.
fn reads(source: &mut MemSource, buf: &mut [u8; 3], count: Option<usize>, bytes: &[u8; 3]) -> bool {
    source.read(buf).ok() == count && *buf == *bytes
}

/// How many bytes a read after the other gives, and what it leaves in the buffer.
const READS: &[(Option<usize>, &[u8; 3])] = &[
    (Some(3), &[1, 2, 3]),
    (None, &[1, 2, 3]),
    (Some(3), &[4, 5, 6]),
    (None, &[4, 5, 6]),
    (Some(0), &[4, 5, 6]),
    (Some(0), &[4, 5, 6]),
];

fn assert_reads(rt: &impl Abort, source: &mut MemSource) {
    let mut buf = [0; 3];
    for &(count, bytes) in READS {
        assert_holds(rt, reads(source, &mut buf, count, bytes), &bytes);
    }
}

#[test]
fn gives_pieces_and_fails_by_number(rt: HostRuntime) -> Result<(), Fail> {
    let mut source = source_of(rt.alloc(), &[1, 2, 3, 4, 5, 6], 4, &[1, 3])?;
    assert_reads(&rt, &mut source);
    Ok(())
}

/// Whether no bytes are read at first, then these counts of the three, and then no more.
fn gives_three(source: &mut MemSource) -> bool {
    let mut buf = [0; 8];
    source.read(&mut []) == Ok(0)
        && source.read(&mut buf) == Ok(2)
        && source.read(&mut buf) == Ok(1)
        && source.read(&mut buf) == Ok(0)
        && buf == [3, 2, 0, 0, 0, 0, 0, 0]
}

#[test]
fn gives_no_more_than_the_piece(rt: HostRuntime) -> Result<(), Fail> {
    let mut source = source_of(rt.alloc(), &[1, 2, 3], 2, &[])?;
    assert!(rt; gives_three(&mut source));
    Ok(())
}

/// Whether a put of this piece is fine or fails so, and the sink then has these bytes.
fn puts(sink: &mut MemSink, piece: &str, is_fine: bool, bytes: &str) -> bool {
    sink.put(piece.as_bytes()).is_ok() == is_fine && sink.bytes() == bytes.as_bytes()
}

/// What is put, whether the put is fine, and what the sink then has.
const PUTS: &[(&str, bool, &str)] = &[
    ("ab", true, "ab"),
    ("c", false, "ab"),
    ("", true, "ab"),
    ("cde", false, "abcd"),
    ("", true, "abcd"),
    ("f", false, "abcd"),
];

fn assert_puts(rt: &impl Abort, sink: &mut MemSink) {
    for &(piece, is_fine, bytes) in PUTS {
        assert_holds(rt, puts(sink, piece, is_fine, bytes), &(piece, bytes));
    }
}

#[test]
fn takes_what_fits_and_fails_by_number(rt: HostRuntime) -> Result<(), Fail> {
    let mut sink = sink_of(rt.alloc(), 4, &[1])?;
    assert_puts(&rt, &mut sink);
    Ok(())
}
