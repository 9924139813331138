//! Writers of std as sinks.
use super::super::asserts::{assert_found, assert_holds};
use sd_io::{Sink, StdSink};
use std::alloc::{AllocError, Global};
use std::io;
use std::io::{ErrorKind, Write};

/// What a writer does at a call.
#[derive(Clone, Copy)]
enum Call {
    /// It takes at most so many bytes.
    Takes(usize),
    Interrupted,
    Broken,
}

/// Does as its list says, a call after the other, and at each call after those the same.
#[derive(Drop)]
struct Scripted<'a> {
    calls: &'a [Call],
    later: Call,
    bytes: Vec<u8>,
}

impl<'a> Scripted<'a> {
    fn new(alloc: Global, calls: &'a [Call], later: Call) -> Scripted<'a> {
        Scripted {
            calls,
            later,
            bytes: Vec::new(alloc),
        }
    }

    fn next(&mut self) -> Call {
        match self.calls.split_first() {
            Some((call, others)) => {
                self.calls = others;
                *call
            }
            None => self.later,
        }
    }
}

impl Write for Scripted<'_> {
    fn write(&mut self, buf: &[u8]) -> io::Result<usize> {
        match self.next() {
            Call::Takes(most) => {
                let count = most.min(buf.len());
                self.bytes
                    .extend_from_slice(&buf[..count])
                    .map_err(AllocError::from)?;
                Ok(count)
            }
            Call::Interrupted => Err(io::Error::from(ErrorKind::Interrupted)),
            Call::Broken => Err(io::Error::from(ErrorKind::BrokenPipe)),
        }
    }

    fn flush(&mut self) -> io::Result<()> {
        Ok(())
    }
}

/// Whether the puts of `abc`, of nothing, of `de`, of nothing and of `f` are fine or fail so.
fn puts_as(writer: &mut Scripted, answers: &[bool; 5]) -> bool {
    let mut sink = StdSink::new(writer);
    sink.put(b"abc").is_ok() == answers[0]
        && sink.put(b"").is_ok() == answers[1]
        && sink.put(b"de").is_ok() == answers[2]
        && sink.put(b"").is_ok() == answers[3]
        && sink.put(b"f").is_ok() == answers[4]
}

/// Whether the puts of the pieces answer so, and then these bytes are written.
fn writes_as(
    alloc: Global,
    calls: &[Call],
    later: Call,
    answers: &[bool; 5],
    bytes: &[u8],
) -> bool {
    let mut writer = Scripted::new(alloc, calls, later);
    puts_as(&mut writer, answers) && writer.bytes.as_slice() == bytes
}

const ALL: Call = Call::Takes(usize::MAX);

const ONE: Call = Call::Takes(1);

const NOTHING: Call = Call::Takes(0);

/// What a writer does, and does later, what the puts answer, and what is written.
const ROWS: &[(&[Call], Call, [bool; 5], &[u8])] = &[
    (&[], ALL, [true, true, true, true, true], b"abcdef"),
    // A byte a call.
    (&[], ONE, [true, true, true, true, true], b"abcdef"),
    // It fails once and then takes, before the first byte and between two.
    (
        &[Call::Broken],
        ALL,
        [false, true, true, true, true],
        b"def",
    ),
    (
        &[ONE, Call::Broken],
        ALL,
        [false, true, true, true, true],
        b"adef",
    ),
    (
        &[ONE, ONE, Call::Broken],
        ONE,
        [false, true, true, true, true],
        b"abdef",
    ),
    (
        &[ALL, Call::Broken],
        ALL,
        [true, true, false, true, true],
        b"abcf",
    ),
    // It is interrupted, before the first byte and between two.
    (
        &[Call::Interrupted],
        ALL,
        [false, true, true, true, true],
        b"def",
    ),
    (
        &[ONE, Call::Interrupted],
        ALL,
        [false, true, true, true, true],
        b"adef",
    ),
    // It takes nothing once, between two bytes.
    (
        &[ONE, NOTHING],
        ALL,
        [false, true, true, true, true],
        b"adef",
    ),
    // It takes four bytes, and then no more, or fails from then on.
    (
        &[ONE, ONE, ONE, ONE],
        NOTHING,
        [true, true, false, true, false],
        b"abcd",
    ),
    (
        &[ONE, ONE, ONE, ONE],
        Call::Interrupted,
        [true, true, false, true, false],
        b"abcd",
    ),
    (&[], Call::Broken, [false, true, false, true, false], b""),
];

#[test]
fn tells_each_failed_write(rt: HostRuntime) {
    for (at, (calls, later, answers, bytes)) in ROWS.iter().enumerate() {
        assert_holds(
            &rt,
            writes_as(rt.alloc(), calls, *later, answers, bytes),
            &at,
        );
    }
}

/// So many bytes.
fn bytes_of(alloc: Global, count: usize) -> Result<Vec<u8>, AllocError> {
    vec![in alloc; 7; count]
}

/// Whether a put of this piece is fine.
fn takes_whole(writer: &mut Scripted, piece: &[u8]) -> bool {
    StdSink::new(writer).put(piece) == Ok(())
}

/// Whether a piece of so many bytes is written whole where a call takes at most so many of them.
fn writes_large(alloc: Global, count: usize, most: usize) -> Result<bool, AllocError> {
    let piece = bytes_of(alloc, count)?;
    let mut writer = Scripted::new(alloc, &[], Call::Takes(most));
    Ok(takes_whole(&mut writer, piece.as_slice()) && writer.bytes == piece)
}

/// The lengths of pieces, and how many bytes a call takes at most.
const LARGE: &[(usize, usize)] = &[
    (4_097, usize::MAX),
    (65_537, usize::MAX),
    (200_000, usize::MAX),
    (200_000, 4_096),
    (70_000, 1),
];

#[test]
fn writes_a_large_piece(rt: HostRuntime) {
    for &(count, most) in LARGE {
        assert_found(&rt, writes_large(rt.alloc(), count, most), &(count, most));
    }
}
