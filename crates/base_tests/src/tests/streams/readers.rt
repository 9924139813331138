//! Readers of std as sources.
use super::super::asserts::{assert_found, assert_holds};
use sd_io::{BufferedSource, ReadFailed, Source, StdSource};
use std::alloc::{AllocError, Global};
use std::io;
use std::io::{BufReader, ErrorKind, Read};

/// What a reader does at a call.
#[derive(Clone, Copy)]
enum Call {
    /// It gives this byte.
    Byte(u8),
    Interrupted,
    Broken,
}

/// Does as its list says, a call after the other, and then is at its end.
#[derive(Drop)]
struct Scripted<'a>(&'a [Call]);

impl Read for Scripted<'_> {
    fn read(&mut self, buf: &mut [u8]) -> io::Result<usize> {
        let Some((call, others)) = self.0.split_first() else {
            return Ok(0);
        };
        self.0 = others;
        match *call {
            Call::Byte(_) if buf.is_empty() => Ok(0),
            Call::Byte(byte) => {
                buf[0] = byte;
                Ok(1)
            }
            Call::Interrupted => Err(io::Error::from(ErrorKind::Interrupted)),
            Call::Broken => Err(io::Error::from(ErrorKind::BrokenPipe)),
        }
    }
}

/// Whether reads into two bytes answer so, and then the end. A byte stands for a read that gives it, and none for one
/// that fails and leaves the buffer alone.
fn answers_so<S: Source>(source: &mut S, answers: &[Option<u8>]) -> bool {
    let mut buf = [0; 2];
    let mut last = 0;
    for answer in answers {
        let is_so = match (source.read(&mut buf), *answer) {
            (Ok(1), Some(byte)) => {
                last = byte;
                true
            }
            (Err(ReadFailed), None) => true,
            _ => false,
        };
        if !is_so || buf != [last, 0] {
            return false;
        }
    }
    source.read(&mut buf) == Ok(0) && buf == [last, 0]
}

/// Whether the reads of a reader as it comes answer so.
fn reads_as(calls: &[Call], answers: &[Option<u8>]) -> bool {
    answers_so(&mut StdSource::new(Scripted(calls)), answers)
}

/// Whether those of a reader answer so of which so many bytes are read ahead at once.
fn reads_ahead_as(
    alloc: Global,
    calls: &[Call],
    answers: &[Option<u8>],
    ahead: usize,
) -> Result<bool, AllocError> {
    let Ok(buffered) = BufReader::with_capacity(alloc, ahead, Scripted(calls)) else {
        return Err(AllocError);
    };
    Ok(answers_so(&mut BufferedSource::new(buffered), answers))
}

/// What a reader does, and what the reads answer.
const ROWS: &[(&[Call], &[Option<u8>])] = &[
    // A byte a call.
    (&[Call::Byte(7), Call::Byte(8)], &[Some(7), Some(8)]),
    // An interruption between two bytes, and one before the first.
    (
        &[Call::Byte(7), Call::Interrupted, Call::Byte(8)],
        &[Some(7), None, Some(8)],
    ),
    (&[Call::Interrupted, Call::Byte(7)], &[None, Some(7)]),
    // It fails once, and then gives; twice; and at last.
    (&[Call::Broken, Call::Byte(7)], &[None, Some(7)]),
    (
        &[Call::Broken, Call::Interrupted, Call::Byte(7)],
        &[None, None, Some(7)],
    ),
    (&[Call::Byte(7), Call::Broken], &[Some(7), None]),
];

#[test]
fn tells_each_failed_read(rt: HostRuntime) {
    for (at, (calls, answers)) in ROWS.iter().enumerate() {
        assert_holds(&rt, reads_as(calls, answers), &at);
    }
}

#[test]
fn tells_each_failed_read_ahead(rt: HostRuntime) {
    for (at, (calls, answers)) in ROWS.iter().enumerate() {
        // The buffer is no longer than what is asked for, or longer.
        for &ahead in &[1, 2, 3, 4_096] {
            assert_found(
                &rt,
                reads_ahead_as(rt.alloc(), calls, answers, ahead),
                &(at, ahead),
            );
        }
    }
}

/// Whether a source holds these bytes.
fn holds<S: Source>(source: &S, bytes: &[u8]) -> bool {
    source.held() == bytes
}

/// What a source holds that read three bytes ahead: all of them, then those after one that was taken, and as many where
/// it was asked to take more than it holds.
fn holds_what_is_left(alloc: Global) -> Result<bool, AllocError> {
    let Ok(buffered) = BufReader::with_capacity(alloc, 4, b"abcd".as_slice()) else {
        return Err(AllocError);
    };
    let mut source = BufferedSource::new(buffered);
    let mut buf = [0];
    let is_read = source.held().is_empty() && source.read(&mut buf) == Ok(1) && buf == [b'a'];
    let is_first = holds(&source, b"bcd") && source.skip(1) && holds(&source, b"cd");
    Ok(is_read && is_first && !source.skip(3) && holds(&source, b"cd") && source.skip(2))
}

#[test]
fn holds_what_was_read_ahead(rt: HostRuntime) {
    assert_found(&rt, holds_what_is_left(rt.alloc()), &0);
}

/// Whether a read gives so many bytes, and leaves these in the buffer.
fn gives(source: &mut StdSource<&[u8]>, buf: &mut [u8; 2], count: usize, bytes: &[u8; 2]) -> bool {
    source.read(buf) == Ok(count) && *buf == *bytes
}

#[test]
fn reads_once_a_call(rt: HostRuntime) {
    let mut source = StdSource::new(b"abc".as_slice());
    let mut buf = [0; 2];
    assert!(rt; gives(&mut source, &mut buf, 2, b"ab"));
    assert!(rt; gives(&mut source, &mut buf, 1, b"cb"));
    assert!(rt; gives(&mut source, &mut buf, 0, b"cb"));
}

/// So many bytes.
fn bytes_of(alloc: Global, count: usize, byte: u8) -> Result<Vec<u8>, AllocError> {
    vec![in alloc; byte; count]
}

/// Whether one read fills a buffer with these bytes.
fn fills(bytes: &[u8], buf: &mut [u8]) -> bool {
    let mut source = StdSource::new(bytes);
    source.read(buf) == Ok(bytes.len()) && *buf == *bytes
}

/// Whether a buffer of so many bytes is filled by one read.
fn fills_large(alloc: Global, count: usize) -> Result<bool, AllocError> {
    let bytes = bytes_of(alloc, count, 7)?;
    let mut buf = bytes_of(alloc, count, 0)?;
    Ok(bytes.len() == count && fills(&bytes, &mut buf))
}

#[test]
fn fills_a_large_buffer(rt: HostRuntime) {
    for &count in &[4_097, 65_537, 200_000] {
        assert_found(&rt, fills_large(rt.alloc(), count), &count);
    }
}
