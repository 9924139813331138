//! A session of more than two MiB, read to its end frame by frame. With ample memory nothing is refused.
use sd_io::MemSource;
use session_frames::{Frame, FrameError, FrameReader, bytes_have_one_reading};
use std::alloc::{AllocError, Global};

// The head of an install whose body has 2^20 bytes, the most that a frame may have.
const LONGEST: &[u8; 17] = b"\0\0\x10\0\x10\x0a\0\0\0\x07\0\0\0\0\0\0\0";

// What stands between two of them: a tick at 3, a remove, a report.
const BETWEEN: &[u8; 48] = b"\x09\0\0\0\x01\x03\0\0\0\0\0\0\0\
    \x0d\0\0\0\x11\x0a\0\0\0\x07\0\0\0\0\0\0\0\
    \x0e\0\0\0\x12\x0a\0\0\0\x07\0\0\0\0\0\0\0\x01";

// Adds the longest install.
fn push_longest(bytes: &mut Vec<u8>) -> Result<(), AllocError> {
    bytes.extend_from_slice(LONGEST)?;
    for _ in 0..1_048_563 {
        bytes.push(7)?;
    }
    Ok(())
}

// Adds a thousand times the three frames.
fn push_between(bytes: &mut Vec<u8>) -> Result<(), AllocError> {
    for _ in 0..1_000 {
        bytes.extend_from_slice(BETWEEN)?;
    }
    Ok(())
}

// Twice: the longest install, and then a thousand times the three frames.
fn session(alloc: Global) -> Result<Vec<u8>, AllocError> {
    let mut bytes = Vec::new(alloc);
    for _ in 0..2 {
        push_longest(&mut bytes)?;
        push_between(&mut bytes)?;
    }
    Ok(bytes)
}

// The end, a tick, a remove, a report, or an install of so many bytes.
fn code(frame: &Option<Frame>) -> usize {
    match frame {
        None => 0,
        Some(Frame::Log(_)) => 1,
        Some(Frame::Remove { .. }) => 2,
        Some(Frame::Report { .. }) => 3,
        Some(Frame::Install { config, .. }) => config.len(),
    }
}

// The code of the frame with this number.
fn code_at(number: usize) -> usize {
    match number % 3_001 {
        0 => 1_048_563,
        place => (place - 1) % 3 + 1,
    }
}

// Reads the next frame, and gives the reader that goes on from there, and the frame's code.
fn take_code(
    reader: FrameReader,
    source: &mut MemSource,
) -> Result<(FrameReader, usize), FrameError> {
    let (next, frame) = reader.next(source)?;
    Ok((next, code(&frame)))
}

// How many frames come before the end, each with the code that it should have.
fn count_good(alloc: Global, source: &mut MemSource) -> Option<usize> {
    let mut reader = FrameReader::new(alloc);
    for number in 0..10_000 {
        let (next, code) = take_code(reader, source).ok()?;
        if code == 0 {
            return Some(number);
        }
        if code != code_at(number) {
            return None;
        }
        reader = next;
    }
    None
}

// How many frames the session has, each with the code that it should have.
fn count_session(alloc: Global) -> Result<Option<usize>, AllocError> {
    let mut source = MemSource::new(session(alloc)?, 50_000, Vec::new(alloc));
    Ok(count_good(alloc, &mut source))
}

#[test]
fn reads_two_mebibytes_to_the_end(rt: HostRuntime) {
    bytes_have_one_reading();
    assert!(rt; count_session(rt.alloc()) == Ok(Some(6_002)));
}
