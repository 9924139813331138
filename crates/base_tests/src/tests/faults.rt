//! The first fault after good frames, by its text: near the beginning of a session, and far from it.
use super::asserts::assert_holds;
use super::reading::{LEAST, Session, read_bytes};
use std::alloc::{AllocError, Global};
use std::process::Abort;

// These bytes, and then others.
fn joined(alloc: Global, before: &[u8], after: &[u8]) -> Result<Vec<u8>, AllocError> {
    let mut bytes = before.to_vec(alloc)?;
    bytes.extend_from_slice(after)?;
    Ok(bytes)
}

// What these bytes, and then others, are read as.
fn read_joined(alloc: Global, before: &[u8], after: &[u8]) -> Result<Session, AllocError> {
    let bytes = joined(alloc, before, after)?;
    read_bytes(alloc, &bytes, 16)
}

// Whether this end tells this fault at this byte.
fn tells(alloc: Global, end: &str, at: usize, fault: &str) -> Result<bool, AllocError> {
    let text = format!(in alloc; "bad session at {at}: {fault}")?;
    Ok(end == text.as_str())
}

// Whether a session ends with this fault at this byte, after so many good frames.
fn ends_so(alloc: Global, session: &Session, at: usize, frames: usize, fault: &str) -> bool {
    session.frames.len() == frames && tells(alloc, session.end.as_str(), at, fault) == Ok(true)
}

// Whether a session ends with this fault where these bytes begin, after so many good frames.
fn ends(
    alloc: Global,
    before: &[u8],
    after: &[u8],
    frames: usize,
    fault: &str,
) -> Result<bool, AllocError> {
    let session = read_joined(alloc, before, after)?;
    Ok(ends_so(alloc, &session, before.len(), frames, fault))
}

// The four good frames, and a fifth of more than two kilobytes.
fn five_frames(alloc: Global) -> Result<Vec<u8>, AllocError> {
    let mut bytes = joined(
        alloc,
        &LEAST,
        b"\x0d\x08\0\0\x10\x0a\0\0\0\x08\0\0\0\0\0\0\0",
    )?;
    bytes.extend_from_slice(&[0x3a; 2048])?;
    Ok(bytes)
}

// Whether these bytes have this fault after a fifth frame, which is long.
fn breaks_far(alloc: Global, after: &[u8], fault: &str) -> Result<bool, AllocError> {
    let five = five_frames(alloc)?;
    Ok(ends(alloc, &five, after, 5, fault) == Ok(true))
}

// Whether these bytes have this fault after the four good frames, and after a fifth that is long.
fn breaks(alloc: Global, after: &[u8], fault: &str) -> bool {
    ends(alloc, &LEAST, after, 4, fault) == Ok(true) && breaks_far(alloc, after, fault) == Ok(true)
}

// Asserts that bytes have their faults.
fn assert_breaks(rt: &impl Abort, alloc: Global, rows: &[(&[u8], &str)]) {
    for &(after, fault) in rows {
        assert_holds(rt, breaks(alloc, after, fault), &after);
    }
}

// Bytes after good frames, and their faults.
const LENGTHS_AND_TICKS: &[(&[u8], &str)] = &[
    // Lengths: none, a body that is cut, 0, one too long, the longest, and a kind that there isn't.
    (b"\x0d\0\0", "cut"),
    (b"\x0d\0\0\0\x02\x03\0\0\0\0\0\0\0\x05\0\0", "cut"),
    (b"\0\0\0\0", "bad length"),
    (b"\x01\0\x10\0", "too long: 1048577 bytes"),
    (b"\0\0\x10\0", "cut"),
    (b"\x01\0\0\0\x09", "unknown kind 9"),
    // Ticks: a byte short, a byte over, a late time before it, the clock, the byte over before the clock, 2^63.
    (b"\x08\0\0\0\x01\x03\0\0\0\0\0\0", "bad body 1"),
    (b"\x0a\0\0\0\x01\x03\0\0\0\0\0\0\0\0", "bad body 2"),
    (b"\x0a\0\0\0\x01\0\0\0\0\0\0\0\x80\0", "bad body 4"),
    (
        b"\x09\0\0\0\x01\x02\0\0\0\0\0\0\0",
        "time backwards: 2 after 3",
    ),
    (b"\x0a\0\0\0\x01\x02\0\0\0\0\0\0\0\0", "bad body 2"),
    (b"\x09\0\0\0\x01\0\0\0\0\0\0\0\x80", "bad body 4"),
];

// The same of atoms.
const ATOMS: &[(&[u8], &str)] = &[
    // No time, a late time before the id, no id, an id out of range before the clock.
    (b"\x08\0\0\0\x02\x03\0\0\0\0\0\0", "bad body 1"),
    (b"\x09\0\0\0\x02\0\0\0\0\0\0\0\x80", "bad body 4"),
    (b"\x0c\0\0\0\x02\x03\0\0\0\0\0\0\0\x05\0\0", "bad atom 2"),
    (b"\x0d\0\0\0\x02\x02\0\0\0\0\0\0\0\0\0\0\0", "bad atom 2"),
    (b"\x0d\0\0\0\x02\x03\0\0\0\0\0\0\0\0\0\0\x80", "bad atom 2"),
    // Entries: one that is cut, a field of 0, the same place twice, a Bool of 2, unknown flags.
    (
        b"\x0e\0\0\0\x02\x03\0\0\0\0\0\0\0\x05\0\0\0\x01",
        "bad atom 3",
    ),
    (
        b"\x16\0\0\0\x02\x03\0\0\0\0\0\0\0\x05\0\0\0\0\0\0\0\x01\x07\0\0\0",
        "bad atom 4",
    ),
    (
        b"\x1f\0\0\0\x02\x03\0\0\0\0\0\0\0\x05\0\0\0\x01\0\0\0\x01\x07\0\0\0\x01\0\0\0\x01\x07\0\0\0",
        "bad atom 5",
    ),
    (
        b"\x13\0\0\0\x02\x03\0\0\0\0\0\0\0\x05\0\0\0\x01\0\0\0\x03\x02",
        "bad atom 6",
    ),
    (
        b"\x16\0\0\0\x02\x03\0\0\0\0\0\0\0\x05\0\0\0\x01\0\0\x08\x01\x07\0\0\0",
        "bad atom 7",
    ),
    // The clock, and 2^63.
    (
        b"\x16\0\0\0\x02\x02\0\0\0\0\0\0\0\x05\0\0\0\x01\0\0\0\x01\x07\0\0\0",
        "time backwards: 2 after 3",
    ),
    (b"\x0d\0\0\0\x02\0\0\0\0\0\0\0\x80\x05\0\0\0", "bad body 4"),
];

// The same of pulls.
const PULLS: &[(&[u8], &str)] = &[
    // The id before the flag, the flag before what comes after it, the count before the atoms.
    (b"\x0c\0\0\0\x03\x03\0\0\0\0\0\0\0\x11\x27\0", "bad body 1"),
    (
        b"\x0e\0\0\0\x03\x03\0\0\0\0\0\0\0\0\0\0\0\x02",
        "bad atom 2",
    ),
    (
        b"\x0e\0\0\0\x03\x03\0\0\0\0\0\0\0\0\0\0\x80\x02",
        "bad atom 2",
    ),
    (
        b"\x0d\0\0\0\x03\x03\0\0\0\0\0\0\0\x11\x27\0\0",
        "bad body 1",
    ),
    (
        b"\x0f\0\0\0\x03\x03\0\0\0\0\0\0\0\x11\x27\0\0\x02\0",
        "bad body 3",
    ),
    (
        b"\x0f\0\0\0\x03\x03\0\0\0\0\0\0\0\x11\x27\0\0\x01\0",
        "bad body 2",
    ),
    (
        b"\x0f\0\0\0\x03\x03\0\0\0\0\0\0\0\x11\x27\0\0\0\x01",
        "bad body 1",
    ),
    (
        b"\x10\0\0\0\x03\x03\0\0\0\0\0\0\0\x11\x27\0\0\0\xc9\0",
        "bad body 5",
    ),
    (
        b"\x10\0\0\0\x03\x03\0\0\0\0\0\0\0\x11\x27\0\0\0\xc8\0",
        "bad body 1",
    ),
    // Atoms: cut before its id, no id before another one, another one before its entries, these before the end.
    (
        b"\x16\0\0\0\x03\x03\0\0\0\0\0\0\0\x11\x27\0\0\0\x01\0\x05\0\0\0\0\0",
        "bad body 1",
    ),
    (
        b"\x16\0\0\0\x03\x03\0\0\0\0\0\0\0\x11\x27\0\0\0\x01\0\x04\0\0\0\0\0",
        "bad atom 2",
    ),
    (
        b"\x12\0\0\0\x03\x03\0\0\0\0\0\0\0\x11\x27\0\0\0\x01\0\0\0",
        "bad atom 2",
    ),
    (
        b"\x17\0\0\0\x03\x03\0\0\0\0\0\0\0\x11\x27\0\0\0\x01\0\x05\0\x12\x27\0\0\x01",
        "bad atom 8",
    ),
    (
        b"\x27\0\0\0\x03\x03\0\0\0\0\0\0\0\x11\x27\0\0\0\x02\0\
            \x0d\0\x11\x27\0\0\x01\0\0\0\x01\x07\0\0\0\x05\0\x11\x27\0\0\x01\0",
        "bad atom 3",
    ),
    (
        b"\x17\0\0\0\x03\x02\0\0\0\0\0\0\0\x11\x27\0\0\0\x01\0\x04\0\x11\x27\0\0\0",
        "bad body 2",
    ),
    // The clock, and 2^63 before an id out of range.
    (
        b"\x0e\0\0\0\x03\x02\0\0\0\0\0\0\0\x11\x27\0\0\x01",
        "time backwards: 2 after 3",
    ),
    (
        b"\x0e\0\0\0\x03\0\0\0\0\0\0\0\x80\0\0\0\0\x01",
        "bad body 4",
    ),
];

// The same of commands.
const COMMANDS: &[(&[u8], &str)] = &[
    // An id that is cut, bytes left over, a flag of 2 before them.
    (b"\x0c\0\0\0\x10\x0a\0\0\0\x07\0\0\0\0\0\0", "bad body 1"),
    (b"\x04\0\0\0\x11\x0a\0\0", "bad body 1"),
    (b"\x0c\0\0\0\x11\x0a\0\0\0\x07\0\0\0\0\0\0", "bad body 1"),
    (
        b"\x0e\0\0\0\x11\x0a\0\0\0\x07\0\0\0\0\0\0\0\0",
        "bad body 2",
    ),
    (b"\x0d\0\0\0\x12\x0a\0\0\0\x07\0\0\0\0\0\0\0", "bad body 1"),
    (
        b"\x0f\0\0\0\x12\x0a\0\0\0\x07\0\0\0\0\0\0\0\x02\0",
        "bad body 3",
    ),
    (
        b"\x0f\0\0\0\x12\x0a\0\0\0\x07\0\0\0\0\0\0\0\x01\0",
        "bad body 2",
    ),
];

#[test]
fn finds_the_first_fault_of_each_frame(rt: HostRuntime) {
    let alloc = rt.alloc();
    assert_breaks(&rt, alloc, LENGTHS_AND_TICKS);
    assert_breaks(&rt, alloc, ATOMS);
    assert_breaks(&rt, alloc, PULLS);
    assert_breaks(&rt, alloc, COMMANDS);
}
