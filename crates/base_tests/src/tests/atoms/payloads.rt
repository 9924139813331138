//! Payloads that are read, and those that are refused, each for the first reason that it has.
use super::super::asserts::{assert_found, assert_holds};
use atom_record::{AtomFault, parse_atom};
use std::alloc::{AllocError, Global};
use std::process::Abort;

/// The number of the reason for which a payload is refused: 0 where it is read, 255 where memory was wanting.
pub fn reason_of(alloc: Global, payload: &[u8]) -> u8 {
    match parse_atom(alloc, payload) {
        Ok(_) => 0,
        Err(AtomFault::Bad(reason)) => reason,
        Err(AtomFault::Memory) => 255,
    }
}

/// Asserts that each payload is read, or refused for its reason.
fn assert_reasons(rt: &impl Abort, alloc: Global, rows: &[(&[u8], u8)]) {
    for &(payload, reason) in rows {
        assert_holds(rt, reason_of(alloc, payload) == reason, &payload);
    }
}

/// Ids, places and types, and the numbers of the reasons for which the payloads are refused.
const PLACES: &[(&[u8], u8)] = &[
    (b"\x05\0\0\0", 0),
    // Fields, indexes and subs at their edges.
    (b"\x05\0\0\0\x00\0\0\0\x03\0", 4),
    (b"\x05\0\0\0\x01\0\0\0\x03\0", 0),
    (b"\x05\0\0\0\x7f\x7f\x7f\0\x03\0", 0),
    (b"\x05\0\0\0\x80\0\0\0\x03\0", 4),
    (b"\x05\0\0\0\x01\x80\0\0\x03\0", 4),
    (b"\x05\0\0\0\x01\0\x80\0\x03\0", 4),
    // Equal, falling and rising places.
    (b"\x05\0\0\0\x02\x02\x02\0\x03\0\x02\x02\x02\0\x03\0", 5),
    (b"\x05\0\0\0\x02\x02\x02\0\x03\0\x01\x03\x03\0\x03\0", 5),
    (b"\x05\0\0\0\x02\x02\x02\0\x03\0\x02\x01\x03\0\x03\0", 5),
    (b"\x05\0\0\0\x02\x02\x02\0\x03\0\x02\x02\x01\0\x03\0", 5),
    (b"\x05\0\0\0\x02\x02\x02\0\x03\0\x02\x02\x03\0\x03\0", 0),
    (b"\x05\0\0\0\x02\x02\x02\0\x03\0\x02\x03\0\0\x03\0", 0),
    (b"\x05\0\0\0\x02\x02\x02\0\x03\0\x03\0\0\0\x03\0", 0),
    // Types, and the byte of a Bool.
    (b"\x05\0\0\0\x01\0\0\0\x00", 6),
    (b"\x05\0\0\0\x01\0\0\0\x07", 6),
    (b"\x05\0\0\0\x01\0\0\0\x03\x01", 0),
    (b"\x05\0\0\0\x01\0\0\0\x03\x02", 6),
    // Other ids, and none that is whole.
    (b"", 2),
    (b"\x05\0\0", 2),
    (b"\0\0\0\0", 2),
    (b"\0\0\0\0\0", 2),
    (b"\x01\0\0\0", 0),
    (b"\xff\xff\xff\x7f", 0),
    (b"\0\0\0\x80", 2),
    (b"\x05\0\0\0\0", 3),
];

/// Flags, ends inside an entry, and payloads for which two reasons stand.
const ENTRIES: &[(&[u8], u8)] = &[
    // Flags: all of a state, an unknown one, two states, others beside a state, states that may be none, and resets.
    (b"\x05\0\0\0\x01\0\0\x07\x01\0\0\0\0", 0),
    (b"\x05\0\0\0\x01\0\0\x08\x01\0\0\0\0", 7),
    (
        b"\x05\0\0\0\x01\0\0\x01\x01\0\0\0\0\x02\0\0\x01\x01\0\0\0\0",
        7,
    ),
    (
        b"\x05\0\0\0\x01\0\0\x01\x01\0\0\0\0\x02\0\0\x02\x01\0\0\0\0",
        0,
    ),
    (
        b"\x05\0\0\0\x01\0\0\x02\x01\0\0\0\0\x02\0\0\x01\x01\0\0\0\0",
        0,
    ),
    (b"\x05\0\0\0\x01\0\0\x01\x02\0\0\0\0\0\0\0\0", 7),
    (b"\x05\0\0\0\x01\x01\0\x01\x01\0\0\0\0", 7),
    (b"\x05\0\0\0\x01\0\x01\x01\x01\0\0\0\0", 7),
    (b"\x05\0\0\0\x01\0\0\x04\x01\0\0\0\0", 7),
    (b"\x05\0\0\0\x01\0\0\x05\x01\0\0\0\0", 0),
    (b"\x05\0\0\0\x01\0\0\x06\x01\0\0\0\0", 7),
    (b"\x05\0\0\0\x01\0\0\x02\x02\0\0\0\0\0\0\0\0", 0),
    // The end inside an entry.
    (b"\x05\0\0\0\x01\0\0\0", 3),
    (b"\x05\0\0\0\x01\0\0\0\x01\0\0\0", 3),
    (b"\x05\0\0\0\x01\0\0\0\x02\0\0\0\0\0\0\0", 3),
    (b"\x05\0\0\0\x01\0\0\0\x03", 3),
    (b"\x05\0\0\0\x01\0\0\0\x04\x02", 3),
    (b"\x05\0\0\0\x01\0\0\0\x04\x02\0a", 3),
    (b"\x05\0\0\0\x01\0\0\0\x05\x02\0ab", 0),
    (b"\x05\0\0\0\x01\0\0\0\x06\0\0\0", 3),
    // Two reasons in one entry: the one that is judged first.
    (b"\x05\0\0\0\x00\0\0\0", 3),
    (b"\x05\0\0\0\x00\0\0\0\x01\0", 4),
    (b"\x05\0\0\0\x02\0\0\0\x03\0\x00\0\0\0\x03\0", 4),
    (b"\x05\0\0\0\x02\0\0\0\x03\0\x02\0\0\0\x00", 5),
    (b"\x05\0\0\0\x01\0\0\x08\x00", 6),
    (b"\x05\0\0\0\x01\0\0\x08\x01", 7),
    (b"\x05\0\0\0\x01\0\0\x08\x03\x02", 7),
];

#[test]
fn refuses_for_the_first_reason(rt: HostRuntime) {
    assert_reasons(&rt, rt.alloc(), PLACES);
    assert_reasons(&rt, rt.alloc(), ENTRIES);
}

/// Adds sevens up to this length.
fn fill(bytes: &mut Vec<u8>, len: usize) -> Result<(), AllocError> {
    for _ in bytes.len()..len {
        bytes.push(7)?;
    }
    Ok(())
}

/// These bytes, and then sevens, up to this length.
pub fn filled(alloc: Global, front: &[u8], len: usize) -> Result<Vec<u8>, AllocError> {
    let mut bytes = Vec::from_slice(alloc, front)?;
    fill(&mut bytes, len)?;
    Ok(bytes)
}

/// Whether a payload of 4,096 bytes is read, and with one byte more is too long.
fn is_longest(alloc: Global, payload: &mut Vec<u8>) -> Result<bool, AllocError> {
    let is_read = payload.len() == 4096 && reason_of(alloc, payload) == 0;
    payload.push(7)?;
    Ok(is_read && reason_of(alloc, payload) == 1)
}

/// Whether a payload that goes on from here up to 4,096 bytes is read, and one of 4,097 bytes is too long.
fn reads_4096_from(alloc: Global, front: &[u8]) -> Result<bool, AllocError> {
    let mut payload = filled(alloc, front, 4096)?;
    is_longest(alloc, &mut payload)
}

#[test]
fn reads_4096_bytes_and_no_more(rt: HostRuntime) {
    // A Str and a Raw of 4,085 bytes, and then the same with a byte after it.
    assert_found(
        &rt,
        reads_4096_from(rt.alloc(), b"\x05\0\0\0\x01\0\0\0\x04\xf5\x0f"),
        &"a Str",
    );
    assert_found(
        &rt,
        reads_4096_from(rt.alloc(), b"\x05\0\0\0\x01\0\0\0\x05\xf5\x0f"),
        &"a Raw",
    );
}

/// An atom with one value of each kind.
pub const EACH_KIND: &[u8] = b"\x05\0\0\0\
    \x01\0\0\x07\x01\xfe\xff\xff\xff\
    \x02\0\0\0\x02\xfe\xff\xff\xff\xff\xff\xff\xff\
    \x02\x01\x01\x02\x03\x01\
    \x02\x01\x02\0\x04\x02\0ab\
    \x02\x02\0\0\x05\x01\0\xff\
    \x03\0\0\0\x06\x01\x02\x03\x04";

/// Where its entries end.
const ENDS: [usize; 7] = [4, 13, 26, 32, 41, 49, 58];

#[test]
fn finds_each_cut(rt: HostRuntime) {
    assert!(rt; EACH_KIND.len() == 58);
    for len in 4..=EACH_KIND.len() {
        let reason = if ENDS.contains(&len) { 0 } else { 3 };
        assert_holds(
            &rt,
            reason_of(rt.alloc(), &EACH_KIND[..len]) == reason,
            &len,
        );
    }
}
