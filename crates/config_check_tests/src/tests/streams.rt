//! Inputs that give little at a time, and streams that fail.
use super::run::{SOUND, Streams, assert_told, check};
use config_check::{CheckError, Finding};
use std::process::Abort;
use std::test::Fail;

/// A count of atoms, 14 bytes, and a matcher that refers to itself.
const CONFIGS: [(&[u8], &str); 2] = [
    (
        b"\x3a\x06\x08\x01\x12\x02\x08\x05\x1a\x04\x08\x64\x10\x01",
        "ok 1 0 0 1\n",
    ),
    (
        b"\x3a\x08\x08\x01\x1a\x04\x08\x03\x10\x01",
        "refused link 7 0 1\n",
    ),
];

#[test]
fn reads_in_pieces(rt: HostRuntime) -> Result<(), Fail> {
    for (config, line) in CONFIGS {
        for piece in [1, 3, 14] {
            let streams = Streams { piece, ..SOUND };
            let outcome = check(rt.alloc(), config.to_vec(rt.alloc())?, streams)?;
            assert_told(&rt, "pieces", &outcome, line.trim_end());
        }
    }
    Ok(())
}

#[test]
fn tells_nothing_where_a_read_fails(rt: HostRuntime) -> Result<(), Fail> {
    // A byte a call, and the call that gives none.
    for (config, _) in CONFIGS {
        for call in 0..=config.len() as u64 {
            let streams = Streams {
                piece: 1,
                failed_read: Some(call),
                ..SOUND
            };
            let outcome = check(rt.alloc(), config.to_vec(rt.alloc())?, streams)?;
            assert!(rt; is_error(&outcome.answer, CheckError::Read), "at {call}");
            assert!(rt; outcome.out.bytes().is_empty(), "at {call}");
        }
    }
    Ok(())
}

#[test]
fn writes_what_there_is_room_for(rt: HostRuntime) -> Result<(), Fail> {
    for (config, line) in CONFIGS {
        for room in 0..line.len() {
            let streams = Streams { room, ..SOUND };
            let outcome = check(rt.alloc(), config.to_vec(rt.alloc())?, streams)?;
            assert!(rt; is_error(&outcome.answer, CheckError::Write), "at {room}");
            assert_front(&rt, outcome.out.bytes(), line.as_bytes(), room);
        }
    }
    Ok(())
}

/// Whether an answer is this error.
fn is_error(answer: &Result<Finding, CheckError>, wanted: CheckError) -> bool {
    matches!(answer, Err(e) if *e == wanted)
}

/// Asserts that so many bytes were written, the first of these.
fn assert_front<R: Abort>(rt: &R, written: &[u8], whole: &[u8], room: usize) {
    assert!(rt; written.len() == room, "length at {room}");
    assert!(rt; whole.starts_with(written), "at {room}");
}
