//! Configurations as large as may be, and larger ones.
use super::run::{SOUND, assert_told, check};
use sd_io::Source;
use std::alloc::{AllocError, Global};
use std::test::Fail;

/// So many bytes, an even number of which is a configuration of no entities: its id, again and again.
fn padding(alloc: Global, len: usize) -> Result<Vec<u8>, AllocError> {
    vec![in alloc; 8; len]
}

/// A length, and the line.
const ROWS: [(&str, usize, &str); 4] = [
    ("the most", 262_144, "ok 0 0 0 0"),
    ("one more", 262_145, "refused large 262145"),
    ("two more", 262_146, "refused large 262145"),
    ("many more", 1_000_000, "refused large 262145"),
];

#[test]
fn takes_as_many_bytes_as_may_be(rt: HostRuntime) -> Result<(), Fail> {
    for (name, len, line) in ROWS {
        let outcome = check(rt.alloc(), padding(rt.alloc(), len)?, SOUND)?;
        assert_told(&rt, name, &outcome, line);
    }
    Ok(())
}

#[test]
fn leaves_what_comes_after(rt: HostRuntime) -> Result<(), Fail> {
    let mut config = padding(rt.alloc(), 262_145)?;
    config.extend_from_slice(b"after")?;
    let mut outcome = check(rt.alloc(), config, SOUND)?;
    let mut buffer = [0; 8];
    assert!(rt; outcome.input.read(&mut buffer) == Ok(5));
    assert!(rt; buffer == *b"after\0\0\0");
    Ok(())
}
