//! Frames of a source that holds bytes: such that stand whole in what it holds, such that begin there, and faults.
use super::asserts::assert_found;
use super::reading::{LEAST, Session, is_so, read};
use sd_io::BufferedSource;
use std::alloc::{AllocError, Global};
use std::io::BufReader;

/// What these bytes are read as, where so many are read ahead at once.
fn read_ahead(alloc: Global, bytes: &[u8], ahead: usize) -> Result<Session, AllocError> {
    let Ok(buffered) = BufReader::with_capacity(alloc, ahead, bytes) else {
        return Err(AllocError);
    };
    read(alloc, &mut BufferedSource::new(buffered))
}

/// Whether these bytes are read as these frames and this end, where so many are read ahead at once.
fn reads_ahead(
    alloc: Global,
    bytes: &[u8],
    ahead: usize,
    text: &str,
    end: &str,
) -> Result<bool, AllocError> {
    let session = read_ahead(alloc, bytes, ahead)?;
    Ok(is_so(alloc, &session, text, end))
}

#[test]
fn gives_the_same_frames_whatever_is_held(rt: HostRuntime) {
    let text =
        "[Install { uid: 10, id: 7, config: Seq { items: [58, 6, 8, 1, 18, 2, 8, 5, 26, 4, 8, 100, 16, 1] } }, \
        Log(AtomAt { at: 2, atom: Atom { id: 5, fields: Seq { items: [] } } }), \
        Log(AtomAt { at: 3, atom: Atom { id: 5, fields: Seq { items: [] } } }), \
        Report { uid: 10, id: 7, include_current: true }]";
    // Nothing more than is read; a length and no frame; a frame and the next one's length; several frames; all.
    for &ahead in &[1, 4, 40, 65, 1000] {
        assert_found(
            &rt,
            reads_ahead(rt.alloc(), &LEAST, ahead, text, "end"),
            &ahead,
        );
    }
}

/// A tick, and what stands after it with its fault.
const FAULTS: &[(&[u8], &str)] = &[
    (b"\x09\0\0\0\x01\x03\0\0\0\0\0\0\0\0\0\0\0", "bad length"),
    (
        b"\x09\0\0\0\x01\x03\0\0\0\0\0\0\0\x01\0\x10\0",
        "too long: 1048577 bytes",
    ),
    (
        b"\x09\0\0\0\x01\x03\0\0\0\0\0\0\0\x01\0\0\0\x63",
        "unknown kind 99",
    ),
    (
        b"\x09\0\0\0\x01\x03\0\0\0\0\0\0\0\x09\0\0\0\x01\x02\0\0\0\0\0\0\0",
        "time backwards: 2 after 3",
    ),
    (b"\x09\0\0\0\x01\x03\0\0\0\0\0\0\0\x09\0\0\0\x01", "cut"),
];

/// Whether the tick is read, and then this fault is told, where so many bytes are read ahead at once.
fn tells_ahead(alloc: Global, bytes: &[u8], ahead: usize, fault: &str) -> Result<bool, AllocError> {
    let end = format!(in alloc; "bad session at 13: {fault}")?;
    reads_ahead(alloc, bytes, ahead, "[Log(Tick { at: 3 })]", end.as_str())
}

#[test]
fn tells_the_same_fault_whatever_is_held(rt: HostRuntime) {
    for &(bytes, fault) in FAULTS {
        for &ahead in &[1, 15, 1000] {
            assert_found(
                &rt,
                tells_ahead(rt.alloc(), bytes, ahead, fault),
                &(fault, ahead),
            );
        }
    }
}
