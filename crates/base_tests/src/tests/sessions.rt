//! Frames by their bytes, in any pieces, and sources that fail.
use super::asserts::assert_found;
use super::reading::{LEAST, Session, read, reads_as, resumes_as};
use sd_io::MemSource;
use std::alloc::{AllocError, Global};

#[test]
fn gives_the_same_frames_in_any_pieces(rt: HostRuntime) {
    let text =
        "[Install { uid: 10, id: 7, config: Seq { items: [58, 6, 8, 1, 18, 2, 8, 5, 26, 4, 8, 100, 16, 1] } }, \
        Log(AtomAt { at: 2, atom: Atom { id: 5, fields: Seq { items: [] } } }), \
        Log(AtomAt { at: 3, atom: Atom { id: 5, fields: Seq { items: [] } } }), \
        Report { uid: 10, id: 7, include_current: true }]";
    for &piece in &[1, 16, 100] {
        assert_found(
            &rt,
            reads_as(rt.alloc(), &LEAST, piece, text, "end"),
            &piece,
        );
    }
}

// Sessions, and their frames by their `Debug`.
const EACH_KIND: &[(&[u8], &str)] = &[
    (b"", "[]"),
    // A tick, at an hour and at the last time that there is too.
    (b"\x09\0\0\0\x01\x03\0\0\0\0\0\0\0", "[Log(Tick { at: 3 })]"),
    (
        b"\x09\0\0\0\x01\0\xa0\xb8\x30\x46\x03\0\0",
        "[Log(Tick { at: 3600000000000 })]",
    ),
    (
        b"\x09\0\0\0\x01\xff\xff\xff\xff\xff\xff\xff\x7f",
        "[Log(Tick { at: 9223372036854775807 })]",
    ),
    // An atom with an entry.
    (
        b"\x16\0\0\0\x02\x03\0\0\0\0\0\0\0\x05\0\0\0\x01\0\0\0\x01\x07\0\0\0",
        "[Log(AtomAt { at: 3, atom: Atom { id: 5, fields: Seq { items: [\
            AtomField { field: 1, index: 0, sub: 0, flags: 0, value: Int(7) }] } } })]",
    ),
    // A pull of two atoms, one that failed, and one of none.
    (
        b"\x25\0\0\0\x03\x03\0\0\0\0\0\0\0\x11\x27\0\0\0\x02\0\
            \x04\0\x11\x27\0\0\x0d\0\x11\x27\0\0\x01\0\0\0\x01\x07\0\0\0",
        "[Log(Pull { at: 3, id: 10001, outcome: Atoms(Seq { items: [\
            Atom { id: 10001, fields: Seq { items: [] } }, \
            Atom { id: 10001, fields: Seq { items: [\
            AtomField { field: 1, index: 0, sub: 0, flags: 0, value: Int(7) }] } }] }) })]",
    ),
    (
        b"\x0e\0\0\0\x03\x03\0\0\0\0\0\0\0\x11\x27\0\0\x01",
        "[Log(Pull { at: 3, id: 10001, outcome: Failed })]",
    ),
    (
        b"\x10\0\0\0\x03\x03\0\0\0\0\0\0\0\x11\x27\0\0\0\0\0",
        "[Log(Pull { at: 3, id: 10001, outcome: Atoms(Seq { items: [] }) })]",
    ),
    // An install of no bytes, a remove, and a report with numbers below 0.
    (
        b"\x0d\0\0\0\x10\x0a\0\0\0\x07\0\0\0\0\0\0\0",
        "[Install { uid: 10, id: 7, config: Seq { items: [] } }]",
    ),
    (
        b"\x0d\0\0\0\x11\x0a\0\0\0\x07\0\0\0\0\0\0\0",
        "[Remove { uid: 10, id: 7 }]",
    ),
    (
        b"\x0d\0\0\0\x11\0\0\0\x80\0\0\0\0\0\0\0\x80",
        "[Remove { uid: -2147483648, id: -9223372036854775808 }]",
    ),
    (
        b"\x0e\0\0\0\x12\xff\xff\xff\xff\xfe\xff\xff\xff\xff\xff\xff\xff\0",
        "[Report { uid: -1, id: -2, include_current: false }]",
    ),
    // Frames of one time, and commands between them.
    (
        b"\x09\0\0\0\x01\x03\0\0\0\0\0\0\0\
            \x0d\0\0\0\x11\x0a\0\0\0\x07\0\0\0\0\0\0\0\
            \x09\0\0\0\x01\x03\0\0\0\0\0\0\0",
        "[Log(Tick { at: 3 }), Remove { uid: 10, id: 7 }, Log(Tick { at: 3 })]",
    ),
];

#[test]
fn reads_each_kind_of_frame(rt: HostRuntime) {
    for &(bytes, text) in EACH_KIND {
        assert_found(&rt, reads_as(rt.alloc(), bytes, 7, text, "end"), &bytes);
    }
}

// The last time of a session, the bytes of one that goes on from it, its frames by their `Debug`, and its end.
const RESUMED: &[(u64, &[u8], &str, &str)] = &[
    (
        3,
        b"\x09\0\0\0\x01\x02\0\0\0\0\0\0\0",
        "[]",
        "bad session at 0: time backwards: 2 after 3",
    ),
    (
        3,
        b"\x09\0\0\0\x01\x03\0\0\0\0\0\0\0",
        "[Log(Tick { at: 3 })]",
        "end",
    ),
    (
        3,
        b"\x09\0\0\0\x01\x04\0\0\0\0\0\0\0",
        "[Log(Tick { at: 4 })]",
        "end",
    ),
    // A command leaves the time.
    (
        3,
        b"\x0d\0\0\0\x11\x0a\0\0\0\x07\0\0\0\0\0\0\0\
            \x0d\0\0\0\x02\x02\0\0\0\0\0\0\0\x05\0\0\0",
        "[Remove { uid: 10, id: 7 }]",
        "bad session at 17: time backwards: 2 after 3",
    ),
    // A frame moves it.
    (
        3,
        b"\x09\0\0\0\x01\x05\0\0\0\0\0\0\0\
            \x09\0\0\0\x01\x04\0\0\0\0\0\0\0",
        "[Log(Tick { at: 5 })]",
        "bad session at 13: time backwards: 4 after 5",
    ),
    // The last time that there is.
    (
        9_223_372_036_854_775_807,
        b"\x09\0\0\0\x01\xff\xff\xff\xff\xff\xff\xff\x7f",
        "[Log(Tick { at: 9223372036854775807 })]",
        "end",
    ),
];

#[test]
fn goes_on_from_a_time(rt: HostRuntime) {
    for &(clock, bytes, text, end) in RESUMED {
        assert_found(&rt, resumes_as(rt.alloc(), clock, bytes, text, end), &bytes);
    }
}

// A source of the four frames that fails at this call.
fn failing_at(alloc: Global, call: u64) -> Result<MemSource, AllocError> {
    let bytes = LEAST.to_vec(alloc)?;
    let fails = [call].to_vec(alloc)?;
    Ok(MemSource::new(bytes, 40, fails))
}

// What such a source is read as.
fn read_failing(alloc: Global, call: u64) -> Result<Session, AllocError> {
    let mut source = failing_at(alloc, call)?;
    read(alloc, &mut source)
}

// Whether such a source gives so many frames, and then tells its own fault.
fn fails_after(alloc: Global, call: u64, frames: usize) -> Result<bool, AllocError> {
    let session = read_failing(alloc, call)?;
    Ok(session.frames.len() == frames && session.end.as_str() == "the source failed")
}

#[test]
fn gives_the_frames_before_a_read_that_fails(rt: HostRuntime) {
    // A frame takes two reads: its length, and what this counts. The last of nine tells the end.
    for &(call, frames) in &[
        (0, 0),
        (1, 0),
        (2, 1),
        (3, 1),
        (4, 2),
        (5, 2),
        (6, 3),
        (7, 3),
        (8, 4),
    ] {
        assert_found(&rt, fails_after(rt.alloc(), call, frames), &call);
    }
    // The source isn't asked again after its end.
    assert!(rt; fails_after(rt.alloc(), 9, 4) == Ok(false));
}
