//! Checks over memory.
use config_check::{CheckError, Finding, check_config};
use sd_io::{MemSink, MemSource};
use std::alloc::{AllocError, Global};
use std::process::Abort;
use std::test::Fail;

/// More bytes than any line has.
pub const AMPLE: usize = 4096;

/// How the streams of a check give, take and fail.
#[derive(Clone, Copy)]
pub struct Streams {
    /// The most bytes that a read gives.
    pub piece: usize,
    /// The number of the read that fails, from 0.
    pub failed_read: Option<u64>,
    /// The bytes that the output takes.
    pub room: usize,
}

/// Streams that never fail.
pub const SOUND: Streams = Streams {
    piece: 1 << 20,
    failed_read: None,
    room: AMPLE,
};

/// What a check leaves.
#[derive(Drop)]
pub struct Outcome {
    pub answer: Result<Finding, CheckError>,
    pub input: MemSource,
    pub out: MemSink,
}

/// Checks a configuration.
pub fn check(alloc: Global, config: Vec<u8>, streams: Streams) -> Result<Outcome, AllocError> {
    let mut fails = Vec::new(alloc);
    if let Some(call) = streams.failed_read {
        fails.push(call)?;
    }
    let mut input = MemSource::new(config, streams.piece.max(1), fails);
    let mut out = MemSink::new(alloc, streams.room, Vec::new(alloc))?;
    let answer = check_config(alloc, &mut input, &mut out);
    Ok(Outcome { answer, input, out })
}

/// Asserts that a check of these bytes writes this line.
pub fn assert_line<R: Abort + AllocGlobal>(
    rt: &R,
    name: &str,
    config: &[u8],
    line: &str,
) -> Result<(), Fail> {
    let outcome = check(rt.alloc(), config.to_vec(rt.alloc())?, SOUND)?;
    assert_told(rt, name, &outcome, line);
    Ok(())
}

/// Asserts that a check has written this line, and that its answer is sound where the line is of a sound configuration.
pub fn assert_told<R: Abort>(rt: &R, name: &str, outcome: &Outcome, line: &str) {
    let sound = matches!(&outcome.answer, Ok(Finding::Sound(_)));
    assert!(rt; sound == line.starts_with("ok "), "answer at {name}");
    assert!(rt; outcome.answer.is_ok(), "an error at {name}");
    assert!(rt; is_line(outcome.out.bytes(), line), "line at {name}");
}

/// Whether these bytes are this line and a newline.
fn is_line(written: &[u8], line: &str) -> bool {
    match written {
        [text @ .., b'\n'] => text == line.as_bytes(),
        _ => false,
    }
}
