//! What the errors of sources and sinks say.
use super::super::asserts::assert_found;
use sd_io::{ReadFailed, WriteFailed};
use std::alloc::{AllocError, Global};

/// Whether the errors are printed so, one after the other.
fn are_printed(alloc: Global, text: &str) -> Result<bool, AllocError> {
    let (read, write) = (ReadFailed, WriteFailed);
    let printed = format!(in alloc; "{read}, {write}")?;
    Ok(printed.as_str() == text)
}

#[test]
fn tells_which_side_failed(rt: HostRuntime) {
    let text = "the input cannot be read, the output cannot be written";
    assert_found(&rt, are_printed(rt.alloc(), text), &"both");
}
