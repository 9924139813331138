//! The check of a configuration, from its input to the line on its output.
ghost use Rattle.sd_io.specs.States.{ports};
ghost use Rattle.config_check.specs.Checks.{Checks};

use crate::judging::judge;
use crate::line::line_of;
use crate::{CheckError, Finding};
use sd_io::{Sink, Source, read_at_most};
use std::alloc::Global;

/// How many bytes are taken at most: one more than a configuration may have.
const MOST_TAKEN: usize = 262_145;

/// Reads one configuration, judges it, and writes one line on what was found. The configuration is the input to its
/// end, or, where that has more bytes than a configuration may have, its first 262,145 bytes. The line is put at once,
/// after all that may want memory; so an error before it leaves the output as it was.
pub fn check_config<S: Source, K: Sink>(
    alloc: Global,
    input: &mut S,
    out: &mut K,
) -> Result<Finding, CheckError>
    ensures { Checks (ports (S.state input.old) (K.state out.old))
        (ports (S.state input.new) (K.state out.new)) result }
{
    let bytes = read_at_most(alloc, input, MOST_TAKEN)?;
    let finding = judge(alloc, &bytes)?;
    let line = line_of(alloc, &finding)?;
    out.put(line.as_bytes())?;
    Ok(finding)
}
