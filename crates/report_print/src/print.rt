//! The print of a report, from its input to the line on its output.
ghost use Rattle.std.specs.Prelude.{◌≡◌, ◌++◌, IfOk, codes};
ghost use Rattle.serde_json.specs.Written.{compact_text};
ghost use Rattle.sd_io.specs.States.{ports};
ghost use Rattle.report_json.specs.ReportJson.{report_json};
ghost use Rattle.report_print.specs.Prints.{Prints, report_line};

use crate::PrintError;
use report_json::json_text;
use report_show::read_tree;
use report_writer::ReportTree;
use sd_io::{Sink, Source, read_at_most};
use std::alloc::{AllocError, Global};

/// How many bytes are taken at most: one more than a report may have.
const MOST_TAKEN: usize = 16_777_217;

/// Reads one report, and writes it as one line of JSON. The report is the input to its end; where that has more bytes
/// than a report may have, one more than these is taken, and it is refused. The line is put at once, after all that may
/// want memory; so an error before it leaves the output as it was.
pub fn print_report<S: Source, K: Sink>(
    alloc: Global,
    input: &mut S,
    out: &mut K,
) -> Result<(), PrintError>
    ensures { Prints (ports (S.state input.old) (K.state out.old))
        (ports (S.state input.new) (K.state out.new)) result }
{
    let bytes = read_at_most(alloc, input, MOST_TAKEN)?;
    let tree = read_tree(alloc, &bytes)?;
    let line = line_of(alloc, &tree)?;
    out.put(&line)?;
    Ok(())
}

/// The line of a report, with its newline.
fn line_of(alloc: Global, tree: &ReportTree) -> Result<Vec<u8>, AllocError>
    ensures { IfOk result (λ line. line.items ≡ report_line tree.entry.now) }
{
    let mut line = json_text(alloc, tree)?;
    line.extend_from_slice(b"\n")?;
    Ok(line)
}
