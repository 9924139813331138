//! The line that tells what was found.
ghost use Rattle.std.specs.Prelude.{◌≡◌, ◌++◌, IfOk, OnOk, codes, decimal, string_bytes};
ghost use Rattle.std.specs.List.{flat_map};
ghost use Rattle.config_check.specs.FindingLines.{finding_line, path_text};

use crate::{EntityCounts, Finding};
use link_rules::LinkFault;
use proto_wire::WireFault;
use std::alloc::{AllocError, Global};
use std::fmt::Write;

/// The line of a finding, with its newline.
pub fn line_of(alloc: Global, finding: &Finding) -> Result<String, AllocError>
    ensures { IfOk result (λ line. string_bytes line ≡ finding_line finding.now) }
{
    match finding {
        Finding::Sound(counts) => tell_counts(alloc, counts),
        Finding::TooLarge(size) => format!(in alloc; "refused large {size}\n"),
        Finding::Malformed(fault) => tell_wire_fault(alloc, fault),
        Finding::Unsupported(path) => {
            let path = point_path(alloc, path.as_slice())?;
            format!(in alloc; "refused unsupported {path}\n")
        }
        Finding::Unlinked(fault) => tell_link_fault(alloc, fault),
    }
}

/// The line of a configuration without a fault.
fn tell_counts(alloc: Global, counts: &EntityCounts) -> Result<String, AllocError>
    ensures { IfOk result (λ line. string_bytes line ≡ finding_line (Finding.Sound counts.now)) }
{
    let mut line = String::new(alloc);
    push_counted(&mut line, "ok ", counts.matchers as u64)?;
    push_counted(&mut line, " ", counts.predicates as u64)?;
    push_counted(&mut line, " ", counts.states as u64)?;
    push_counted(&mut line, " ", counts.metrics as u64)?;
    line.push_str("\n")?;
    Ok(line)
}

/// The line of a fault of the wire format.
fn tell_wire_fault(alloc: Global, fault: &WireFault) -> Result<String, AllocError>
    ensures { IfOk result (λ line.
        string_bytes line ≡ finding_line (Finding.Malformed fault.now)) }
{
    let mut line = String::new(alloc);
    push_counted(&mut line, "refused wire ", u64::from(fault.cause))?;
    push_counted(&mut line, " ", u64::from(fault.offset))?;
    line.push_str("\n")?;
    Ok(line)
}

/// The line of a fault of references.
fn tell_link_fault(alloc: Global, fault: &LinkFault) -> Result<String, AllocError>
    ensures { IfOk result (λ line.
        string_bytes line ≡ finding_line (Finding.Unlinked fault.now)) }
{
    let mut line = String::new(alloc);
    push_counted(&mut line, "refused link ", u64::from(fault.number))?;
    push_counted(&mut line, " ", u64::from(fault.reason))?;
    let value = fault.value;
    write!(line, " {value}\n")?;
    Ok(line)
}

/// Puts a text and a number after a line.
fn push_counted(line: &mut String, text: &str, number: u64) -> Result<(), AllocError>
    ensures { OnOk result (string_bytes line.new
        ≡ string_bytes line.old ++ (text.now ++ decimal number)) }
{
    line.push_str(text)?;
    write!(line, "{number}")
}

/// The numbers of a path, joined by points.
fn point_path(alloc: Global, numbers: &[u32]) -> Result<String, AllocError>
    ensures { IfOk result (λ text. string_bytes text ≡ path_text numbers.now) }
{
    let [first, others @ ..] = numbers else {
        return Ok(String::new(alloc));
    };
    let mut text = format!(in alloc; "{first}")?;
    push_points(&mut text, others)?;
    Ok(text)
}

/// Puts each number after a text, with a point before it.
fn push_points(text: &mut String, numbers: &[u32]) -> Result<(), AllocError>
    ensures { OnOk result (string_bytes text.new
        ≡ string_bytes text.old ++ flat_map (λ n. codes "." ++ decimal n) numbers.now) }
{
    for number in numbers {
        write!(text, ".{number}")?;
    }
    Ok(())
}
