//! What is told beside the output: one line where a command ends with a status other than 0.
ghost use Rattle.std.specs.Prelude.{◌≡◌, ◌+◌, ◌≤◌, ◌++◌, length, decimal};
ghost use Rattle.arrayvec.specs.ArrayString.{array_string_len};
ghost use Rattle.sd_io.specs.Causes.{IsPut};
ghost use Rattle.statsd_cli.specs.Endings.{IsNoted};
ghost use Rattle.statsd_cli.specs.Note.{fault_text, note_line};

use crate::{Ending, SaveFault};
use arrayvec::ArrayString;
use report_print::ReportFault;
use sd_io::{Sink, WriteFailed};
use session_frames::SessionFault;

pub(crate) type Line = ArrayString<128>;

/// Tells how a command ended. A note that fails changes nothing.
pub(crate) fn tell<E: Sink>(ending: &Ending, notes: &mut E)
    ensures { IsNoted (E.state notes.old) (E.state notes.new) ending.now }
{
    let _ = write_note(ending, notes);
}

/// Writes what is told of an ending, by one put, or none where nothing is told. It takes no memory.
pub fn write_note<E: Sink>(ending: &Ending, notes: &mut E) -> Result<(), WriteFailed>
    ensures { IsPut (E.state notes.old) (E.state notes.new) result (note_line ending.now) }
{
    match ending {
        Ending::Done => Ok(()),
        _ => notes.put(ending.line().as_bytes()),
    }
}

impl Ending {
    /// The line that tells why, which is empty where the command is done.
    fn line(&self) -> Line
        ensures { result.bytes ≡ note_line self.now }
    {
        match self {
            Ending::Done => Line::new(),
            Ending::Refused => line("statsd: configuration refused\n"),
            Ending::Usage => {
                line("statsd: usage: replay | check | load SEED FRAMES | show | save | resume\n")
            }
            Ending::BadSession { at, fault } => bad_session(*at, fault),
            Ending::ReadFault => line("statsd: read fault\n"),
            Ending::WriteFault => line("statsd: write fault\n"),
            Ending::NoMemory => line("statsd: out of memory\n"),
            Ending::ReportRefused(ReportFault::TooLong) => {
                line("statsd: report refused: too long\n")
            }
            Ending::ReportRefused(ReportFault::NotReport) => {
                line("statsd: report refused: not a report\n")
            }
            Ending::SaveRefused(fault) => save_refused(fault),
        }
    }
}

fn line(text: &str) -> Line
    requires { length text.now ≤ 128 }
    ensures { result.bytes ≡ text.now }
{
    let mut line = Line::new();
    line.push_str(text);
    line
}

fn bad_session(at: u64, fault: &SessionFault) -> Line
    ensures { result.bytes ≡ note_line (Ending.BadSession at fault.now) }
{
    let mut line = Line::new();
    push_counted(&mut line, "statsd: bad session at ", at);
    line.push_str(": ");
    push_fault(&mut line, fault);
    line.push_str("\n");
    line
}

fn save_refused(fault: &SaveFault) -> Line
    ensures { result.bytes ≡ note_line (Ending.SaveRefused fault.now) }
{
    let mut line = Line::new();
    line.push_str("statsd: save refused: ");
    match fault {
        SaveFault::Cut => line.push_str("cut"),
        SaveFault::TooLong(size) => push_counted(&mut line, "too long ", *size),
        SaveFault::NotSaved => line.push_str("not saved"),
    }
    line.push_str("\n");
    line
}

fn push_fault(line: &mut Line, fault: &SessionFault)
    requires { array_string_len line.old ≤ 64 }
    ensures text { line.new.bytes ≡ line.old.bytes ++ fault_text fault.now }
    ensures len { array_string_len line.new ≤ array_string_len line.old + 60 }
{
    match fault {
        SessionFault::Cut => line.push_str("1 cut"),
        SessionFault::TooLong(length) => push_counted(line, "2 too long ", u64::from(*length)),
        SessionFault::BadLength => line.push_str("3 bad length"),
        SessionFault::UnknownKind(kind) => {
            push_counted(line, "4 unknown kind ", u64::from(*kind));
        }
        SessionFault::BadBody(reason) => push_counted(line, "5 bad body ", u64::from(*reason)),
        SessionFault::BadAtom(reason) => push_counted(line, "6 bad atom ", u64::from(*reason)),
        SessionFault::TimeBackwards(previous, now) => {
            push_counted(line, "7 time backwards ", *previous);
            push_counted(line, " ", *now);
        }
        SessionFault::TooManyFrames => line.push_str("8 too many frames"),
    }
}

// Appends a text and a number.
pub(crate) fn push_counted(line: &mut Line, text: &str, number: u64)
    requires { array_string_len line.old + length text.now + 20 ≤ 128 }
    ensures text { line.new.bytes ≡ line.old.bytes ++ (text.now ++ decimal number) }
    ensures len { array_string_len line.new ≤ array_string_len line.old + length text.now + 20 }
{
    line.push_str(text);
    let mut digits = itoa::Buffer::new();
    line.push_str(digits.format(number));
}
