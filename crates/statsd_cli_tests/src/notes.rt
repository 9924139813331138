//! Notes by their lines, and each front of a line where the room ends.
use super::wanted::line_of;
use report_print::ReportFault;
use sd_io::MemSink;
use session_frames::SessionFault;
use statsd_cli::{Ending, SaveFault, write_note};
use std::alloc::{AllocError, Global};
use test_tools::{Row, Tester, unsigned};

/// The note of a text, as `bad_session 7 time_backwards 30 29`.
fn note_of(text: &str) -> Option<Ending> {
    match text {
        "done" => Some(Ending::Done),
        "usage" => Some(Ending::Usage),
        "refused" => Some(Ending::Refused),
        "read_fault" => Some(Ending::ReadFault),
        "write_fault" => Some(Ending::WriteFault),
        "no_memory" => Some(Ending::NoMemory),
        "report_too_long" => Some(Ending::ReportRefused(ReportFault::TooLong)),
        "no_report" => Some(Ending::ReportRefused(ReportFault::NotReport)),
        "save_cut" => Some(Ending::SaveRefused(SaveFault::Cut)),
        "not_saved" => Some(Ending::SaveRefused(SaveFault::NotSaved)),
        _ => with_numbers(text),
    }
}

/// The note of a text with numbers.
fn with_numbers(text: &str) -> Option<Ending> {
    match text.split_once(' ')? {
        ("save_too_long", size) => Some(Ending::SaveRefused(SaveFault::TooLong(unsigned(size)?))),
        ("bad_session", numbers) => bad_session(numbers),
        _ => None,
    }
}

fn bad_session(text: &str) -> Option<Ending> {
    let (at, rest) = text.split_once(' ')?;
    let (name, numbers) = rest.split_once(' ').unwrap_or((rest, "0"));
    let (first, second) = numbers.split_once(' ').unwrap_or((numbers, "0"));
    let fault = fault_of(name, unsigned(first)?, unsigned(second)?)?;
    Some(Ending::BadSession {
        at: unsigned(at)?,
        fault,
    })
}

fn fault_of(name: &str, first: u64, second: u64) -> Option<SessionFault> {
    match name {
        "cut" => Some(SessionFault::Cut),
        "too_long" => Some(SessionFault::TooLong(u32::try_from(first).ok()?)),
        "bad_length" => Some(SessionFault::BadLength),
        "unknown_kind" => Some(SessionFault::UnknownKind(u8::try_from(first).ok()?)),
        "bad_body" => Some(SessionFault::BadBody(u8::try_from(first).ok()?)),
        "bad_atom" => Some(SessionFault::BadAtom(u8::try_from(first).ok()?)),
        "time_backwards" => Some(SessionFault::TimeBackwards(first, second)),
        "too_many_frames" => Some(SessionFault::TooManyFrames),
        _ => None,
    }
}

/// Writes the note of a row into each room up to that of its line.
pub fn run_note(alloc: Global, tester: &mut Tester, row: &Row<'_>) -> Result<(), AllocError> {
    let Some(note) = note_of(row.word("write")) else {
        return tester.differs("a note that isn't known", row.word("write"));
    };
    let line = line_of(alloc, row, "line")?;
    for room in 0..=line.len() {
        run_in_room(alloc, tester, &note, line.as_bytes(), room)?;
    }
    Ok(())
}

/// Writes a note into so much room, and compares what it leaves, and what is answered.
fn run_in_room(
    alloc: Global,
    tester: &mut Tester,
    note: &Ending,
    line: &[u8],
    room: usize,
) -> Result<(), AllocError> {
    let mut notes = MemSink::new(alloc, room, Vec::new(alloc))?;
    let is_whole = write_note(note, &mut notes).is_ok();
    tester.case();
    tester.same_bytes("line", line.get(..room).unwrap_or(line), notes.bytes())?;
    tester.holds("what is answered", is_whole == (line.len() <= room))
}
