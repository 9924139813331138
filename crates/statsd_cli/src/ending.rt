//! How a command ended, and the program's status.
ghost use Rattle.std.specs.Prelude.{◌≡◌};
ghost use Rattle.statsd_cli.specs.Endings.{status_of};

use report_print::ReportFault;
use session_frames::SessionFault;

/// How a command ended.
#[derive(Clone, Copy)]
pub enum Ending {
    /// The session was answered or saved to its end, the configuration has no fault, or the report was printed.
    Done,
    /// The configuration is refused.
    Refused,
    /// The words are those of no command.
    Usage,
    /// The session has this fault, at a frame whose first byte has this offset.
    BadSession { at: u64, fault: SessionFault },
    /// The input failed.
    ReadFault,
    /// The output failed.
    WriteFault,
    /// Memory was wanting.
    NoMemory,
    /// The bytes are no report, for this reason.
    ReportRefused(ReportFault),
    /// The session isn't saved, or the bytes are no saved form, for this reason.
    SaveRefused(SaveFault),
}

/// Why a session isn't saved, or none is resumed.
#[derive(Clone, Copy)]
pub enum SaveFault {
    /// The input ended before the saved form was whole.
    Cut,
    /// The saved form has so many bytes, which are too many.
    TooLong(u64),
    /// The bytes are the saved form of no hub.
    NotSaved,
}

/// The session was answered or saved to its end, the configuration has no fault, or the report was printed.
pub const STATUS_DONE: u8 = 0;

/// The configuration is refused.
pub const STATUS_REFUSED: u8 = 1;

/// The words are those of no command.
pub const STATUS_USAGE: u8 = 2;

/// The session has a fault.
pub const STATUS_BAD_SESSION: u8 = 3;

/// The input failed.
pub const STATUS_READ_FAULT: u8 = 4;

/// The output failed.
pub const STATUS_WRITE_FAULT: u8 = 5;

/// Memory was wanting.
pub const STATUS_NO_MEMORY: u8 = 6;

/// The bytes are no report.
pub const STATUS_REPORT_REFUSED: u8 = 7;

/// The session isn't saved, or the bytes are no saved form.
pub const STATUS_SAVE_REFUSED: u8 = 8;

impl Ending {
    /// The program's status.
    pub fn status(&self) -> u8
        ensures { result ≡ status_of self.now }
    {
        match self {
            Ending::Done => STATUS_DONE,
            Ending::Refused => STATUS_REFUSED,
            Ending::Usage => STATUS_USAGE,
            Ending::BadSession { .. } => STATUS_BAD_SESSION,
            Ending::ReadFault => STATUS_READ_FAULT,
            Ending::WriteFault => STATUS_WRITE_FAULT,
            Ending::NoMemory => STATUS_NO_MEMORY,
            Ending::ReportRefused(_) => STATUS_REPORT_REFUSED,
            Ending::SaveRefused(_) => STATUS_SAVE_REFUSED,
        }
    }
}
