//! The answers to commands.
use atom_record::Bytes;
use sd_base::Path;

/// The answer to one command, with the command's uid and configuration id.
#[derive(Drop)]
pub struct Reply {
    pub uid: i32,
    pub id: i64,
    pub body: ReplyBody,
}

/// What a command is answered.
#[derive(Drop)]
pub enum ReplyBody {
    /// The configuration is live.
    Installed,
    /// The configuration is live in place of the one that had its id: the last report of that one.
    Replaced(Bytes),
    /// The configuration was refused, and nothing has changed.
    Refused(Refusal),
    /// The configuration was taken out: its last report.
    Removed(Bytes),
    /// The client has no configuration of that id.
    NoConfig,
    /// A report, as the bytes of its message.
    ReportBytes(Bytes),
    /// The client has as many configurations as it may have: this number.
    ClientFull(u32),
}

// The kinds of answers, by their numbers. None has the numbers 2 and 4: they were those of a replaced and of a removed
// configuration whose answer had no body.
pub(crate) const INSTALLED: u8 = 1;

pub(crate) const REFUSED: u8 = 3;

pub(crate) const NO_CONFIG: u8 = 5;

pub(crate) const REPORT_BYTES: u8 = 6;

pub(crate) const CLIENT_FULL: u8 = 7;

pub(crate) const REPLACED: u8 = 8;

pub(crate) const REMOVED: u8 = 9;

/// Why a configuration was refused.
#[derive(Drop)]
pub enum Refusal {
    /// It has this many bytes, which is above the limit.
    TooLarge(u32),
    /// It isn't well-formed as a message: the cause's number, and where.
    Wire { cause: u8, offset: u32 },
    /// It uses what isn't supported: the field numbers from the top to it.
    Unsupported(Path),
    /// Its parts don't fit together: the fault's number, its reason, and the value at fault.
    Link { number: u8, reason: u8, value: i64 },
}

// The classes of refusals, by their numbers.
pub(crate) const TOO_LARGE: u8 = 1;

pub(crate) const WIRE: u8 = 2;

pub(crate) const UNSUPPORTED: u8 = 3;

pub(crate) const LINK: u8 = 4;
