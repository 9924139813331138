//! Why bytes are no message.
ghost use Rattle.std.specs.Prelude.{◌≡◌};
ghost use Rattle.proto_wire.specs.WireReading.{fault_at};

use std::error::Error;
use std::fmt;

/// A varint whose tenth byte has its high bit set, whether or not a byte follows.
pub const LONG_VARINT: u8 = 1;
/// The bytes end inside a record, or before a group's end.
pub const CUT: u8 = 2;
/// Wire type 6 or 7.
pub const UNKNOWN_WIRE_TYPE: u8 = 3;
/// Field number 0.
pub const ZERO_NUMBER: u8 = 4;
/// A group's end without its start, or with another number.
pub const STRAY_GROUP_END: u8 = 5;
/// A message or a group of depth 101.
pub const TOO_DEEP: u8 = 6;
/// A tag above 2^32 - 1.
pub const LONG_TAG: u8 = 7;

/// The first fault of the bytes.
#[derive(Clone, Copy, Debug, PartialEq, Eq)]
pub struct WireFault {
    /// Where the record at fault begins, counted from the start of the whole configuration.
    pub offset: u32,
    /// One of the seven causes.
    pub cause: u8,
}

impl fmt::Display for WireFault {
    fn fmt<W: fmt::Write>(&self, f: &mut fmt::Formatter<W>) -> fmt::Result {
        write!(
            f,
            "the record at byte {} can't be read, by cause {}",
            self.offset, self.cause
        )
    }
}

impl Error for WireFault {}

// The record that begins at `at` has this fault.
pub(crate) fn fault(at: u32, cause: u8) -> WireFault
    ensures { result ≡ fault_at at cause }
{
    WireFault { offset: at, cause }
}
