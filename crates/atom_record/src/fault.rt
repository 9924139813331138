//! Why bytes are no payload of an atom.
ghost use Rattle.std.specs.Prelude.{◌≡◌};

use std::alloc::{AllocError, AllocFailed};
use thiserror::Error;

/// The payload is longer than [`crate::MAX_BYTES`].
pub const TOO_LONG: u8 = 1;

/// There are no four bytes of an id, or it isn't from 1 to 2^31 - 1.
pub const BAD_ID: u8 = 2;

/// The payload ends inside an entry.
pub const CUT: u8 = 3;

/// A field isn't from 1 to 127, or an index or a sub is above 127.
pub const BAD_PLACE: u8 = 4;

/// An entry doesn't stand above the one before it.
pub const NOT_ABOVE: u8 = 5;

/// A type isn't from 1 to 6, or the byte of a Bool is above 1.
pub const BAD_TYPE: u8 = 6;

/// Flags that are unknown, or that this entry may not have.
pub const BAD_FLAGS: u8 = 7;

/// An atom of a recorded pull has another id than the pull.
pub const OTHER_ID: u8 = 8;

/// Why there is no atom.
#[derive(Debug, Drop, PartialEq, Eq, Error)]
pub enum AtomFault {
    /// The bytes are no payload, for this reason.
    #[error("bad atom {0}")]
    Bad(u8),
    /// Memory was wanting, and nothing is said of the bytes.
    #[error("out of memory")]
    Memory,
}

impl From<AllocError> for AtomFault {
    ghost use Rattle.atom_record.specs.declared.fault.AtomFault.TheVariants.{Memory};

    ghost from_gives = { λ _ e. e ≡ Memory };

    fn from(_e: AllocError) -> AtomFault {
        AtomFault::Memory
    }
}

impl<T: Drop> From<AllocFailed<T>> for AtomFault {
    ghost use Rattle.atom_record.specs.declared.fault.AtomFault.TheVariants.{Memory};

    ghost from_gives = { λ _ e. e ≡ Memory };

    fn from(_e: AllocFailed<T>) -> AtomFault {
        AtomFault::Memory
    }
}
