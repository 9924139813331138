//! What bytes are written to.
ghost use Rattle.sd_io.specs.States.{Output};
ghost use Rattle.sd_io.specs.Causes.{IsPut};

use std::error::Error;
use std::fmt;

/// A write failed. Some front of the piece was written, and the sink counted a fault.
#[derive(Clone, Copy, Debug, PartialEq, Eq)]
pub struct WriteFailed;

impl fmt::Display for WriteFailed {
    fn fmt<W: fmt::Write>(&self, f: &mut fmt::Formatter<W>) -> fmt::Result {
        write!(f, "the output cannot be written")
    }
}

impl Error for WriteFailed {}

/// An output.
pub trait Sink {
    /// What was written to it, where it tells, and its count of faults.
    ghost state: { Self → Output };

    /// Writes the whole piece, or fails with some front of it written. It takes no memory.
    fn put(&mut self, piece: &[u8]) -> Result<(), WriteFailed>
        ensures { IsPut (state self.old) (state self.new) result piece.now };
}
