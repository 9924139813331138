//! What bytes are read from.
ghost use Rattle.sd_io.specs.States.{Input};
ghost use Rattle.sd_io.specs.Causes.{IsRead, IsHeld, IsSkip};

use std::error::Error;
use std::fmt;

/// A read failed. Nothing was taken, and the source counted a fault.
#[derive(Clone, Copy, Debug, PartialEq, Eq)]
pub struct ReadFailed;

impl fmt::Display for ReadFailed {
    fn fmt<W: fmt::Write>(&self, f: &mut fmt::Formatter<W>) -> fmt::Result {
        write!(f, "the input cannot be read")
    }
}

impl Error for ReadFailed {}

/// An input.
pub trait Source {
    /// What is left of it, where it tells, and its count of faults.
    ghost state: { Self → Input };

    /// Takes bytes into the front of `buf` and says how many. 0 for a `buf` with room means that the input ended.
    fn read(&mut self, buf: &mut [u8]) -> Result<usize, ReadFailed>
        ensures { IsRead (state self.old) (state self.new) result buf.new };

    /// Bytes that come next and are at hand already, so that no call is needed to read them. A source may hold none.
    fn held(&self) -> &[u8]
        ensures { IsHeld (state self.now) result.now }
    {
        &[]
    }

    /// Takes so many of the bytes that it holds, and says whether it took them. If not, nothing is taken.
    fn skip(&mut self, count: usize) -> bool
        ensures { IsSkip (state self.old) (state self.new) result count }
    {
        let _ = count;
        false
    }
}
