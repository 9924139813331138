//! std's readers as sources.
ghost use Rattle.std.specs.Prelude.{◌≡◌};
ghost use Rattle.sd_io.specs.Causes.{IsRead, faults_after};
ghost use Rattle.sd_io.specs.Streams.{stream_input};

use crate::{ReadFailed, Source};
use std::io::Read;
use std::marker::Model;

/// Reads from a reader of std, by one call of its `read` for each call. Every error, an interruption too, is a
/// fault. It holds no bytes.
#[derive(Drop)]
pub struct StdSource<R> {
    inner: R,
    faults: u64,
}

impl<R> Model for StdSource<R> {
    ghost use Rattle.sd_io.specs.Streams.{Counted};

    ghost Value = { Counted R };

    ghost view = { λ s. record { stream = s.inner; faults = s.faults } };
}

impl<R: Read> StdSource<R> {
    /// A source that has counted no fault.
    pub fn new(inner: R) -> StdSource<R>
        ensures { result ≡ record { stream = inner; faults = 0 } }
    {
        StdSource { inner, faults: 0 }
    }
}

impl<R: Read> Source for StdSource<R> {
    ghost state = { λ s. stream_input R.remaining s };

    fn read(&mut self, buf: &mut [u8]) -> Result<usize, ReadFailed>
        ensures counts { self.new.faults ≡ faults_after result self.old.faults }

        // What every source ensures.
        ensures read { IsRead (stream_input R.remaining self.old)
            (stream_input R.remaining self.new) result buf.new }
    {
        match self.inner.read(buf) {
            Ok(count) => Ok(count),
            Err(_) => {
                self.faults = self.faults.saturating_add(1);
                Err(ReadFailed)
            }
        }
    }
}
