//! std's writers as sinks.
ghost use Rattle.std.specs.Prelude.{◌≡◌};
ghost use Rattle.sd_io.specs.Causes.{IsPut, faults_after};
ghost use Rattle.sd_io.specs.Streams.{stream_output};

use crate::{Sink, WriteFailed};
use std::io::Write;
use std::marker::Model;

/// Writes to a writer of std, by calls of its `write` until the piece is written. Every error, an interruption too,
/// is a fault, and so is a call that takes nothing.
#[derive(Drop)]
pub struct StdSink<W> {
    inner: W,
    faults: u64,
}

impl<W> Model for StdSink<W> {
    ghost use Rattle.sd_io.specs.Streams.{Counted};

    ghost Value = { Counted W };

    ghost view = { λ s. record { stream = s.inner; faults = s.faults } };
}

impl<W: Write> StdSink<W> {
    /// A sink that has counted no fault.
    pub fn new(inner: W) -> StdSink<W>
        ensures { result ≡ record { stream = inner; faults = 0 } }
    {
        StdSink { inner, faults: 0 }
    }
}

impl<W: Write> Sink for StdSink<W> {
    ghost state = { λ s. stream_output W.contents s };

    fn put(&mut self, piece: &[u8]) -> Result<(), WriteFailed>
        ensures counts { self.new.faults ≡ faults_after result self.old.faults }

        // What every sink ensures.
        ensures put { IsPut (stream_output W.contents self.old)
            (stream_output W.contents self.new) result piece.now }
    {
        let mut rest = piece;
        while !rest.is_empty() {
            match self.inner.write(rest) {
                Ok(count) if count > 0 => rest = &rest[count..],
                _ => {
                    self.faults = self.faults.saturating_add(1);
                    return Err(WriteFailed);
                }
            }
        }
        Ok(())
    }
}
