//! std's readers as sources that read ahead.
ghost use Rattle.std.specs.Prelude.{◌≡◌, ◌≤◌, ◌↔◌, length, drop, IsTrue, MatchBool};
ghost use Rattle.std.specs.Io.Buffered.{reader_remaining};
ghost use Rattle.sd_io.specs.States.{input_with};
ghost use Rattle.sd_io.specs.Causes.{IsRead, IsHeld, IsSkip, faults_after};
ghost use Rattle.sd_io.specs.Buffered.{at_hand, buffered_state};

use crate::{ReadFailed, Source};
use std::io::{BufRead, BufReader, Read};

/// Reads from a reader of std, and holds what that has read ahead. Every error, an interruption too, is a fault.
#[derive(Drop)]
pub struct BufferedSource<R> {
    inner: BufReader<R>,
    faults: u64,
}

impl<R: Read> BufferedSource<R> {
    /// A source that has counted no fault.
    pub fn new(inner: BufReader<R>) -> BufferedSource<R>
        ensures { buffered_state R.remaining result ≡ input_with (reader_remaining R.remaining inner) 0 }
    {
        BufferedSource { inner, faults: 0 }
    }
}

impl<R: Read> Source for BufferedSource<R> {
    ghost state = { buffered_state R.remaining };

    fn read(&mut self, buf: &mut [u8]) -> Result<usize, ReadFailed>
        ensures counts { self.new.faults ≡ faults_after result self.old.faults }

        // What every source ensures.
        ensures read { IsRead (buffered_state R.remaining self.old) (buffered_state R.remaining self.new) result
            buf.new }
    {
        match self.inner.read(buf) {
            Ok(count) => Ok(count),
            Err(_) => {
                self.faults = self.faults.saturating_add(1);
                Err(ReadFailed)
            }
        }
    }

    fn held(&self) -> &[u8]
        ensures all { result.now ≡ at_hand self.now }

        // What every source ensures.
        ensures held { IsHeld (buffered_state R.remaining self.now) result.now }
    {
        self.inner.buffer()
    }

    fn skip(&mut self, count: usize) -> bool
        ensures whole { IsTrue result ↔ (count ≤ length (at_hand self.old)) }
        ensures rest { MatchBool result (at_hand self.new ≡ drop count (at_hand self.old)) (self.new ≡ self.old) }

        // What every source ensures.
        ensures skip { IsSkip (buffered_state R.remaining self.old) (buffered_state R.remaining self.new) result
            count }
    {
        if self.inner.buffer().len() < count {
            return false;
        }
        self.inner.consume(count);
        true
    }
}
