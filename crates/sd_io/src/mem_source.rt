//! A source over bytes in memory, with calls that fail by a list.
ghost use Rattle.std.specs.Prelude.{◌≡◌, ◌≤◌, ◌↔◌, ◌++◌, min, length, take, drop, IsErr, IfOk, OnErr};
ghost use Rattle.sd_io.specs.Causes.{IsRead, count_up};
ghost use Rattle.sd_io.specs.MemSource.{IsReadToFail, GivesPiece, source_after, input_of};

use crate::{ReadFailed, Source};
use std::marker::Model;

/// Gives the bytes of a list in pieces, and fails at the calls that it is told to fail at.
#[derive(Drop)]
pub struct MemSource {
    bytes: Vec<u8>,
    at: usize,
    piece: usize,
    fails: Vec<u64>,
    calls: u64,
    faults: u64,
}

impl Model for MemSource {
    ghost use Rattle.std.specs.Prelude.{◌≤◌, drop, vec_len};
    ghost use Rattle.sd_io.specs.MemSource.{SourceContents};

    ghost Value = { SourceContents };

    ghost view = { λ s. record {
      left = drop s.at s.bytes.items;
      piece = s.piece;
      fails = s.fails.items;
      calls = s.calls;
      faults = s.faults;
    } };

    ghost invariant = { λ s. (s.at ≤ vec_len s.bytes) × (1 ≤ s.piece) };
}

impl MemSource {
    /// A source of these bytes. A call gives at most `piece` of them, and the calls whose numbers, from 0,
    /// stand in `fails` fail.
    pub fn new(bytes: Vec<u8>, piece: usize, fails: Vec<u64>) -> MemSource
        requires { 1 ≤ piece }
        ensures { result ≡ record {
          left = bytes.items;
          piece = piece;
          fails = fails.items;
          calls = 0;
          faults = 0;
        } }
    {
        MemSource {
            bytes,
            at: 0,
            piece,
            fails,
            calls: 0,
            faults: 0,
        }
    }

    // Counts a call that fails.
    fn count_fault(&mut self)
        ensures { self.new ≡ record self.old { faults = count_up self.old.faults } }
    {
        self.faults = self.faults.saturating_add(1);
    }
}

impl Source for MemSource {
    ghost state = { λ s. input_of s };

    fn read(&mut self, buf: &mut [u8]) -> Result<usize, ReadFailed>
        ensures fails { IsErr result ↔ IsReadToFail self.old }
        ensures gives { IfOk result (λ count.
            GivesPiece self.old buf.old count self.new.left buf.new) }
        ensures err { OnErr result ((self.new.left ≡ self.old.left) × (buf.new ≡ buf.old)) }
        ensures counts { self.new ≡ source_after result self.new.left self.old }

        // What every source ensures.
        ensures read { IsRead (input_of self.old) (input_of self.new) result buf.new }
    {
        let fails = self.fails.contains(&self.calls);
        self.calls = self.calls.saturating_add(1);
        if fails {
            self.count_fault();
            return Err(ReadFailed);
        }
        let count = give(&self.bytes[self.at..], self.piece, buf);
        self.at += count;
        Ok(count)
    }
}

// Copies bytes to the front of the buffer, as many as the piece allows, and says how many.
fn give(left: &[u8], piece: usize, buf: &mut [u8]) -> usize
    ensures most { result ≡ min piece (min (length buf.old) (length left.now)) }
    ensures given { buf.new ≡ take result left.now ++ drop result buf.old }
{
    let count = piece.min(buf.len().min(left.len()));
    buf[..count].copy_from_slice(&left[..count]);
    count
}
