//! A sink in memory, with room for so many bytes and calls that fail by a list.
ghost use Rattle.std.specs.Prelude.{◌≡◌, ◌≤◌, ◌-◌, ◌+◌, ◌⊎◌, ◌↔◌, ◌++◌, length, take, vec_len, vec_capacity, IsErr, IsTrue, IfOk};
ghost use Rattle.sd_io.specs.Causes.{IsPut};
ghost use Rattle.sd_io.specs.MemSink.{IsPutToFail, IsTooLong, empty_sink, sink_after, front_that_fits, output_of};

use crate::{Sink, WriteFailed};
use std::alloc::{AllocError, Global};
use std::marker::Model;

/// Keeps what is written, as far as its room goes, and fails at the calls that it is told to fail at.
#[derive(Drop)]
pub struct MemSink {
    bytes: Vec<u8>,
    room: usize,
    fails: Vec<u64>,
    calls: u64,
    faults: u64,
}

impl Model for MemSink {
    ghost use Rattle.std.specs.Prelude.{◌≤◌, vec_len, vec_capacity};
    ghost use Rattle.sd_io.specs.MemSink.{SinkContents};

    ghost Value = { SinkContents };

    ghost view = { λ s. record {
      written = s.bytes.items;
      room = s.room;
      fails = s.fails.items;
      calls = s.calls;
      faults = s.faults;
    } };

    ghost invariant = { λ s. (vec_len s.bytes ≤ s.room) × (s.room ≤ vec_capacity s.bytes) };
}

impl MemSink {
    /// An empty sink, with its room reserved. The calls whose numbers, from 0, stand in `fails` write nothing and fail.
    pub fn new(alloc: Global, room: usize, fails: Vec<u64>) -> Result<MemSink, AllocError>
        ensures { IfOk result (λ sink. sink ≡ empty_sink room fails.items) }
    {
        let bytes = Vec::with_capacity(alloc, room)?;
        Ok(MemSink {
            bytes,
            room,
            fails,
            calls: 0,
            faults: 0,
        })
    }

    /// What was written.
    pub fn bytes(&self) -> &[u8]
        ensures { result.now ≡ self.now.written }
    {
        self.bytes.as_slice()
    }
}

impl Sink for MemSink {
    ghost state = { λ s. output_of s };

    fn put(&mut self, piece: &[u8]) -> Result<(), WriteFailed>
        ensures fails { IsErr result ↔ (IsPutToFail self.old ⊎ IsTooLong self.old piece.now) }
        ensures nothing { IsPutToFail self.old → self.new.written ≡ self.old.written }
        ensures front { ¬ IsPutToFail self.old
            → self.new.written ≡ self.old.written ++ front_that_fits self.old piece.now }
        ensures counts { self.new ≡ sink_after result self.new.written self.old }

        // What every sink ensures.
        ensures put { IsPut (output_of self.old) (output_of self.new) result piece.now }
    {
        let fails = self.fails.contains(&self.calls);
        self.calls = self.calls.saturating_add(1);
        if !fails && append(&mut self.bytes, self.room, piece) {
            return Ok(());
        }
        self.faults = self.faults.saturating_add(1);
        Err(WriteFailed)
    }
}

// Appends as much of the piece as the room holds, and says whether that is all of it.
fn append(bytes: &mut Vec<u8>, room: usize, piece: &[u8]) -> bool
    requires within { vec_len bytes.old ≤ room }
    requires reserved { room ≤ vec_capacity bytes.old }
    ensures whole { IsTrue result ↔ (vec_len bytes.old + length piece.now ≤ room) }
    ensures front { bytes.new.items ≡ bytes.old.items ++ take (room - vec_len bytes.old) piece.now }
    ensures within { vec_len bytes.new ≤ room }
    ensures reserved { room ≤ vec_capacity bytes.new }
{
    let count = piece.len().min(room - bytes.len());
    match bytes.extend_from_slice(&piece[..count]) {
        Ok(()) => count == piece.len(),
        Err(_) => unreachable!(),
    }
}
