//! The session of the word `load`: it is answered frame by frame, and the replies are counted.
ghost use Rattle.std.specs.Prelude.{◌≡◌, ◌+◌, ◌<◌, ◌≤◌, ◌^◌, ◌++◌, length, decimal, IfOk};
ghost use Rattle.arrayvec.specs.ArrayString.{array_string_len};
ghost use Rattle.load_session.specs.Frames.{most_frames};
ghost use Rattle.statsd_cli.specs.Load.{session_of, totals_of, totals_line, totals_with, AreInBounds, MayCountOne, IsLineTold};

use crate::Ending;
use crate::note::{Line, push_counted};
use crate::reply_len::reply_len;
use condition_links::Steps;
use hub_core::Hub;
use load_session::LoadFrames;
use matcher_eval::FieldJudge;
use sd_io::Sink;
use session_frames::Reply;
use std::alloc::{AllocError, Global};
use std::marker::Brand;
use std::sync::ledger::{Blank, Ledger};

/// How many frames were answered, how many replies there were, and how many bytes these have.
#[derive(Clone, Copy)]
pub(crate) struct Totals {
    frames: u64,
    replies: u64,
    bytes: u128,
}

/// Answers the session of a seed and of so many frames of the log, keeps no reply, and tells the totals in one line.
pub(crate) fn load<K: Sink>(alloc: Global, seed: u64, frames: u64, out: &mut K) -> Ending
    requires { frames ≤ most_frames }
    ensures { IsLineTold (totals_line (totals_of (session_of seed frames)))
        (K.state out.old) (K.state out.new) result }
{
    let Ok(totals) = answer::<Brand>(Blank::new(1), alloc, seed, frames) else {
        return Ending::NoMemory;
    };
    match out.put(totals.line().as_bytes()) {
        Ok(()) => Ending::Done,
        Err(_) => Ending::WriteFault,
    }
}

/// Answers the session frame by frame, and counts. The questions of conditions are on a counter of its own.
fn answer<L: Ledger>(
    blank: Blank,
    alloc: Global,
    seed: u64,
    frames: u64,
) -> Result<Totals, AllocError>
    requires name { blank.name ≡ L.name }
    requires parts { blank.parts ≡ L.parts }
    requires some { 0 < blank.parts }
    requires few { frames ≤ most_frames }
    ensures totals { IfOk result (λ totals. totals ≡ totals_of (session_of seed frames)) }
{
    let mut session = LoadFrames::new(seed, frames);
    let mut hub = Hub::new(alloc, FieldJudge::new());
    let mut asks: Steps<L> = Steps::new(blank);
    let mut totals = Totals {
        frames: 0,
        replies: 0,
        bytes: 0,
    };
    'frames: loop {
        let Some(frame) = session.next() else {
            return Ok(totals);
        };
        let frame = frame.frame(alloc)?;
        let reply = hub.serve(frame, &mut asks)?;
        totals = totals.with(reply);
    }
}

impl Totals {
    /// With one more frame, and its reply where it has one.
    fn with(self, reply: Option<Reply>) -> Totals
        requires { MayCountOne self }
        ensures with { result ≡ totals_with self reply }
        ensures bound { AreInBounds result }
    {
        match reply {
            None => Totals {
                frames: self.frames + 1,
                ..self
            },
            Some(reply) => Totals {
                frames: self.frames + 1,
                replies: self.replies + 1,
                bytes: self.bytes + u128::from(reply_len(&reply)),
            },
        }
    }

    /// The line that tells them.
    fn line(&self) -> Line
        ensures { result.bytes ≡ totals_line self.now }
    {
        let mut line = Line::new();
        push_counted(&mut line, "frames ", self.frames);
        push_counted(&mut line, " replies ", self.replies);
        line.push_str(" bytes ");
        let mut digits = itoa::Buffer::new();
        line.push_str(digits.format(self.bytes));
        line.push_str("\n");
        line
    }
}
