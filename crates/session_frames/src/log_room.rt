//! Frames of the log that are read into the place and the room of others.
ghost use Rattle.std.specs.Prelude.{◌≡◌, true, Ok, IfSome};
ghost use Rattle.session_frames.specs.declared.frame.Frame.TheVariants.{Log};
ghost use Rattle.session_frames.specs.Faultless.{IsFaultless, IsInTime, IsFaultlessLog};
ghost use Rattle.session_frames.specs.FrameReading as frames;
ghost use Rattle.session_frames.specs.LogRooms.{frame_in};

use crate::body::{read_time, time_of};
use crate::frame::{ATOM, TICK};
use atom_record::{Atom, LogFrame, parse_atom_into};
use sd_base::Seq;
use std::alloc::Global;

/// The last tick and the last atom of a log. Those that come next take their place, and an atom takes the room of its
/// entries.
#[derive(Drop)]
pub struct LogRoom {
    pub tick: LogFrame,
    pub atom: LogFrame,
}

/// Which frame of a room was read.
#[derive(Clone, Copy)]
pub enum LogKind {
    Tick,
    Atom,
}

impl LogRoom {
    /// A room in which nothing was read. It takes no memory yet.
    pub fn new(alloc: Global) -> LogRoom {
        LogRoom {
            tick: LogFrame::Tick { at: 0 },
            atom: LogFrame::AtomAt {
                at: 0,
                atom: Atom {
                    id: 0,
                    fields: Seq::new(alloc),
                },
            },
        }
    }

    /// The time of the frame of this kind, in nanoseconds.
    pub(crate) fn time(&self, kind: LogKind) -> u64
        ensures { result ≡ frames.log_time (frame_in kind self.now) }
    {
        match kind {
            LogKind::Tick => time_of(&self.tick),
            LogKind::Atom => time_of(&self.atom),
        }
    }

    /// Reads the frame that is this content, where it is a tick or an atom, has no fault and comes no earlier than the
    /// clock stands. It says nothing of other contents.
    #[inline(always)]
    pub(crate) fn read(&mut self, alloc: Global, clock: u64, content: &[u8]) -> Option<LogKind>
        ensures exact { IfSome result (λ kind.
            frames.frame_of clock content.now ≡ Ok (Log (frame_in kind self.new))) }
        ensures sound { IfSome result (λ kind. IsFaultless (Log (frame_in kind self.new))
            × IsInTime clock (Log (frame_in kind self.new))) }
    {
        match content {
            [TICK, body @ ..] => {
                if tick_into(&mut self.tick, body) && clock <= time_of(&self.tick) {
                    Some(LogKind::Tick)
                } else {
                    None
                }
            }
            [ATOM, body @ ..] => {
                if atom_into(alloc, &mut self.atom, body) && clock <= time_of(&self.atom) {
                    Some(LogKind::Atom)
                } else {
                    None
                }
            }
            _ => None,
        }
    }
}

// Reads a tick from its body. Whether it has no fault.
#[inline(always)]
#[tactic(auto, unfolding(crate::specs::FrameReading::tick_body))]
fn tick_into(tick: &mut LogFrame, body: &[u8]) -> bool
    ensures exact { result ≡ true → frames.tick_body body.now ≡ Ok (Log tick.new) }
    ensures sound { result ≡ true → IsFaultlessLog tick.new }
{
    match read_time(body) {
        Ok((at, rest)) if rest.is_empty() => {
            *tick = LogFrame::Tick { at };
            true
        }
        _ => false,
    }
}

// Reads an atom from its body. Whether it has no fault.
#[inline(always)]
#[tactic(auto, unfolding(crate::specs::FrameReading::atom_body))]
fn atom_into(alloc: Global, frame: &mut LogFrame, body: &[u8]) -> bool
    ensures exact { result ≡ true → frames.atom_body body.now ≡ Ok (Log frame.new) }
    ensures sound { result ≡ true → IsFaultlessLog frame.new }
{
    let LogFrame::AtomAt { at, atom } = frame else {
        return false;
    };
    let Ok((time, rest)) = read_time(body) else {
        return false;
    };
    *at = time;
    parse_atom_into(alloc, atom, rest).is_ok()
}
