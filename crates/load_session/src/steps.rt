//! The steps of the session, one after another.
ghost use Rattle.std.specs.Prelude.{◌≡◌, ◌<◌};
ghost use Rattle.load_session.specs.Frames.{logged};
ghost use Rattle.load_session.specs.Steps.{AreUnderWay, IsNextStep, logged_after, no_step_yet};

use crate::LoadFrame;
use crate::numbers::{drawn, next_number, pause};

/// Where the steps stand: the number and the time of the last one that is done, and how many there are to be.
#[derive(Clone, Copy)]
pub(crate) struct Steps {
    pub(crate) seed: u64,
    pub(crate) number: u64,
    pub(crate) time: u64,
    pub(crate) done: u64,
    pub(crate) frames: u64,
}

impl Steps {
    /// Before the first step.
    pub(crate) fn new(seed: u64, frames: u64) -> Steps
        ensures { result ≡ no_step_yet seed frames }
    {
        Steps {
            seed,
            number: seed,
            time: 0,
            done: 0,
            frames,
        }
    }

    /// One step, and what is logged at it.
    pub(crate) fn advance(self) -> (Steps, LoadFrame)
        requires under_way { AreUnderWay self }
        requires more { self.done < self.frames }
        ensures next { IsNextStep self result.0 }
        ensures logged { result.1 ≡ logged_after self }
    {
        let number = next_number(self.number);
        let draw = drawn(number);
        let time = self.time + pause(draw);
        let steps = Steps {
            number,
            time,
            done: self.done + 1,
            ..self
        };
        (steps, logged(draw, time))
    }
}

// What is logged at a draw and a time.
fn logged(draw: u64, at: u64) -> LoadFrame
    ensures { result ≡ logged draw at }
{
    if draw % 4 == 0 {
        return LoadFrame::Tick { at };
    }
    let value = (draw / 1000 % 50) as i32;
    LoadFrame::Int5 { at, value }
}
