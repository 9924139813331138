//! The session, frame by frame.
ghost use Rattle.std.specs.Prelude.{◌≡◌, ◌<◌, ◌≤◌, ◌^◌, [], ◌∷◌, ◌++◌, length, IfSome, MatchOption, slice_get};
ghost use Rattle.load_session.specs.declared.steps.Steps.{Steps};
ghost use Rattle.load_session.specs.Frames.{load_frames, most_frames, reports_after};
ghost use Rattle.load_session.specs.Steps.{AreUnderWay, later, left_at};
ghost use Rattle.load_session.specs.Good.{AreGood};

use crate::LoadFrame;
use crate::steps::Steps;
use std::marker::Model;

/// The most steps of a session.
pub const MOST_FRAMES: u64 = 4_000_000_000;

// The clients.
const FIRST_UID: i32 = 10;

const SECOND_UID: i32 = 20;

// What comes next.
#[derive(Clone, Copy)]
enum Turn {
    FirstInstall,
    SecondInstall,
    Step,
    FirstReport,
    SecondReport,
    LastReport,
    Over,
}

/// What is left of a session. It goes from one frame to the next, and keeps none.
#[derive(Drop)]
pub struct LoadFrames {
    steps: Steps,
    turn: Turn,
}

impl Model for LoadFrames {
    ghost use Rattle.std.specs.Prelude.{List};
    ghost use Rattle.load_session.specs.declared.frame.LoadFrame.{LoadFrame};
    ghost use Rattle.load_session.specs.Steps.{AreUnderWay, left_at};

    ghost Value = { List LoadFrame };

    ghost view = { λ s. left_at s.turn s.steps };

    ghost invariant = { λ s. AreUnderWay s.steps };
}

impl LoadFrames {
    /// The whole session of a seed and of so many steps. Its frames have no fault, and their times don't fall.
    pub fn new(seed: u64, frames: u64) -> LoadFrames
        requires { frames ≤ most_frames }
        ensures whole { result ≡ load_frames seed frames }
        ensures good { AreGood 0 result }
        ensures few { length result < 2 ^ 34 }
    {
        LoadFrames {
            steps: Steps::new(seed, frames),
            turn: Turn::FirstInstall,
        }
    }

    /// The next frame, or `None` where no more are left.
    pub fn next(&mut self) -> Option<LoadFrame>
        ensures { MatchOption result ((self.old ≡ []) × (self.new ≡ []))
            (λ frame. self.old ≡ frame ∷ self.new) }
    {
        let (steps, turn, frame) = after(self.steps, self.turn)?;
        self.steps = steps;
        self.turn = turn;
        Some(frame)
    }
}

// The frame at a turn, with what comes after it.
fn after(steps: Steps, turn: Turn) -> Option<(Steps, Turn, LoadFrame)>
    requires { AreUnderWay steps }
    ensures next { MatchOption result (left_at turn steps ≡ [])
        (λ r. left_at turn steps ≡ r.2 ∷ left_at r.1 r.0) }
    ensures under_way { IfSome result (λ r. AreUnderWay r.0) }
{
    match turn {
        Turn::FirstInstall => Some((steps, Turn::SecondInstall, install(FIRST_UID))),
        Turn::SecondInstall => Some((steps, Turn::Step, install(SECOND_UID))),
        Turn::Step => Some(step(steps)),
        Turn::FirstReport => Some((steps, Turn::SecondReport, report(FIRST_UID, false))),
        Turn::SecondReport => Some((steps, Turn::Step, report(SECOND_UID, false))),
        Turn::LastReport => Some((steps, Turn::Over, report(SECOND_UID, true))),
        Turn::Over => None,
    }
}

// One step, or where all are done the first report at the end.
fn step(steps: Steps) -> (Steps, Turn, LoadFrame)
    requires { AreUnderWay steps }
    ensures next { later steps ≡ result.2 ∷ left_at result.1 result.0 }
    ensures under_way { AreUnderWay result.0 }
{
    if steps.done == steps.frames {
        return (steps, Turn::LastReport, report(FIRST_UID, true));
    }
    let (steps, frame) = steps.advance();
    (steps, turn_after(steps.done), frame)
}

// What comes after a step: reports at each thousandth.
fn turn_after(done: u64) -> Turn
    ensures { (steps : Steps) → left_at result steps ≡ reports_after done ++ later steps }
{
    if done % 1000 == 0 {
        Turn::FirstReport
    } else {
        Turn::Step
    }
}

fn install(uid: i32) -> LoadFrame
    ensures { result ≡ LoadFrame.Install uid }
{
    LoadFrame::Install { uid }
}

fn report(uid: i32, current: bool) -> LoadFrame
    ensures { result ≡ LoadFrame.Report uid current }
{
    LoadFrame::Report { uid, current }
}

/// The frame of a place in the session of a seed and of so many steps, from 0, or `None` past the last one. It goes
/// through the session from its beginning, and takes no memory.
pub fn load_frame(seed: u64, frames: u64, k: u64) -> Option<LoadFrame>
    requires { frames ≤ most_frames }
    ensures { result ≡ slice_get (load_frames seed frames) k }
{
    let mut left = LoadFrames::new(seed, frames);
    for _turn in 0..k {
        let _before = left.next()?;
    }
    left.next()
}
