//! The clock.
ghost use Rattle.std.specs.Prelude.{◌≡◌, ◌<◌, ◌^◌};
ghost use Rattle.metric_meaning.specs.Histories.{is_pull};
ghost use Rattle.metric_lane.specs.LaneJoining.{with_frame};
ghost use Rattle.session_frames.specs.Faultless.{IsFaultlessLog};

use atom_record::LogFrame;
use session_frames::time_of;

// What the time of a frame stays below.
const TIME_LIMIT: u64 = 1 << 63;

/// The last frame of the log, as the ends of buckets see it: one moment stands for all frames that a configuration
/// slept through.
#[derive(Clone, Copy)]
pub struct LogClock {
    /// Its time in nanoseconds, or 0 where there was none.
    pub time: u64,
    /// Whether there were pulls alone at that time: a pull at the very end of a bucket still belongs to it.
    pub is_pull: bool,
    ghost timely: { time < 2 ^ 63 },
}

impl LogClock {
    ghost use Rattle.std.specs.Prelude.{MatchOption};
    ghost use Rattle.hub_core.specs.SavedMoments.{pull_number, IsNoMoment, AreOfClock};
    ghost use Rattle.hub_core.specs.Sleeping.{moment_of_clock, moment_of_frame};

    /// The clock after a frame more. A pull at the time of a frame that was no pull leaves it.
    pub fn after(self, frame: &LogFrame) -> LogClock
        requires faultless { IsFaultlessLog frame.now }
        ensures { moment_of_clock result ≡ with_frame (moment_of_clock self) (moment_of_frame frame.now) }
    {
        let time = time_of(frame);
        let is_pull = comes_by_pull(frame);
        if self.time < time || !is_pull {
            LogClock { time, is_pull }
        } else {
            self
        }
    }

    /// Whether there were pulls alone, as a number.
    pub fn pull_number(self) -> u64
        ensures { result ≡ pull_number self.is_pull }
    {
        if self.is_pull { 1 } else { 0 }
    }

    /// The clock of which this time and this number are saved, if they are of one.
    pub fn of_saved(time: u64, number: u64) -> Option<LogClock>
        ensures { MatchOption result (IsNoMoment time number) (AreOfClock time number) }
    {
        if time >= TIME_LIMIT || number > 1 {
            return None;
        }
        Some(LogClock {
            time,
            is_pull: number == 1,
        })
    }
}

// Whether a frame is a pull.
fn comes_by_pull(frame: &LogFrame) -> bool
    ensures { result ≡ is_pull frame.now }
{
    match frame {
        LogFrame::Tick { .. } => false,
        LogFrame::AtomAt { .. } => false,
        LogFrame::Pull { .. } => true,
    }
}
