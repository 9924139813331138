//! The metrics of a configuration with their lanes, and when the next bucket of theirs ends.
ghost use Rattle.std.specs.Prelude.{◌≡◌, length, map, replicate, false, OnOk, IfOk};
ghost use Rattle.std.specs.List.{All};
ghost use Rattle.bucket_clock.specs.Clock.{frame_at};
ghost use Rattle.client_engine.specs.AskedFew.{AllAskFew};
ghost use Rattle.client_engine.specs.Bringing.{TakesBrought};
ghost use Rattle.client_engine.specs.CaughtUp.{AllTakeRun};
ghost use Rattle.client_engine.specs.Finding.{CanBeBrought};
ghost use Rattle.client_engine.specs.Opens.{CanOpen};
ghost use Rattle.client_engine.specs.Tracks.{CanBeTracked, metric_in, AsksWithin, AllAskWithin, AreNew, AllStandFor, AllReport};
ghost use Rattle.known_conditions.specs.Marks.{IsMarked, AreAllMarked, KeepsMarks};
ghost use Rattle.client_engine.specs.Woken.{AllDue, CameToMarked, CameToThese, OnMoreMarked, FewOfMarked, OthersSleepOn};

use crate::brought::Brought;
use crate::moments::comes_by_pull;
use crate::opening::Opening;
use crate::parts::{cross_all, log_all, report_all, tracks_of};
use crate::request::ReportRequest;
use crate::track::Track;
use condition_links::Steps;
use config_links::LMetric;
use known_conditions::{Conditions, is_marked, no_marks};
use report_writer::MetricTree;
use sd_base::Seq;
use session_frames::time_of;
use std::alloc::{AllocError, Global};
use std::mem;
use std::sync::ledger::Ledger;

/// The metrics of a configuration with their lanes.
#[derive(Drop)]
pub struct Tracks {
    pub list: Vec<Track>,
    /// Which of them the present frame came to already. Only the room is kept from frame to frame.
    marks: Vec<bool>,
    /// A time before which none of their buckets ends, in nanoseconds. It is 0 while a frame or a report is on its way.
    due: u64,
}

impl Tracks {
    /// The tracks of metrics, which begin where they are installed.
    pub fn new(
        metrics: Seq<LMetric>,
        opening: &Opening<'_>,
        conditions: &mut Conditions,
    ) -> Result<Tracks, AllocError>
        requires opens { CanOpen opening.now }
        requires ready { All CanBeTracked metrics }
        requires within { All (AsksWithin (length conditions.old.predicates)) metrics }
        ensures new { IfOk result (λ it. AreNew opening.now conditions.old metrics it.list.items) }
        ensures known { conditions.new ≡ conditions.old }
        ensures due { IfOk result (λ it. AllDue it.due it.list.items) }
        ensures marks { IfOk result (λ it. length it.marks.items ≡ length it.list.items) }
    {
        let list = tracks_of(metrics, opening, conditions)?;
        Tracks::of(opening.alloc, list)
    }

    /// These tracks. What is made of them alone is made here.
    pub fn of(alloc: Global, list: Vec<Track>) -> Result<Tracks, AllocError>
        ensures list { IfOk result (λ it. it.list.items ≡ list.items) }
        ensures due { IfOk result (λ it. AllDue it.due it.list.items) }
        ensures marks { IfOk result (λ it. length it.marks.items ≡ length it.list.items) }
    {
        let marks = no_marks(alloc, list.len())?;
        let due = least_end(list.as_slice());
        Ok(Tracks { list, marks, due })
    }

    /// A frame of the log comes, which wakes the metrics at these places. A pull comes to each, and so does a frame
    /// with which a bucket may end; another one to those that it wakes.
    pub fn log<L: Ledger>(
        &mut self,
        woken: &[usize],
        brought: &Brought<'_>,
        conditions: &mut Conditions,
        asks: &mut Steps<L>,
    ) -> Result<(), AllocError>
        requires within { AllAskWithin conditions.old self.old.list.items }
        requires matched { CanBeBrought brought.now }
        requires others { OthersSleepOn conditions.old brought.now woken.now self.old.list.items }
        requires due { AllDue self.old.due self.old.list.items }
        requires marks { length self.old.marks.items ≡ length self.old.list.items }
        ensures logs { OnOk result (TakesBrought AllStandFor
            conditions.old brought.now self.old.list.items self.new.list.items) }
        ensures metrics { map metric_in self.new.list.items ≡ map metric_in self.old.list.items }
        ensures known { conditions.new ≡ conditions.old }
        ensures asks { AllAskFew conditions.old brought.now self.old.list.items asks.old asks.new }
        ensures due { AllDue self.new.due self.new.list.items }
        ensures marks { length self.new.marks.items ≡ length self.new.list.items }
    {
        let due = mem::replace(&mut self.due, 0);
        if time_of(brought.frame) >= due || comes_by_pull(brought.frame) {
            log_all(conditions, &mut self.list, brought, asks)?;
            self.due = least_end(self.list.as_slice());
            return Ok(());
        }
        if woken.len() == 1 {
            self.due = self.wake_only(woken, due, brought, conditions, asks)?;
            return Ok(());
        }
        self.marks.fill(false);
        self.due = self.wake_all(woken, due, brought, conditions, asks)?;
        Ok(())
    }

    // A frame comes to the metric at the one place of these. No other one can come to it again, so it needs no mark.
    // The answer is a time before which no bucket ends.
    fn wake_only<L: Ledger>(
        &mut self,
        woken: &[usize],
        due: u64,
        brought: &Brought<'_>,
        conditions: &mut Conditions,
        asks: &mut Steps<L>,
    ) -> Result<u64, AllocError>
        requires one { length woken.now ≡ 1 }
        requires within { AllAskWithin conditions.old self.old.list.items }
        requires matched { CanBeBrought brought.now }
        requires due { AllDue due self.old.list.items }
        ensures woken { IfOk result (CameToThese conditions.old brought.now woken.now
            self.old.list.items asks.old self.new.list.items asks.new) }
        ensures metrics { map metric_in self.new.list.items ≡ map metric_in self.old.list.items }
        ensures known { conditions.new ≡ conditions.old }
        ensures asks { AllAskFew conditions.old brought.now self.old.list.items asks.old asks.new }
        ensures due { self.new.due ≡ self.old.due }
        ensures marks { self.new.marks ≡ self.old.marks }
    {
        let place = woken[0];
        if place >= self.list.len() {
            return Ok(due);
        }
        let track = &mut self.list[place];
        track.log(brought, conditions, asks)?;
        Ok(due.min(track.next_end()))
    }

    // A frame comes to the metrics at these places. The answer is a time before which no bucket ends.
    fn wake_all<L: Ledger>(
        &mut self,
        woken: &[usize],
        due: u64,
        brought: &Brought<'_>,
        conditions: &mut Conditions,
        asks: &mut Steps<L>,
    ) -> Result<u64, AllocError>
        requires within { AllAskWithin conditions.old self.old.list.items }
        requires matched { CanBeBrought brought.now }
        requires due { AllDue due self.old.list.items }
        requires marks { self.old.marks.items ≡ replicate (length self.old.list.items) false }
        ensures woken { IfOk result (CameToMarked conditions.old brought.now
            self.old.list.items asks.old self.new.list.items self.new.marks.items asks.new) }
        ensures all { OnOk result (AreAllMarked woken.now self.new.marks.items) }
        ensures metrics { map metric_in self.new.list.items ≡ map metric_in self.old.list.items }
        ensures known { conditions.new ≡ conditions.old }
        ensures asks { AllAskFew conditions.old brought.now self.old.list.items asks.old asks.new }
        ensures due { self.new.due ≡ self.old.due }
        ensures marks { length self.new.marks.items ≡ length self.new.list.items }
    {
        let mut next = due;
        for turn in 0..woken.len() {
            next = self.wake(woken[turn], next, brought, conditions, asks)?;
        }
        Ok(next)
    }

    // A frame comes to the metric at a place, unless it came to it before. Before the time that is handed in no bucket
    // ended; the answer is one before which none ends now.
    fn wake<L: Ledger>(
        &mut self,
        place: usize,
        due: u64,
        brought: &Brought<'_>,
        conditions: &mut Conditions,
        asks: &mut Steps<L>,
    ) -> Result<u64, AllocError>
        requires within { AllAskWithin conditions.old self.old.list.items }
        requires matched { CanBeBrought brought.now }
        requires marks { length self.old.marks.items ≡ length self.old.list.items }
        ensures woken { OnMoreMarked conditions.old brought.now
            self.old.list.items self.old.marks.items asks.old due
            (λ woken. IfOk result (woken self.new.list.items self.new.marks.items asks.new)) }
        ensures here { OnOk result (IsMarked self.new.marks.items place) }
        ensures stay { KeepsMarks self.old.marks.items self.new.marks.items }
        ensures metrics { map metric_in self.new.list.items ≡ map metric_in self.old.list.items }
        ensures known { conditions.new ≡ conditions.old }
        ensures asks { FewOfMarked conditions.old brought.now
            self.old.list.items self.old.marks.items asks.old due asks.new }
        ensures due { self.new.due ≡ self.old.due }
        ensures marks { length self.new.marks.items ≡ length self.new.list.items }
    {
        if is_marked(self.marks.as_slice(), place) {
            return Ok(due);
        }
        self.marks[place] = true;
        let track = &mut self.list[place];
        track.log(brought, conditions, asks)?;
        Ok(due.min(track.next_end()))
    }

    /// The one frame comes that stands for a run which leaves all metrics alone. Where no bucket can end with it,
    /// nothing is to be done.
    #[inline(always)]
    pub fn catch_up(&mut self, at: u64, is_pull: bool) -> Result<(), AllocError>
        requires due { AllDue self.old.due self.old.list.items }
        requires marks { length self.old.marks.items ≡ length self.old.list.items }
        ensures takes { OnOk result
            (AllTakeRun (frame_at at is_pull) self.old.list.items self.new.list.items) }
        ensures metrics { map metric_in self.new.list.items ≡ map metric_in self.old.list.items }
        ensures due { AllDue self.new.due self.new.list.items }
        ensures marks { length self.new.marks.items ≡ length self.new.list.items }
    {
        if at < self.due {
            return Ok(());
        }
        self.due = 0;
        cross_all(&mut self.list, at, is_pull)?;
        self.due = least_end(self.list.as_slice());
        Ok(())
    }

    /// What a report shows of each metric that is shown, in order.
    pub fn report(
        &mut self,
        alloc: Global,
        base: u64,
        request: ReportRequest,
    ) -> Result<Seq<MetricTree>, AllocError>
        requires marks { length self.old.marks.items ≡ length self.old.list.items }
        ensures reports { IfOk result
            (AllReport base request self.old.list.items self.new.list.items) }
        ensures metrics { map metric_in self.new.list.items ≡ map metric_in self.old.list.items }
        ensures due { AllDue self.new.due self.new.list.items }
        ensures marks { length self.new.marks.items ≡ length self.new.list.items }
    {
        self.due = 0;
        let trees = report_all(alloc, base, &mut self.list, request)?;
        self.due = least_end(self.list.as_slice());
        Ok(trees)
    }
}

// A time before which no bucket of any of these ends.
fn least_end(tracks: &[Track]) -> u64
    ensures { AllDue result tracks.now }
{
    let mut least = u64::MAX;
    for place in 0..tracks.len() {
        least = least.min(tracks[place].next_end());
    }
    least
}
