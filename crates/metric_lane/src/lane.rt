//! A producer with its clock.
ghost use Rattle.std.specs.Prelude.{◌≡◌, ◌<◌, ◌≤◌, [], List, Some, OnOk, IfOk};
ghost use Rattle.std.specs.Option.{option_copied};
ghost use Rattle.bucket_meaning.specs.Limits.{time_limit, longest_bucket};
ghost use Rattle.bucket_clock.specs.Clock.{frame_at};
ghost use Rattle.metric_producer.specs.Calls.{Call, Got, Learned};
ghost use Rattle.metric_producer.specs.LaneCalls.{coming};
ghost use Rattle.metric_producer.specs.Collecting.{demands_of};
ghost use Rattle.metric_lane.specs.LaneClock.{
  IsNewClock,
  ClockCrosses,
  CountsEnds,
  ClockCuts,
  EndsNoSooner,
  NoEndBefore,
};
ghost use Rattle.metric_lane.specs.LaneStands.{
  LaneHas,
  GetsFrame,
  GetsCall,
  GetsCalls,
  GetsCut,
  GetsReport,
  LogsEvent,
};

use bucket_clock::{Clock, Crossings};
use metric_producer::{Closed, Producer, ReadsEvents};
use std::alloc::AllocError;

/// All times are below this, in nanoseconds.
const TIME_LIMIT: u64 = 1 << 63;

/// A producer, and where its buckets end; no clock where it has no buckets.
///
/// After want of memory nothing more is said of it: it can only be dropped.
#[derive(Drop)]
pub struct Lane<P: Producer> {
    pub(crate) clock: Option<Clock>,
    pub(crate) producer: P,
}

impl<P: Producer> Lane<P> {
    /// A lane of a producer that got opening calls or none, which begins at `base` with buckets of `size`, or with none
    /// where that is 0.
    pub fn new(base: u64, size: u64, producer: P) -> Lane<P>
        requires base_fits { base < time_limit }
        requires most { size ≤ longest_bucket }
        ensures { (params : P.Params) (opening : List (Call P.Event P.After))
            → (demands_of P.law params).base ≡ base → (demands_of P.law params).size ≡ size
            → P.law.stands producer params opening
            → LaneHas P.law result params [] opening }
    {
        Lane {
            clock: clock_from(base, size),
            producer,
        }
    }

    /// A frame of the log comes: hands on what it crosses.
    pub fn cross(&mut self, at: u64, is_pull: bool) -> Result<(), AllocError>
        ensures { OnOk result
            (GetsFrame P.law self.old self.new (frame_at at is_pull)) }
    {
        match crossed(&mut self.clock, at, is_pull) {
            None => Ok(()),
            Some(crossings) => self.producer.cross(crossings),
        }
    }

    /// An event comes at the last frame.
    pub fn event(&mut self, at: u64, what: P::Event) -> Result<(), AllocError>
        ensures { OnOk result (GetsCall P.law self.old self.new (Got at what)) }
    {
        self.producer.event(at, what)
    }

    /// The condition after the last frame is told.
    pub fn condition(&mut self, at: u64, now: P::After) -> Result<(), AllocError>
        ensures { OnOk result (GetsCall P.law self.old self.new (Learned at now)) }
    {
        self.producer.condition(at, now)
    }

    /// What collects for the metric, to be asked.
    pub fn producer(&self) -> &P
        ensures { result.now ≡ self.now.producer }
    {
        &self.producer
    }

    /// A time before which no bucket ends: the next full end, or one past all times where there are no buckets. A frame
    /// before it that brings nothing leaves the lane as it is.
    pub fn next_end(&self) -> u64
        ensures { NoEndBefore result self.now.clock }
    {
        match &self.clock {
            None => u64::MAX,
            Some(clock) => end_of(clock),
        }
    }

    /// How many full ends a frame crosses, before it comes: none where there are no buckets. The lane stays as it is.
    pub fn ends_crossed(&self, at: u64, is_pull: bool) -> u64
        ensures { CountsEnds self.now.clock (frame_at at is_pull) result }
    {
        match &self.clock {
            None => 0,
            Some(clock) => ends_number(clock, at, is_pull),
        }
    }

    /// A frame of the log, with the event that it brings to a metric of events alone.
    pub fn log(&mut self, at: u64, is_pull: bool, event: Option<P::Event>) -> Result<(), AllocError>
        ensures { OnOk result (LogsEvent P.law self.old self.new
            (frame_at at is_pull) event) }
    {
        self.cross(at, is_pull)?;
        self.tell(at, event)
    }

    /// A report at the time of the last frame: cuts the open part if that is wished, and hands out what is kept.
    pub fn report(&mut self, at: u64, include_current: bool) -> Result<Closed<P::Value>, AllocError>
        ensures { IfOk result (λ closed. GetsReport P.law
            self.old self.new at include_current closed) }
    {
        self.close(at, include_current)?;
        Ok(self.producer.take())
    }
}

impl<P: Producer> Lane<P> {
    // Hands the event on, if there is one.
    fn tell(&mut self, at: u64, event: Option<P::Event>) -> Result<(), AllocError>
        ensures { OnOk result (GetsCalls P.law self.old self.new (coming at event)) }
    {
        match event {
            None => Ok(()),
            Some(event) => self.event(at, event),
        }
    }

    // Cuts the open part, if that is wished and there is one.
    fn close(&mut self, at: u64, include_current: bool) -> Result<(), AllocError>
        ensures { OnOk result (GetsCut P.law self.old self.new at include_current) }
    {
        if include_current && cut(&mut self.clock, at) {
            self.producer.cut(at)
        } else {
            Ok(())
        }
    }
}

impl<P: ReadsEvents> Lane<P> {
    /// The same as `event`, of an event that stays with its owner.
    pub fn event_of(&mut self, at: u64, what: &P::Event) -> Result<(), AllocError>
        ensures { OnOk result (GetsCall P.law self.old self.new (Got at what.now)) }
    {
        self.producer.event_of(at, what)
    }

    /// The same as `log`, of an event that stays with its owner.
    pub fn log_of(
        &mut self,
        at: u64,
        is_pull: bool,
        event: Option<&P::Event>,
    ) -> Result<(), AllocError>
        ensures { OnOk result (LogsEvent P.law self.old self.new
            (frame_at at is_pull) (option_copied event.entry)) }
    {
        self.cross(at, is_pull)?;
        self.tell_of(at, event)
    }

    // Shows the event, if there is one.
    fn tell_of(&mut self, at: u64, event: Option<&P::Event>) -> Result<(), AllocError>
        ensures { OnOk result (GetsCalls P.law self.old self.new
            (coming at (option_copied event.entry))) }
    {
        match event {
            None => Ok(()),
            Some(event) => self.event_of(at, event),
        }
    }
}

// The clock of a lane that begins so, or none where it has no buckets.
fn clock_from(base: u64, size: u64) -> Option<Clock>
    requires base_fits { base < time_limit }
    requires most { size ≤ longest_bucket }
    ensures { IsNewClock base size result }
{
    if size == 0 {
        return None;
    }
    Some(Clock::new(base, size))
}

// The next full end of a clock.
fn end_of(clock: &Clock) -> u64
    ensures { EndsNoSooner clock.now result }
{
    let _base = clock.base();
    clock.next_end()
}

// How many full ends the frame crosses; none at a time outside of the open part's, which no frame has.
fn ends_number(clock: &Clock, at: u64, is_pull: bool) -> u64
    ensures { CountsEnds (Some clock.now) (frame_at at is_pull) result }
{
    if at < clock.part_start() || at >= TIME_LIMIT {
        return 0;
    }
    clock.ends_crossed(at, is_pull)
}

// What the frame crosses. A time outside of the open part's, which no frame has, crosses nothing.
fn crossed(clock: &mut Option<Clock>, at: u64, is_pull: bool) -> Option<Crossings>
    ensures { ClockCrosses clock.old clock.new (frame_at at is_pull) result }
{
    let Some(clock) = clock else {
        return None;
    };
    if at < clock.part_start() || at >= TIME_LIMIT {
        return None;
    }
    clock.crossings(at, is_pull)
}

// Cuts the clock's open part; whether there is one that has this time.
fn cut(clock: &mut Option<Clock>, at: u64) -> bool
    ensures { ClockCuts clock.old clock.new at result }
{
    let Some(clock) = clock else {
        return false;
    };
    if at < clock.part_start() || at > clock.next_end() || at >= TIME_LIMIT {
        return false;
    }
    clock.cut_at(at);
    true
}
