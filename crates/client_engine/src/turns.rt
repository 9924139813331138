//! What a lane of durations gets at a frame: an event if one comes, and then what is told, if something is.
ghost use Rattle.std.specs.Prelude.{OnOk};
ghost use Rattle.std.specs.Option.{option_copied};
ghost use Rattle.metric_producer.specs.LaneCalls.{coming};
ghost use Rattle.metric_lane.specs.LaneStands.{GetsCalls};
ghost use Rattle.metric_calls.specs.DurationCalls.{learning};

use metric_lane::Lane;
use metric_producer::{Producer, ReadsEvents};
use std::alloc::AllocError;

/// Shows an event, if one comes.
pub fn act<P: ReadsEvents>(
    lane: &mut Lane<P>,
    at: u64,
    event: Option<&P::Event>,
) -> Result<(), AllocError>
    ensures { OnOk result
        (GetsCalls P.law lane.old lane.new (coming at (option_copied event.entry))) }
{
    match event {
        Some(event) => lane.event_of(at, event),
        None => Ok(()),
    }
}

/// Tells a condition, if one is told.
pub fn learn<P: Producer>(
    lane: &mut Lane<P>,
    at: u64,
    now: Option<P::After>,
) -> Result<(), AllocError>
    ensures { OnOk result (GetsCalls P.law lane.old lane.new (learning at now)) }
{
    match now {
        Some(now) => lane.condition(at, now),
        None => Ok(()),
    }
}
