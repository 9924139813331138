//! All that is live is caught up.
ghost use Rattle.std.specs.Prelude.{OnOk};
ghost use Rattle.hub_core.specs.SharedTable.{KeepsSlots};
ghost use Rattle.hub_core.specs.Settling.{AllWoken, WakesAt};
ghost use Rattle.hub_core.specs.Sleeping.{moment_of_clock};

use crate::live_instance::LiveInstance;
use crate::log_clock::LogClock;
use client_engine::LiveId;
use indexmap::IndexMap;
use std::alloc::AllocError;

/// Each is caught up by the last frame that came. All keep their slots, also where memory is wanting.
pub fn wake_all(
    slots: &mut IndexMap<LiveId, LiveInstance>,
    clock: LogClock,
) -> Result<(), AllocError>
    ensures woken { OnOk result
        (AllWoken (moment_of_clock clock) slots.old.entries slots.new.entries) }
    ensures kept { KeepsSlots slots.old.entries slots.new.entries }
{
    let count = slots.len();
    for place in 0..count {
        wake_at(slots, place, clock)?;
    }
    Ok(())
}

// What stands at a place is caught up.
fn wake_at(
    slots: &mut IndexMap<LiveId, LiveInstance>,
    place: usize,
    clock: LogClock,
) -> Result<(), AllocError>
    ensures woken { OnOk result
        (WakesAt (moment_of_clock clock) place slots.old.entries slots.new.entries) }
    ensures kept { KeepsSlots slots.old.entries slots.new.entries }
{
    match slots.get_index_mut(place) {
        Some(live) => live.wake(clock),
        None => Ok(()),
    }
}
