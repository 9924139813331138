//! A live configuration, with the slots of its matchers in the table that all share, and what it hears. It sleeps
//! between the frames that it hears.
ghost use Rattle.std.specs.Prelude.{◌≡◌, ℕ, ◌<◌, ◌≤◌, ◌^◌, IfOk, OnOk};
ghost use Rattle.session_frames.specs.Faultless.{IsFaultlessLog};
ghost use Rattle.report_writer.specs.Writable.{IsWritableReport};
ghost use Rattle.config_links.specs.SoundConfig.{IsSoundConfig};
ghost use Rattle.client_engine.specs.Running.{linked_of};
ghost use Rattle.matcher_table.specs.Slots.{times_among};
ghost use Rattle.matcher_table.specs.Tables.{outside_uses};
ghost use Rattle.matcher_table.specs.Contents.{contents_of};
ghost use Rattle.held_slots.specs.Holdings.{AreLive};
ghost use Rattle.held_slots.specs.HoldingSteps.{ReleasesAll};
ghost use Rattle.hub_core.specs.BookStands.{StartsFresh};

use crate::books::Books;
use crate::carried::Carried;
use crate::configs::Accepted;
use crate::log_clock::LogClock;
use crate::logging::Logged;
use atom_record::LogFrame;
use client_engine::{LogView, ReportRequest};
use condition_links::Steps;
use config_links::Linked;
use heard_ids::Hearing;
use held_slots::HeldSlots;
use matcher_table::MatcherTable;
use report_writer::ReportTree;
use state_slicer::StateBook;
use std::alloc::{AllocError, Global};
use std::sync::ledger::Ledger;

/// A live configuration.
#[derive(Drop)]
pub struct LiveInstance {
    pub carried: Carried,
    slots: HeldSlots,
    /// The frames to which it wakes.
    pub hearing: Hearing,
}

impl LiveInstance {
    ghost use Rattle.client_engine.specs.InstanceStands.{Reports};
    ghost use Rattle.hub_core.specs.CarriedConfigs.{IsAccepted, Carries};
    ghost use Rattle.hub_core.specs.Sleeping.{moment_of_clock, WakesUp, ReportsAwake};
    ghost use Rattle.hub_core.specs.SharedTable.{IsInterned, HasSameSlots};
    ghost use Rattle.hub_core.specs.LoggedFrames.{logged_of};
    ghost use Rattle.hub_core.specs.SlotLogs.{IsTaken, IsShown, results_for};
    ghost use Rattle.hub_core.specs.LiveQuestions.{AwakeAsks, LiveAsks};

    /// A configuration that was just installed, with its matchers interned. After want of memory some may be.
    pub fn new(
        alloc: Global,
        accepted: Accepted,
        base: u64,
        books: &Books,
        table: &mut MatcherTable,
    ) -> Result<LiveInstance, AllocError>
        requires accepted { IsAccepted accepted }
        requires timely { base < 2 ^ 63 }
        ensures fresh { StartsFresh accepted.linked base books.now result
            (λ live. live.carried.instance) }
        ensures carries { IfOk result (λ live. Carries accepted live.carried) }
        ensures interned { IfOk result (λ live. IsInterned (contents_of table.old) live
            (contents_of table.new)) }
    {
        let hearing = Hearing::of(alloc, &accepted.linked)?;
        let slots = HeldSlots::hold(alloc, table, &accepted.linked)?;
        let carried = Carried::new(alloc, accepted, base, books)?;
        Ok(LiveInstance {
            carried,
            slots,
            hearing,
        })
    }

    /// A configuration that is carried, with its matchers interned. After want of memory some may be.
    pub fn carry(
        alloc: Global,
        carried: Carried,
        table: &mut MatcherTable,
    ) -> Result<LiveInstance, AllocError>
        ensures carried { IfOk result (λ live. live.carried ≡ carried) }
        ensures interned { IfOk result (λ live. IsInterned (contents_of table.old) live
            (contents_of table.new)) }
    {
        let linked = carried.linked(alloc)?;
        LiveInstance::of(alloc, carried, &linked, table)
    }

    // The same where this is its linked form.
    fn of(
        alloc: Global,
        carried: Carried,
        linked: &Linked,
        table: &mut MatcherTable,
    ) -> Result<LiveInstance, AllocError>
        requires sound { IsSoundConfig linked.now }
        requires linked { linked_of carried.instance ≡ linked.now }
        ensures carried { IfOk result (λ live. live.carried ≡ carried) }
        ensures interned { IfOk result (λ live. IsInterned (contents_of table.old) live
            (contents_of table.new)) }
    {
        let hearing = Hearing::of(alloc, linked)?;
        let slots = HeldSlots::hold(alloc, table, linked)?;
        Ok(LiveInstance {
            carried,
            slots,
            hearing,
        })
    }

    /// Wakes up for a frame of the log that it hears: it is caught up, and then takes the frame in.
    pub fn log<L: Ledger>(
        &mut self,
        logged: &Logged<'_>,
        truths: &mut Vec<bool>,
        asks: &mut Steps<L>,
    ) -> Result<(), AllocError>
        requires sound { IsFaultlessLog logged.now.coming.frame.now }
        requires live { AreLive (contents_of logged.now.table.now) self.old.slots }
        ensures shown { OnOk result (IsShown (logged_of logged.now) self.old self.new) }
        ensures same { HasSameSlots self.old self.new }
        ensures asks { LiveAsks (logged_of logged.now) self.old asks.old asks.new }
    {
        self.wake(logged.coming.before)?;
        self.take(logged, truths, asks)
    }

    /// Crosses what ended while it slept, by the last frame that came.
    #[inline(always)]
    pub fn wake(&mut self, clock: LogClock) -> Result<(), AllocError>
        ensures caught { OnOk result (WakesUp
            (moment_of_clock clock) self.old.carried.instance self.new.carried.instance) }
        ensures same { HasSameSlots self.old self.new }
    {
        self.carried.wake(clock)
    }

    // Takes in a frame of the log as it is shown, an atom with the results of its slots. The buffer's room is kept.
    fn take<L: Ledger>(
        &mut self,
        logged: &Logged<'_>,
        truths: &mut Vec<bool>,
        asks: &mut Steps<L>,
    ) -> Result<(), AllocError>
        requires sound { IsFaultlessLog logged.now.coming.frame.now }
        requires live { AreLive (contents_of logged.now.table.now) self.old.slots }
        ensures taken { OnOk result (IsTaken (logged_of logged.now) self.old self.new) }
        ensures same { HasSameSlots self.old self.new }
        ensures asks { AwakeAsks (logged_of logged.now) self.old asks.old asks.new }
    {
        self.results(logged.table, logged.coming.frame, truths)?;
        let view = LogView {
            matched: truths.as_slice(),
            states: logged.coming.states,
        };
        self.carried.apply(logged.coming.frame, &view, asks)
    }

    // The results of its slots for an atom, and none for another frame.
    fn results(
        &self,
        table: &MatcherTable,
        frame: &LogFrame,
        truths: &mut Vec<bool>,
    ) -> Result<(), AllocError>
        requires { AreLive (contents_of table.now) self.now.slots }
        ensures { OnOk result (truths.new.items
            ≡ results_for (contents_of table.now) frame.now self.now.slots) }
    {
        match frame {
            LogFrame::AtomAt { .. } => self.slots.results(table, truths),
            _ => {
                truths.clear();
                Ok(())
            }
        }
    }

    /// Reports what came since the last report: it is caught up before.
    pub fn show(
        &mut self,
        request: ReportRequest,
        clock: LogClock,
        states: &StateBook,
    ) -> Result<ReportTree, AllocError>
        ensures reports { IfOk result (ReportsAwake
            (moment_of_clock clock) self.old.carried.instance request states.now
            self.new.carried.instance) }
        ensures slots { HasSameSlots self.old self.new }
        ensures writable { IfOk result IsWritableReport }
    {
        self.wake(clock)?;
        self.show_awake(request, states)
    }

    // Reports what came since the last report, where nothing was slept through.
    fn show_awake(
        &mut self,
        request: ReportRequest,
        states: &StateBook,
    ) -> Result<ReportTree, AllocError>
        ensures reports { IfOk result (Reports self.old.carried.instance request states.now
            self.new.carried.instance) }
        ensures slots { HasSameSlots self.old self.new }
        ensures writable { IfOk result IsWritableReport }
    {
        self.carried.show(request, states)
    }

    /// Releases its slots.
    pub fn release(self, table: &mut MatcherTable)
        requires { (s : ℕ) → times_among s self.slots ≤ outside_uses (contents_of table.old) s }
        ensures { ReleasesAll (contents_of table.old) self.slots (contents_of table.new) }
    {
        self.slots.release(table);
    }
}
