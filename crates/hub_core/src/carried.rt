//! A live configuration as it is saved: whose it is, its bytes, and its instance.
ghost use Rattle.std.specs.Prelude.{◌≡◌, ◌<◌, ◌^◌, OnOk, IfOk};
ghost use Rattle.session_frames.specs.Faultless.{IsFaultlessLog};
ghost use Rattle.report_writer.specs.Writable.{IsWritableReport};
ghost use Rattle.hub_core.specs.BookStands.{StartsFresh};

mod saved;

use crate::books::Books;
use crate::configs::Accepted;
use crate::log_clock::LogClock;
use atom_record::{Bytes, LogFrame};
use client_engine::{Instance, LiveId, LogView, ReportRequest};
use condition_links::Steps;
use report_writer::ReportTree;
use state_slicer::StateBook;
use std::alloc::{AllocError, Global};
use std::marker::Model;
use std::sync::ledger::Ledger;

/// A live configuration: whose it is, its bytes, and its instance. The instance is linked as the bytes say.
#[derive(Drop)]
pub struct Carried {
    name: LiveId,
    config: Bytes,
    instance: Instance,
}

impl Model for Carried {
    ghost use Rattle.std.specs.Prelude.{◌≡◌, Ok};
    ghost use Rattle.std.specs.Coded.{codes};
    ghost use Rattle.config_types.specs.contracts.matcher.Test as test;
    ghost use Rattle.client_engine.specs.Running.{linked_of};
    ghost use Rattle.hub_core.specs.CarriedConfigs.{Saved, linked_from};

    ghost Value = { Saved };

    ghost coded = { Prim.hlevel (codes, test.the_row.coded) };

    ghost view = { λ it. record { name = it.name; config = it.config; instance = it.instance } };

    ghost invariant = { λ it. linked_from it.name.uid it.config ≡ Ok (linked_of it.instance) };
}

impl Carried {
    ghost use Rattle.client_engine.specs.InstanceStands.{Logs, AsksAtMost, Reports};
    ghost use Rattle.hub_core.specs.CarriedConfigs.{IsAccepted, Carries, IsCarriedOn};
    ghost use Rattle.hub_core.specs.Sleeping.{moment_of_clock, WakesUp};

    /// A configuration that was just installed.
    pub fn new(
        alloc: Global,
        accepted: Accepted,
        base: u64,
        books: &Books,
    ) -> Result<Carried, AllocError>
        requires accepted { IsAccepted accepted }
        requires timely { base < 2 ^ 63 }
        ensures fresh { StartsFresh accepted.linked base books.now result (λ new. new.instance) }
        ensures carries { IfOk result (Carries accepted) }
    {
        let Accepted {
            name,
            config,
            linked,
        } = accepted;
        let instance = Instance::new(alloc, linked, base, &books.pulls, &books.states)?;
        Ok(Carried {
            name,
            config,
            instance,
        })
    }

    /// Crosses what ended while it slept, by the last frame that came.
    #[inline(always)]
    pub fn wake(&mut self, clock: LogClock) -> Result<(), AllocError>
        ensures caught { OnOk result
            (WakesUp (moment_of_clock clock) self.old.instance self.new.instance) }
        ensures same { IsCarriedOn self.old self.new }
    {
        self.instance.catch_up(clock.time, clock.is_pull)
    }

    /// Takes in a frame of the log as it is shown, with the truth of each matcher for an atom, and the states after it.
    #[inline(always)]
    pub fn apply<L: Ledger>(
        &mut self,
        frame: &LogFrame,
        view: &LogView<'_>,
        asks: &mut Steps<L>,
    ) -> Result<(), AllocError>
        requires faultless { IsFaultlessLog frame.now }
        ensures logs { OnOk result (Logs self.old.instance frame.now view.now.matched.now
            view.now.states.now self.new.instance) }
        ensures same { IsCarriedOn self.old self.new }
        ensures asks { AsksAtMost self.old.instance frame.now view.now.matched.now
            view.now.states.now asks.old asks.new }
    {
        self.instance.apply(frame, view, asks)
    }

    /// Reports what came since the last report, where nothing was slept through.
    pub fn show(
        &mut self,
        request: ReportRequest,
        states: &StateBook,
    ) -> Result<ReportTree, AllocError>
        ensures reports { IfOk result (Reports self.old.instance request states.now
            self.new.instance) }
        ensures same { IsCarriedOn self.old self.new }
        ensures writable { IfOk result IsWritableReport }
    {
        self.instance.show(request, states)
    }
}
