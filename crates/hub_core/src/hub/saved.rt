//! A hub is caught up, saved, and built again.
ghost use Rattle.std.specs.Prelude.{◌≡◌, ◌<◌, ◌^◌, ◌++◌, List, IfOk, OnOk};
ghost use Rattle.flat_form.specs.Savable.{AreSavable};
ghost use Rattle.hub_meaning.specs.SessionLog.{clock_of};
ghost use Rattle.session_frames.specs.declared.frame.Frame.{Frame};
ghost use Rattle.hub_core.specs.SavedHubs.{saved_items, IsSavedHub, MayBeLive};
ghost use Rattle.hub_core.specs.HubStands.{judge_of};
ghost use Rattle.hub_core.specs.HubSaving.{saved_of, RestoresHub};

use super::Hub;
use crate::books::Books;
use crate::carried::Carried;
use crate::lives::Lives;
use crate::log_clock::LogClock;
use crate::logging::Rooms;
use crate::places::Places;
use atom_record::LogFrame;
use flat_form::{Flat, FlatError, Items, can_be_spelled};
use matcher_eval::Judge;
use pull_book::PullBook;
use sd_base::Seq;
use state_slicer::StateBook;
use std::alloc::{AllocError, Global};

/// The time and whether pulls alone came at it, the two books, and what is live.
type Form = (u64, (u64, (StateBook, (PullBook, Seq<Carried>))));

impl<J: Judge> Hub<J> {
    ghost use Rattle.hub_core.specs.HubStands.{HubStandsFor};
    ghost use Rattle.hub_core.specs.HubSaving.{BuildsHub, WakesAll, StandsForSaved};

    /// The time of the last frame of the log, or 0 where there was none. It takes no memory.
    pub fn clock(&self) -> u64
        ensures saved { result ≡ (saved_of self.now).time }
        ensures timely { result < 2 ^ 63 }
        ensures stands { (frames : List Frame) → HubStandsFor J.says self.now frames
            → result ≡ clock_of frames }
    {
        self.clock.time
    }

    /// All live configurations are caught up by the last frame: none sleeps. After want of memory the hub is of no use.
    pub fn settle(&mut self) -> Result<(), AllocError>
        ensures awake { WakesAll J.says self.old self.new result }
        ensures judge { judge_of self.new ≡ judge_of self.old }
    {
        self.lives.settle(self.clock)
    }

    /// Of what is live no name comes twice, and no client has more than ten. It does nothing when it runs.
    pub fn show_live(&self)
        ensures { MayBeLive (saved_of self.now).lives }
    {
        self.lives.show_live();
    }

    /// The items of the hub: the last moment of the log, the two books, and what is live, each with the bytes of its
    /// configuration. They can be spelled as bytes; where one can't, it is as if memory were wanting.
    pub fn flatten(&self, alloc: Global) -> Result<Items, AllocError>
        ensures added { IfOk result (λ items. items ≡ saved_items (saved_of self.now)) }
        ensures valid { OnOk result (IsSavedHub (saved_of self.now)) }
        ensures spelled { IfOk result AreSavable }
    {
        let mut items = Items::new(alloc);
        self.add_items(alloc, &mut items)?;
        let can = can_be_spelled(alloc, &items)?;
        if !can {
            return Err(AllocError);
        }
        Ok(items)
    }

    /// The hub that is saved as these items and no more, which asks this judge. `Bad` comes exactly where no hub that
    /// can be saved has them.
    pub fn build(alloc: Global, judge: J, items: &Items) -> Result<Hub<J>, FlatError>
        ensures built { BuildsHub items.now result }

        // Whatever a hub of these items stands for, the built one stands for.
        ensures stands { IfOk result (StandsForSaved J.says items.now) }
        ensures judge { IfOk result (λ hub. judge_of hub ≡ judge) }
    {
        let (form, next) = <Form>::build(alloc, items, 0)?;
        if next != items.len() {
            return Err(FlatError::Bad);
        }
        restore(alloc, judge, form)
    }

    // Adds the items of the hub at the end.
    fn add_items(&self, alloc: Global, out: &mut Items) -> Result<(), AllocError>
        ensures added { OnOk result (out.new ≡ out.old ++ saved_items (saved_of self.now)) }
        ensures valid { OnOk result (IsSavedHub (saved_of self.now)) }
    {
        (self.clock.time, self.clock.pull_number()).flatten(alloc, out)?;
        self.books.states.flatten(alloc, out)?;
        self.books.pulls.flatten(alloc, out)?;
        self.lives.flatten(alloc, out)?;
        Ok(())
    }
}

// The hub of these parts, or `Bad` where none that can be saved has them.
fn restore<J: Judge>(alloc: Global, judge: J, form: Form) -> Result<Hub<J>, FlatError>
    ensures restored { RestoresHub form result }
    ensures judge { IfOk result (λ hub. judge_of hub ≡ judge) }
{
    let (time, (number, (states, (pulls, all)))) = form;
    let Some(clock) = LogClock::of_saved(time, number) else {
        return Err(FlatError::Bad);
    };
    let lives = Lives::with_all(alloc, all)?;
    Ok(Hub {
        alloc,
        judge,
        clock,
        books: Books { states, pulls },
        lives,
        rooms: Rooms {
            truths: Vec::new(alloc),
            places: Places::new(alloc),
        },
        failed: LogFrame::Tick { at: 0 },
    })
}
