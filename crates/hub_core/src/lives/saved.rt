//! What is live is caught up, saved, and put in again.
ghost use Rattle.std.specs.Prelude.{◌≡◌, ◌++◌, ◌≤◌, ◌&&◌, ◌↔◌, IsTrue, All, length, IfOk, OnOk, MatchResult};
ghost use Rattle.std.specs.List.{flat_map};
ghost use Rattle.flat_form.specs.Flat.{list_items};
ghost use Rattle.flat_form.specs.declared.flat_error.FlatError.TheVariants.{Bad};
ghost use Rattle.hub_core.specs.NamedLives.{saved_rows};
ghost use Rattle.hub_core.specs.SavedConfigs.{carried_items, IsCarried};
ghost use Rattle.hub_core.specs.SavedHubs.{MayBeLive, AreAllLive, GoesBeside};

use super::{Incoming, Lives, MOST_CONFIGS};
use crate::carried::Carried;
use crate::live_instance::LiveInstance;
use crate::log_clock::LogClock;
use crate::settling::wake_all;
use crate::slots::{Rows, others_of};
use client_engine::LiveId;
use flat_form::{Flat, FlatError, Items};
use indexmap::IndexMap;
use sd_base::Seq;
use std::alloc::{AllocError, Global};

impl Lives {
    ghost use Rattle.hub_core.specs.Settling.{AllWoken};
    ghost use Rattle.hub_core.specs.Sleeping.{moment_of_clock};
    ghost use Rattle.hub_core.specs.NamedLives.{KeepConfigs};
    ghost use Rattle.hub_core.specs.Slots.{HasRoomFor};

    /// All are caught up by the last frame that came.
    pub fn settle(&mut self, clock: LogClock) -> Result<(), AllocError>
        ensures woken { OnOk result
            (AllWoken (moment_of_clock clock) self.old.slots.entries self.new.slots.entries) }
        ensures configs { KeepConfigs self.old.slots.entries self.new.slots.entries }
        ensures counts { self.new.counts ≡ self.old.counts }
    {
        wake_all(&mut self.slots, clock)
    }

    /// Adds the number of what is live, and the items of each, in the order in which it stands.
    pub fn flatten(&self, alloc: Global, out: &mut Items) -> Result<(), AllocError>
        ensures added { OnOk result (out.new
            ≡ out.old ++ list_items carried_items (saved_rows self.now.slots.entries)) }
        ensures carried { OnOk result (All IsCarried (saved_rows self.now.slots.entries)) }
        ensures may { OnOk result (MayBeLive (saved_rows self.now.slots.entries)) }
    {
        let count = self.slots.len();
        (count as u64).flatten(alloc, out)?;
        flatten_rows(&self.slots, count, alloc, out)
    }

    /// All of these are live, in their order, or `Bad` where they may not be: a name comes twice, or a client has too
    /// many.
    pub fn with_all(alloc: Global, all: Seq<Carried>) -> Result<Lives, FlatError>
        ensures { MatchResult result (λ lives. AreAllLive all (saved_rows lives.slots.entries))
            (λ e. e ≡ Bad → ¬ MayBeLive all) }
    {
        let mut lives = Lives::new(alloc);
        let mut fits = true;
        for carried in all.into_vec() {
            let (next, goes) = lives.beside(alloc, carried)?;
            lives = next;
            fits = both(fits, goes);
        }
        if !fits {
            return Err(FlatError::Bad);
        }
        lives.show_live();
        Ok(lives)
    }

    /// What is live may be: no name comes twice, and no client has too many. It does nothing when it runs.
    pub fn show_live(&self)
        ensures { MayBeLive (saved_rows self.now.slots.entries) }
    {
        let _len = self.slots.len();
    }

    // One more goes in last, with its matchers interned, if its name isn't taken and its client has room. The answer is
    // whether it went in.
    fn beside(self, alloc: Global, carried: Carried) -> Result<(Lives, bool), AllocError>
        ensures { IfOk result (λ r. GoesBeside (saved_rows self.slots.entries) carried
            (saved_rows r.0.slots.entries) r.1) }
    {
        if !self.has_room(carried.name()) {
            return Ok((self, false));
        }
        let incoming = self.with_carried(alloc, carried)?;
        let lives = incoming.with_live(alloc)?;
        Ok((lives, true))
    }

    // It has its matchers interned, and isn't put in yet.
    fn with_carried(self, alloc: Global, carried: Carried) -> Result<Incoming, AllocError>
        ensures live { IfOk result (λ incoming. incoming.live.carried ≡ carried) }
        ensures name { IfOk result (λ incoming. incoming.name ≡ carried.name) }
        ensures slots { IfOk result (λ incoming. incoming.rows.slots ≡ self.slots) }
        ensures counts { IfOk result (λ incoming. incoming.rows.counts ≡ self.counts) }
    {
        let name = carried.name();
        // From here on the facts of the type may be false.
        let Lives {
            slots,
            counts,
            notes,
            mut table,
        } = self;
        let live = LiveInstance::carry(alloc, carried, &mut table)?;
        Ok(Incoming {
            name,
            live,
            rows: Rows {
                slots,
                counts,
                notes,
            },
            table,
        })
    }

    // Whether a name isn't taken, and its client has room.
    fn has_room(&self, name: LiveId) -> bool
        ensures { IsTrue result ↔ HasRoomFor name self.now.slots.entries self.now.counts.entries }
    {
        !self.slots.contains_key(&name) && others_of(&self.counts, name.uid, false) < MOST_CONFIGS
    }
}

// Whether both hold.
fn both(one: bool, other: bool) -> bool
    ensures { result ≡ (one && other) }
{
    one && other
}

// Adds the items of so many rows, which are all.
fn flatten_rows(
    slots: &IndexMap<LiveId, LiveInstance>,
    count: usize,
    alloc: Global,
    out: &mut Items,
) -> Result<(), AllocError>
    requires all { length slots.now.entries ≤ count }
    ensures added { OnOk result (out.new
        ≡ out.old ++ flat_map carried_items (saved_rows slots.now.entries)) }
    ensures carried { OnOk result (All IsCarried (saved_rows slots.now.entries)) }
{
    for place in 0..count {
        let Some((_name, live)) = slots.get_index(place) else {
            return Ok(());
        };
        live.carried.flatten(alloc, out)?;
    }
    Ok(())
}
