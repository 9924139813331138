//! The live configurations of all clients, found by client and id, and how many each client has.
ghost use Rattle.std.specs.Prelude.{◌≡◌, ◌≢◌, ◌≤◌, ◌<◌, ◌∷◌, ℤ, [], true, Some, None, is_some, OnOk, IfOk};
ghost use Rattle.matcher_table.specs.Contents.{contents_of};
ghost use Rattle.hub_core.specs.Slots.{held_by, listed_at, count_at};
ghost use Rattle.hub_core.specs.NotedLives.{AreNoted};
ghost use Rattle.hub_core.specs.NamedLives.{AreNamed};
ghost use Rattle.hub_core.specs.SharedTable.{IsHeldTable};

mod saved;

use crate::books::Books;
use crate::configs::{Accepted, Offer, link_config};
use crate::live_instance::LiveInstance;
use crate::log_clock::LogClock;
use crate::logging::{Coming, Logged, Rooms, comes_to_none, evaluate, log_heard};
use crate::slots::{
    Rows, install_answer, last_request, others_of, put_counted, release_old, remove_answer,
    report_answer, report_at, set_count, take_out,
};
use atom_record::{Bytes, LogFrame};
use client_engine::{LiveId, ReportRequest};
use condition_links::Steps;
use id_notes::Notes;
use indexmap::IndexMap;
use matcher_eval::Judge;
use matcher_table::MatcherTable;
use session_frames::ReplyBody;
use state_slicer::StateBook;
use std::alloc::{AllocError, Global};
use std::sync::ledger::Ledger;

/// How many live configurations a client may have.
const MOST_CONFIGS: usize = 10;

/// The live configurations. Their order says nothing.
#[derive(Drop)]
pub struct Lives {
    slots: IndexMap<LiveId, LiveInstance>,
    /// How many slots a client has; a client without any isn't here.
    counts: IndexMap<i32, usize>,
    /// For each id of atoms and pulls the names of those that hear it: all others sleep.
    notes: Notes<LiveId>,
    /// The matchers of all of them, each different one once.
    table: MatcherTable,
    ghost counted: { (uid : ℤ) → held_by uid slots.entries ≡ count_at uid counts.entries },
    ghost few: { (uid : ℤ) → held_by uid slots.entries ≤ 10 },
    ghost above_zero: { (uid : ℤ) → listed_at uid counts.entries ≢ Some 0 },
    ghost noted: { ∥ AreNoted notes slots.entries ∥₁ },
    ghost named: { AreNamed slots.entries },
    ghost held: { ∥ IsHeldTable (contents_of table) slots.entries ∥₁ },
}

impl Lives {
    ghost use Rattle.hub_core.specs.BookStands.{StartsFresh};
    ghost use Rattle.session_frames.specs.Faultless.{IsFaultlessLog};
    ghost use Rattle.matcher_table.specs.Truths.{HaveRisen};
    ghost use Rattle.config_decode.specs.Config.{config_of};
    ghost use Rattle.hub_meaning.specs.Acceptance.{config_read};
    ghost use Rattle.hub_core.specs.CarriedConfigs.{IsAccepted, Carries};
    ghost use Rattle.hub_core.specs.Sleeping.{moment_of_clock};
    ghost use Rattle.hub_core.specs.LoggedFrames.{shown_of};
    ghost use Rattle.hub_core.specs.SlotLogs.{AllLog, NoneHears, asked_by_all};
    ghost use Rattle.hub_core.specs.Slots.{ReportsAt};
    ghost use Rattle.hub_core.specs.LiveQuestions.{AllAskBy};
    ghost use Rattle.hub_core.specs.NamedLives.{KeepConfigs};
    ghost use Rattle.hub_core.specs.Commands.{change, held_at, others, Changes};
    ghost use Rattle.hub_core.specs.Commands.{GoesIn, Installs, PutsIn, Removes, ReportsLive};

    /// Nothing is live. It takes no memory yet.
    pub fn new(alloc: Global) -> Lives
        ensures slots { result.slots.entries ≡ [] }
        ensures counts { result.counts.entries ≡ [] }
    {
        Lives {
            slots: IndexMap::new(alloc),
            counts: IndexMap::new(alloc),
            notes: Notes::new(alloc),
            table: MatcherTable::new(alloc),
        }
    }

    /// A frame of the log comes to the table, and then to each configuration that hears it: it is caught up by the
    /// clock before the frame, and takes it in. All others sleep on; where all do, the table is left alone. After want
    /// of memory they are of no use.
    pub fn log<J: Judge, L: Ledger>(
        &mut self,
        judge: &mut J,
        coming: &Coming<'_>,
        rooms: &mut Rooms,
        asks: &mut Steps<L>,
    ) -> Result<(), AllocError>
        requires sound { IsFaultlessLog coming.now.frame.now }
        ensures slots { OnOk result (AllLog J.says (shown_of coming.now)
            self.old.slots.entries self.new.slots.entries) }
        ensures counts { self.new.counts ≡ self.old.counts }
        ensures ticks { OnOk result (HaveRisen
            (asked_by_all coming.now.frame.now self.old.slots.entries)
            (J.ticks judge.old) (J.ticks judge.new)) }
        ensures asks { AllAskBy J.says (shown_of coming.now) self.old.slots.entries asks.old
            asks.new }
        ensures configs { KeepConfigs self.old.slots.entries self.new.slots.entries }
    {
        if self.is_unheard(coming.frame) {
            return Ok(());
        }
        evaluate(&mut self.table, judge, coming.frame);
        let logged = Logged {
            table: &self.table,
            coming: *coming,
        };
        log_heard(&mut self.slots, &self.notes, &logged, rooms, asks)
    }

    // Whether all sleep on at a frame.
    fn is_unheard(&self, frame: &LogFrame) -> bool
        ensures { result ≡ true → NoneHears frame.now self.now.slots.entries }
    {
        // `len` says too that no two names are the same, so that a name has one row.
        let is_empty = self.slots.len() == 0;
        comes_to_none(&self.notes, frame) || is_empty
    }

    /// What was read of a configuration goes where the client's configuration of that id stands, or it is new.
    pub fn install(
        self,
        alloc: Global,
        clock: LogClock,
        books: &Books,
        offer: Offer,
    ) -> Result<(Lives, ReplyBody), AllocError>
        requires { offer.read ≡ config_read (config_of offer.config) }
        ensures { IfOk result (λ r. Installs (moment_of_clock clock) books.now offer.name
            offer.config offer.read (change self r.0 r.1)) }
    {
        let Offer { name, config, read } = offer;
        let decoded = match read {
            Ok(decoded) => decoded,
            Err(refusal) => return Ok((self, ReplyBody::Refused(refusal))),
        };
        let there = self.slots.contains_key(&name);
        if others_of(&self.counts, name.uid, there) >= MOST_CONFIGS {
            return Ok((self, ReplyBody::ClientFull(MOST_CONFIGS as u32)));
        }
        match link_config(alloc, decoded, name.uid)? {
            Ok(linked) => {
                let accepted = Accepted {
                    name,
                    config,
                    linked,
                };
                self.put_in(alloc, clock, books, accepted)
            }
            Err(refusal) => Ok((self, ReplyBody::Refused(refusal))),
        }
    }

    /// A configuration without faults goes where the client's configuration of that id stands, whose last report is
    /// made before, or it is new.
    fn put_in(
        self,
        alloc: Global,
        clock: LogClock,
        books: &Books,
        accepted: Accepted,
    ) -> Result<(Lives, ReplyBody), AllocError>
        requires accepted { IsAccepted accepted }
        requires room { others accepted.name self < 10 }
        ensures { IfOk result (λ r. PutsIn (moment_of_clock clock) books.now accepted
            (change self r.0 r.1)) }
    {
        let request = last_request(accepted.name, clock.time);
        let (reported, last) = self.reported(alloc, request, clock, &books.states)?;
        let lives = reported.with_fresh(alloc, clock, books, accepted)?;
        Ok((lives, install_answer(last)))
    }

    // A new configuration takes the place of the one that stands under its name.
    fn with_fresh(
        self,
        alloc: Global,
        clock: LogClock,
        books: &Books,
        accepted: Accepted,
    ) -> Result<Lives, AllocError>
        requires accepted { IsAccepted accepted }
        requires room { others accepted.name self < 10 }
        ensures { IfOk result (GoesIn clock.time books.now accepted self) }
    {
        let incoming = self.with_interned(alloc, clock, books, accepted)?;
        incoming.with_live(alloc)
    }

    // A new configuration has its matchers interned, and isn't put in yet.
    fn with_interned(
        self,
        alloc: Global,
        clock: LogClock,
        books: &Books,
        accepted: Accepted,
    ) -> Result<Incoming, AllocError>
        requires accepted { IsAccepted accepted }
        ensures fresh { StartsFresh accepted.linked clock.time books.now result
            (λ incoming. incoming.live.carried.instance) }
        ensures carries { IfOk result (λ incoming. Carries accepted incoming.live.carried) }
        ensures name { IfOk result (λ incoming. incoming.name ≡ accepted.name) }
        ensures slots { IfOk result (λ incoming. incoming.rows.slots ≡ self.slots) }
        ensures counts { IfOk result (λ incoming. incoming.rows.counts ≡ self.counts) }
    {
        // From here on the facts of the type may be false.
        let Lives {
            slots,
            counts,
            notes,
            mut table,
        } = self;
        let name = accepted.name;
        let live = LiveInstance::new(alloc, accepted, clock.time, books, &mut table)?;
        let rows = Rows {
            slots,
            counts,
            notes,
        };
        Ok(Incoming {
            name,
            live,
            rows,
            table,
        })
    }

    /// Takes a client's configuration out, after its last report.
    pub fn remove(
        self,
        alloc: Global,
        clock: LogClock,
        states: &StateBook,
        name: LiveId,
    ) -> Result<(Lives, ReplyBody), AllocError>
        ensures { IfOk result (λ r. Removes (moment_of_clock clock) states.now name
            (change self r.0 r.1)) }
    {
        if !self.slots.contains_key(&name) {
            return Ok((self, ReplyBody::NoConfig));
        }
        let request = last_request(name, clock.time);
        let (reported, last) = self.reported(alloc, request, clock, states)?;
        let lives = reported.without(name)?;
        Ok((lives, remove_answer(last)))
    }

    // Takes what stands under a name out, and releases its slots of the table. The last slot takes its place.
    fn without(self, name: LiveId) -> Result<Lives, AllocError>
        requires { is_some (held_at name self) ≡ true }
        ensures { IfOk result (Changes name None (others name self) self) }
    {
        let others = others_of(&self.counts, name.uid, true);
        let Lives {
            mut slots,
            mut counts,
            mut notes,
            mut table,
        } = self;
        let old = take_out(&mut slots, &mut notes, name);
        release_old(&mut table, old);
        set_count(&mut counts, name.uid, others)?;
        Ok(Lives {
            slots,
            counts,
            notes,
            table,
        })
    }

    /// Reports a client's configuration.
    pub fn report(
        self,
        alloc: Global,
        request: ReportRequest,
        clock: LogClock,
        states: &StateBook,
    ) -> Result<(Lives, ReplyBody), AllocError>
        ensures { IfOk result (λ r. ReportsLive (moment_of_clock clock) request states.now
            (change self r.0 r.1)) }
    {
        let (lives, report) = self.reported(alloc, request, clock, states)?;
        Ok((lives, report_answer(report)))
    }

    // Reports what stands under the name that is asked for, if something does. All else stays.
    fn reported(
        self,
        alloc: Global,
        request: ReportRequest,
        clock: LogClock,
        states: &StateBook,
    ) -> Result<(Lives, Option<Bytes>), AllocError>
        ensures reports { IfOk result (λ r. ReportsAt (moment_of_clock clock) request states.now
            self.slots.entries r.0.slots.entries r.1) }
        ensures counts { IfOk result (λ r. r.0.counts ≡ self.counts) }
    {
        let Lives {
            mut slots,
            counts,
            notes,
            table,
        } = self;
        let report = report_at(&mut slots, alloc, request, clock, states)?;
        let lives = Lives {
            slots,
            counts,
            notes,
            table,
        };
        Ok((lives, report))
    }
}

/// What is live, and a configuration that comes in under a name: its matchers are interned, and it isn't put in yet.
#[derive(Drop)]
struct Incoming {
    name: LiveId,
    live: LiveInstance,
    rows: Rows,
    table: MatcherTable,
    ghost counted: { (uid : ℤ) → held_by uid rows.slots.entries ≡ count_at uid rows.counts.entries },
    ghost few: { (uid : ℤ) → held_by uid rows.slots.entries ≤ 10 },
    ghost above_zero: { (uid : ℤ) → listed_at uid rows.counts.entries ≢ Some 0 },
    ghost noted: { ∥ AreNoted rows.notes rows.slots.entries ∥₁ },
    ghost named: { AreNamed ((name, live) ∷ rows.slots.entries) },
    ghost held: { ∥ IsHeldTable (contents_of table) ((name, live) ∷ rows.slots.entries) ∥₁ },
}

impl Incoming {
    ghost use Rattle.indexmap.specs.IndexMap.{insert_entry};
    ghost use Rattle.hub_core.specs.Slots.{same_id, SetsSlot, others_in, CountsName};

    // Puts it in, with its count and with notes of what it hears. What stood under its name is let go, with its slots
    // of the table.
    fn with_live(self, alloc: Global) -> Result<Lives, AllocError>
        requires { others_in self.name self.rows.slots.entries self.rows.counts.entries < 10 }
        ensures entries { IfOk result (λ r. r.slots.entries
            ≡ insert_entry same_id self.rows.slots.entries self.name self.live) }
        ensures slots { IfOk result (λ r. SetsSlot self.name (Some self.live)
            self.rows.slots.entries r.slots.entries) }
        ensures counts { IfOk result (λ r. CountsName self.name
            self.rows.slots.entries self.rows.counts.entries r.counts.entries) }
    {
        let Incoming {
            name,
            live,
            mut rows,
            mut table,
        } = self;
        let old = put_counted(&mut rows, alloc, name, live)?;
        release_old(&mut table, old);
        let Rows {
            slots,
            counts,
            notes,
        } = rows;
        Ok(Lives {
            slots,
            counts,
            notes,
            table,
        })
    }
}
