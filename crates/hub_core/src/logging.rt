//! A frame of the log comes to the table of matchers and to the live configurations that hear it.
ghost use Rattle.std.specs.Prelude.{◌≡◌, ◌∷◌, [], true, ℕ, OnOk};
ghost use Rattle.std.specs.List.{IsDistinct};
ghost use Rattle.session_frames.specs.Faultless.{IsFaultlessLog};
ghost use Rattle.matcher_table.specs.Truths.{HaveRisen};
ghost use Rattle.matcher_table.specs.Contents.{contents_of};
ghost use Rattle.hub_core.specs.SharedTable.{AllHeld, KeepsSlots};
ghost use Rattle.hub_core.specs.Sleeping.{heard_id_of};
ghost use Rattle.hub_core.specs.Slots.{same_id};
ghost use Rattle.hub_core.specs.NotedLives.{AreNotedApart, noted_for};
ghost use Rattle.hub_core.specs.LoggedFrames.{logged_of};
ghost use Rattle.hub_core.specs.SlotLogs.{EvaluatesFor, questions_for, NamedShown, NotedShown};
ghost use Rattle.hub_core.specs.LiveQuestions.{NamesAsk, NotedAsk};

use crate::live_instance::LiveInstance;
use crate::log_clock::LogClock;
use crate::places::Places;
use atom_record::LogFrame;
use client_engine::LiveId;
use condition_links::Steps;
use id_notes::Notes;
use indexmap::IndexMap;
use matcher_eval::Judge;
use matcher_table::MatcherTable;
use state_slicer::StateBook;
use std::alloc::AllocError;
use std::sync::ledger::Ledger;

/// A frame of the log as it is shown, with the states after it, and the clock before it.
#[derive(Clone, Copy)]
pub struct Coming<'a> {
    pub frame: &'a LogFrame,
    pub states: &'a StateBook,
    pub before: LogClock,
}

/// A frame of the log that comes to live configurations, with the table that has the truths of all matchers for it.
#[derive(Clone, Copy)]
pub struct Logged<'a> {
    pub table: &'a MatcherTable,
    pub coming: Coming<'a>,
}

/// Room that is kept from frame to frame.
#[derive(Drop)]
pub struct Rooms {
    /// For the truths of one configuration.
    pub truths: Vec<bool>,
    pub places: Places,
}

/// The truths of all matchers of the table, for an atom alone. No judge is asked elsewhere.
pub fn evaluate<J: Judge>(table: &mut MatcherTable, judge: &mut J, frame: &LogFrame)
    requires sound { IsFaultlessLog frame.now }
    ensures evaluates { EvaluatesFor J.says frame.now (contents_of table.old)
        (contents_of table.new) }
    ensures asked { HaveRisen (questions_for frame.now (contents_of table.old))
        (J.ticks judge.old) (J.ticks judge.new) }
{
    if let LogFrame::AtomAt { atom, .. } = frame {
        table.evaluate(atom, judge);
    }
}

/// Whether no name is noted for a frame.
pub fn comes_to_none(notes: &Notes<LiveId>, frame: &LogFrame) -> bool
    ensures { result ≡ true → noted_for notes.now frame.now ≡ [] }
{
    match heard_id(frame) {
        Some(id) => !notes.may_have(id) && notes.for_all().is_empty(),
        None => true,
    }
}

/// A frame of the log comes to the configurations that hear it, with the results of their slots, each once. All keep
/// these, also where memory is wanting, and all others are left alone.
pub fn log_heard<L: Ledger>(
    slots: &mut IndexMap<LiveId, LiveInstance>,
    notes: &Notes<LiveId>,
    logged: &Logged<'_>,
    rooms: &mut Rooms,
    asks: &mut Steps<L>,
) -> Result<(), AllocError>
    requires sound { IsFaultlessLog logged.now.coming.frame.now }
    requires held { AllHeld (contents_of logged.now.table.now) slots.old.entries }
    requires apart { (id : ℕ) → AreNotedApart notes.now id }
    ensures shown { OnOk result (NotedShown (logged_of logged.now) notes.now
        slots.old.entries slots.new.entries) }
    ensures kept { KeepsSlots slots.old.entries slots.new.entries }
    ensures asks { NotedAsk (logged_of logged.now) notes.now slots.old.entries asks.old asks.new }
{
    match heard_id(logged.coming.frame) {
        Some(id) => {
            log_named(slots, notes.under(id), logged, rooms, asks)?;
            log_named(slots, notes.for_all(), logged, rooms, asks)
        }
        None => Ok(()),
    }
}

// The id whose hearers a frame comes to. A tick comes to none.
fn heard_id(frame: &LogFrame) -> Option<u32>
    ensures { result ≡ heard_id_of frame.now }
{
    match frame {
        LogFrame::Tick { .. } => None,
        LogFrame::AtomAt { atom, .. } => Some(atom.id),
        LogFrame::Pull { id, .. } => Some(*id),
    }
}

// A frame comes to the configurations of these names.
fn log_named<L: Ledger>(
    slots: &mut IndexMap<LiveId, LiveInstance>,
    names: &[LiveId],
    logged: &Logged<'_>,
    rooms: &mut Rooms,
    asks: &mut Steps<L>,
) -> Result<(), AllocError>
    requires sound { IsFaultlessLog logged.now.coming.frame.now }
    requires held { AllHeld (contents_of logged.now.table.now) slots.old.entries }
    requires distinct { IsDistinct same_id names.now }
    ensures shown { OnOk result (NamedShown (logged_of logged.now) names.now
        slots.old.entries slots.new.entries) }
    ensures kept { KeepsSlots slots.old.entries slots.new.entries }
    ensures asks { NamesAsk (logged_of logged.now) names.now slots.old.entries asks.old asks.new }
{
    for name in names {
        log_one(slots, *name, logged, rooms, asks)?;
    }
    Ok(())
}

// A frame comes to the configuration of a name, if there is one. It mostly stands where it stood.
#[inline(always)]
fn log_one<L: Ledger>(
    slots: &mut IndexMap<LiveId, LiveInstance>,
    name: LiveId,
    logged: &Logged<'_>,
    rooms: &mut Rooms,
    asks: &mut Steps<L>,
) -> Result<(), AllocError>
    requires sound { IsFaultlessLog logged.now.coming.frame.now }
    requires held { AllHeld (contents_of logged.now.table.now) slots.old.entries }
    ensures shown { OnOk result (NamedShown (logged_of logged.now) (name ∷ [])
        slots.old.entries slots.new.entries) }
    ensures kept { KeepsSlots slots.old.entries slots.new.entries }
    ensures asks { NamesAsk (logged_of logged.now) (name ∷ []) slots.old.entries asks.old
        asks.new }
{
    match rooms.places.of(slots, name) {
        Some(place) => match slots.get_index_mut(place) {
            Some(live) => live.log(logged, &mut rooms.truths, asks),
            None => Ok(()),
        },
        None => log_found(slots, name, logged, rooms, asks),
    }
}

// A frame comes to the configuration of a name, which is looked up. Where it stands is kept.
#[inline(never)]
fn log_found<L: Ledger>(
    slots: &mut IndexMap<LiveId, LiveInstance>,
    name: LiveId,
    logged: &Logged<'_>,
    rooms: &mut Rooms,
    asks: &mut Steps<L>,
) -> Result<(), AllocError>
    requires sound { IsFaultlessLog logged.now.coming.frame.now }
    requires held { AllHeld (contents_of logged.now.table.now) slots.old.entries }
    ensures shown { OnOk result (NamedShown (logged_of logged.now) (name ∷ [])
        slots.old.entries slots.new.entries) }
    ensures kept { KeepsSlots slots.old.entries slots.new.entries }
    ensures asks { NamesAsk (logged_of logged.now) (name ∷ []) slots.old.entries asks.old
        asks.new }
{
    rooms.places.keep(slots, name);
    match slots.get_mut(&name) {
        Some(live) => live.log(logged, &mut rooms.truths, asks),
        None => Ok(()),
    }
}
