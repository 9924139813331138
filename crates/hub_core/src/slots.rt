//! Slots under names, and counts of them.
ghost use Rattle.std.specs.Prelude.{◌≡◌, ◌≤◌, ◌<◌, ℕ, Some, None, OnOk, IfOk};
ghost use Rattle.indexmap.specs.IndexMap.{insert_entry, swap_remove_entry};
ghost use Rattle.matcher_table.specs.Slots.{times_among};
ghost use Rattle.matcher_table.specs.Tables.{outside_uses};
ghost use Rattle.matcher_table.specs.Contents.{contents_of};
ghost use Rattle.held_slots.specs.HoldingSteps.{ReleasesAll};
ghost use Rattle.hub_core.specs.SharedTable.{slots_of, KeepsSlots};
ghost use Rattle.hub_core.specs.Sleeping.{moment_of_clock};
ghost use Rattle.hub_core.specs.NotedLives.{AreNoted, AreNotedBut, StayNoted};
ghost use Rattle.hub_core.specs.Slots.{last_asked, same_id, slot_at, SetsSlot, others_at, others_in, ListsCount, ListsName, HoldsMore, HoldsLess, ReportsAt};
ghost use Rattle.hub_core.specs.Commands.{body_of_install, body_of_remove, body_of_report};

use crate::live_instance::LiveInstance;
use crate::log_clock::LogClock;
use atom_record::Bytes;
use client_engine::{LiveId, ReportRequest};
use id_notes::Notes;
use indexmap::IndexMap;
use matcher_table::MatcherTable;
use report_writer::write;
use sd_base::Seq;
use session_frames::ReplyBody;
use state_slicer::StateBook;
use std::alloc::{AllocError, Global};

/// What is live under its name, and what is kept of it beside.
#[derive(Drop)]
pub struct Rows {
    pub slots: IndexMap<LiveId, LiveInstance>,
    /// How many slots a client has; a client without any isn't here.
    pub counts: IndexMap<i32, usize>,
    /// For each id of atoms and pulls the names of those that hear it.
    pub notes: Notes<LiveId>,
}

// Puts a configuration under a name, with notes of what it hears, and gives back the one that stood there.
fn put(
    slots: &mut IndexMap<LiveId, LiveInstance>,
    notes: &mut Notes<LiveId>,
    alloc: Global,
    name: LiveId,
    live: LiveInstance,
) -> Result<Option<LiveInstance>, AllocError>
    ensures old { IfOk result (λ old. old ≡ slot_at name slots.old.entries) }
    ensures entries { OnOk result (slots.new.entries
        ≡ insert_entry same_id slots.old.entries name live) }
    ensures slots { OnOk result (SetsSlot name (Some live) slots.old.entries slots.new.entries) }
    ensures held { OnOk result (HoldsMore name slots.old.entries slots.new.entries) }
    ensures noted { OnOk result (StayNoted notes.old slots.old.entries
        notes.new slots.new.entries) }
{
    forget(slots, notes, name);
    notes.add(alloc, name, &live.hearing)?;
    Ok(slots.insert(name, live)?)
}

/// Puts a configuration under a name, with its client's count and with notes of what it hears, and gives back the one
/// that stood there.
pub fn put_counted(
    rows: &mut Rows,
    alloc: Global,
    name: LiveId,
    live: LiveInstance,
) -> Result<Option<LiveInstance>, AllocError>
    requires room { others_in name rows.old.slots.entries rows.old.counts.entries < 10 }
    ensures old { IfOk result (λ old. old ≡ slot_at name rows.old.slots.entries) }
    ensures entries { OnOk result (rows.new.slots.entries
        ≡ insert_entry same_id rows.old.slots.entries name live) }
    ensures slots { OnOk result (SetsSlot name (Some live)
        rows.old.slots.entries rows.new.slots.entries) }
    ensures counts { OnOk result (ListsName name rows.old.slots.entries
        rows.old.counts.entries rows.new.counts.entries) }
    ensures held { OnOk result (HoldsMore name rows.old.slots.entries rows.new.slots.entries) }
    ensures noted { OnOk result (StayNoted rows.old.notes rows.old.slots.entries
        rows.new.notes rows.new.slots.entries) }
{
    let there = rows.slots.contains_key(&name);
    let others = others_of(&rows.counts, name.uid, there);
    set_count(&mut rows.counts, name.uid, others + 1)?;
    put(&mut rows.slots, &mut rows.notes, alloc, name, live)
}

/// Takes what is under a name out, and its notes; the last slot takes its place.
pub fn take_out(
    slots: &mut IndexMap<LiveId, LiveInstance>,
    notes: &mut Notes<LiveId>,
    name: LiveId,
) -> Option<LiveInstance>
    ensures old { result ≡ slot_at name slots.old.entries }
    ensures entries { slots.new.entries ≡ swap_remove_entry (same_id name) slots.old.entries }
    ensures slots { SetsSlot name None slots.old.entries slots.new.entries }
    ensures held { HoldsLess name slots.old.entries slots.new.entries }
    ensures noted { StayNoted notes.old slots.old.entries notes.new slots.new.entries }
{
    forget(slots, notes, name);
    slots.swap_remove(&name)
}

// Takes the notes of what stands under a name away.
fn forget(slots: &IndexMap<LiveId, LiveInstance>, notes: &mut Notes<LiveId>, name: LiveId)
    ensures { AreNoted notes.old slots.now.entries → AreNotedBut name notes.new slots.now.entries }
{
    if let Some(live) = slots.get(&name) {
        notes.remove(name, &live.hearing);
    }
}

/// Releases the slots of a configuration that was live, if there was one.
pub fn release_old(table: &mut MatcherTable, old: Option<LiveInstance>)
    requires { (s : ℕ) → times_among s (slots_of old) ≤ outside_uses (contents_of table.old) s }
    ensures { ReleasesAll (contents_of table.old) (slots_of old) (contents_of table.new) }
{
    if let Some(live) = old {
        live.release(table);
    }
}

/// Reports what is under the name that is asked for, if something is, as the bytes of its message. It is caught up
/// before.
pub fn report_at(
    slots: &mut IndexMap<LiveId, LiveInstance>,
    alloc: Global,
    request: ReportRequest,
    clock: LogClock,
    states: &StateBook,
) -> Result<Option<Bytes>, AllocError>
    ensures reports { IfOk result
        (ReportsAt (moment_of_clock clock) request states.now slots.old.entries slots.new.entries) }
    ensures same { OnOk result (KeepsSlots slots.old.entries slots.new.entries) }
{
    let Some(live) = slots.get_mut(&request.name) else {
        return Ok(None);
    };
    let tree = live.show(request, clock, states)?;
    Ok(Some(Seq::from_vec(write(alloc, &tree)?)))
}

/// What is asked of a configuration that a command ends, before it goes: a report with a cut, at the clock.
pub fn last_request(name: LiveId, clock: u64) -> ReportRequest
    ensures { result ≡ last_asked name clock }
{
    ReportRequest {
        name,
        include_current: true,
        at: clock,
    }
}

/// How many slots of other ids a client has, where one of this id is there or not.
pub fn others_of(counts: &IndexMap<i32, usize>, uid: i32, there: bool) -> usize
    ensures { result ≡ others_at uid there counts.now.entries }
{
    let count = match counts.get(&uid) {
        Some(count) => *count,
        None => 0,
    };
    count.saturating_sub(usize::from(there))
}

/// Sets how many slots a client has; one that has none isn't listed.
pub fn set_count(
    counts: &mut IndexMap<i32, usize>,
    uid: i32,
    count: usize,
) -> Result<(), AllocError>
    ensures { OnOk result (ListsCount uid count counts.old.entries counts.new.entries) }
{
    if count == 0 {
        counts.swap_remove(&uid);
    } else {
        counts.insert(uid, count)?;
    }
    Ok(())
}

/// The answer to an install that wasn't refused, by the last report of what stood under its name.
pub fn install_answer(last: Option<Bytes>) -> ReplyBody
    ensures { result ≡ body_of_install last }
{
    match last {
        Some(report) => ReplyBody::Replaced(report),
        None => ReplyBody::Installed,
    }
}

/// The answer to a remove, by the last report of what stood under its name.
pub fn remove_answer(last: Option<Bytes>) -> ReplyBody
    ensures { result ≡ body_of_remove last }
{
    match last {
        Some(report) => ReplyBody::Removed(report),
        None => ReplyBody::NoConfig,
    }
}

/// The answer to a report, by what was reported.
pub fn report_answer(report: Option<Bytes>) -> ReplyBody
    ensures { result ≡ body_of_report report }
{
    match report {
        Some(report) => ReplyBody::ReportBytes(report),
        None => ReplyBody::NoConfig,
    }
}
