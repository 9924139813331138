//! A whole report: whose it is, its metrics, what full tables dropped, and its alarms.
//!
//! A tree has a field `now`, so an `ensures` writes `tree.entry.now` for what the reference `tree` points to.
ghost use Rattle.std.specs.Prelude.{◌≡◌, ◌++◌, IfOk, OnOk};
ghost use Rattle.proto_wire.specs.Spelling.{bytes_field};
ghost use Rattle.report_writer.specs.ReportNumbers.{list_key, list_report};
ghost use Rattle.report_writer.specs.ReportSpelling as spelled;
ghost use Rattle.report_writer.specs.Writable.{IsWritableReport};

use crate::key::put_key;
use crate::message::{Message, put_if_above, put_messages, put_signed};
use crate::numbers;
use crate::tree::{AlarmTree, Drop64, ReportTree};
use proto_wire::Writer;
use std::alloc::{AllocError, Global};

// The room with which a report begins, so that a short one grows no buffer.
const REPORT_ROOM: usize = 512;

impl Message for Drop64 {
    ghost use Rattle.report_writer.specs.ReportSpelling.{drop_message};

    ghost spelled = { drop_message };

    #[tactic(auto, unfolding(crate::specs::ReportSpelling::drop_message))]
    fn put_fields(&self, out: &mut Writer) -> Result<(), AllocError> {
        put_signed(out, numbers::DROPS_ID, self.id)?;
        out.varint_field(numbers::DROPS_NUMBER, self.number)
    }
}

impl Message for AlarmTree {
    ghost use Rattle.report_writer.specs.ReportSpelling.{alarm_message};

    ghost spelled = { alarm_message };

    #[tactic(auto, unfolding(crate::specs::ReportSpelling::alarm_message))]
    fn put_fields(&self, out: &mut Writer) -> Result<(), AllocError> {
        put_signed(out, numbers::ALARM_ALERT, self.id)?;
        out.varint_field(numbers::ALARM_TIME, self.at)?;
        out.varint_field(numbers::ALARM_SUM, self.sum)?;
        put_key(out, self.leaves.as_slice(), self.slices.as_slice())
    }
}

// Adds the fields that say whose report it is.
#[tactic(auto, unfolding(crate::specs::ReportSpelling::key_message))]
fn put_owner(out: &mut Writer, tree: &ReportTree) -> Result<(), AllocError>
    ensures { OnOk result (out.new ≡ out.old ++ spelled.key_message tree.entry.now) }
{
    put_signed(out, numbers::KEY_UID, i64::from(tree.uid))?;
    put_signed(out, numbers::KEY_ID, tree.id)
}

// Adds what full tables dropped.
fn put_drops(out: &mut Writer, tree: &ReportTree) -> Result<(), AllocError>
    ensures { OnOk result (out.new ≡ out.old ++ spelled.drops_fields tree.entry.now) }
{
    let predicate_drops = tree.predicate_drops.as_slice();
    put_messages(out, numbers::REPORT_PREDICATE_DROPS, predicate_drops)?;
    let state_drops = tree.state_drops.as_slice();
    put_messages(out, numbers::REPORT_STATE_DROPS, state_drops)?;
    let atoms = tree.state_atoms_dropped;
    put_if_above(out, numbers::REPORT_DROPPED_STATE_ATOMS, atoms)
}

// Adds the alarms, and how many aren't listed.
fn put_alarms(out: &mut Writer, tree: &ReportTree) -> Result<(), AllocError>
    ensures { OnOk result (out.new ≡ out.old ++ spelled.alarms_fields tree.entry.now) }
{
    put_messages(out, numbers::REPORT_ALARMS, tree.alarms.as_slice())?;
    let not_kept = tree.alarms_not_kept.as_slice();
    put_messages(out, numbers::REPORT_ALARMS_NOT_KEPT, not_kept)
}

// Adds the fields of the part that speaks of the configuration.
#[tactic(auto, unfolding(crate::specs::ReportSpelling::config_message))]
fn put_config(out: &mut Writer, tree: &ReportTree) -> Result<(), AllocError>
    requires { IsWritableReport tree.now }
    ensures { OnOk result (out.new ≡ out.old ++ spelled.config_message tree.entry.now) }
{
    put_messages(out, numbers::REPORT_METRIC, tree.metrics.as_slice())?;
    out.varint_field(numbers::REPORT_LAST, tree.last)?;
    out.varint_field(numbers::REPORT_NOW, tree.now)?;
    put_drops(out, tree)?;
    put_alarms(out, tree)
}

// Adds the field that says whose report it is.
fn put_key_part(out: &mut Writer, tree: &ReportTree) -> Result<(), AllocError>
    ensures { OnOk result (out.new ≡ out.old
        ++ bytes_field list_key (spelled.key_message tree.entry.now)) }
{
    let place = out.begin_field(numbers::LIST_KEY)?;
    put_owner(out, tree)?;
    out.end_field(place)
}

// Adds the field that speaks of the configuration.
fn put_config_part(out: &mut Writer, tree: &ReportTree) -> Result<(), AllocError>
    requires { IsWritableReport tree.now }
    ensures { OnOk result (out.new ≡ out.old
        ++ bytes_field list_report (spelled.config_message tree.entry.now)) }
{
    let place = out.begin_field(numbers::LIST_REPORT)?;
    put_config(out, tree)?;
    out.end_field(place)
}

// Adds the two parts of a report.
#[tactic(auto, unfolding(crate::specs::ReportSpelling::report_message))]
fn put_report(out: &mut Writer, tree: &ReportTree) -> Result<(), AllocError>
    requires { IsWritableReport tree.now }
    ensures { OnOk result (out.new ≡ out.old ++ spelled.report_message tree.entry.now) }
{
    put_key_part(out, tree)?;
    put_config_part(out, tree)
}

/// The bytes of a report: the one spelling of its tree.
pub fn write(alloc: Global, tree: &ReportTree) -> Result<Vec<u8>, AllocError>
    requires { IsWritableReport tree.now }
    ensures { IfOk result (λ bytes. bytes.items ≡ spelled.report_message tree.entry.now) }
{
    let mut report = Writer::with_capacity(alloc, REPORT_ROOM)?;
    put_report(&mut report, tree)?;
    Ok(report.into_bytes())
}
