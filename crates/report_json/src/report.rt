//! A whole report as JSON.
//!
//! A tree has a field `now`, so an `ensures` writes `tree.entry.now` for what the reference `tree` points to.
ghost use Rattle.std.specs.Prelude.{◌≡◌, ◌++◌, IfOk, OnOk};
ghost use Rattle.serde_json.specs.View.{view};
ghost use Rattle.serde_json.specs.Written.{compact_text};
ghost use Rattle.report_json.specs.ReportJson as as_json;
ghost use Rattle.report_json.specs.Tokens.{tokens_of};

use crate::shown::{Shown, array_of, write_array, write_member};
use crate::text::Text;
use report_writer::{AlarmTree, Drop64, ReportTree};
use serde_json::{Value, json};
use std::alloc::{AllocError, Global};

impl Shown for Drop64 {
    ghost use Rattle.report_json.specs.ReportJson.{drop_json};

    ghost shown = { drop_json };

    fn json(&self, alloc: Global) -> Result<Value, AllocError> {
        json!(in alloc; [self.id, self.number])
    }

    fn write(&self, out: &mut Text) -> Result<(), AllocError> {
        out.open_array()?;
        out.add_integer(self.id)?;
        out.add_whole(self.number)?;
        out.close_array()
    }
}

impl Shown for AlarmTree {
    ghost use Rattle.report_json.specs.ReportJson.{alarm_json};

    ghost shown = { alarm_json };

    fn json(&self, alloc: Global) -> Result<Value, AllocError> {
        let key = array_of(alloc, self.leaves.as_slice())?;
        let slices = array_of(alloc, self.slices.as_slice())?;
        json!(in alloc; {
            "at": self.at,
            "id": self.id,
            "key": key,
            "slices": slices,
            "sum": self.sum
        })
    }

    fn write(&self, out: &mut Text) -> Result<(), AllocError> {
        out.open_object()?;
        out.whole_member("at", self.at)?;
        out.integer_member("id", self.id)?;
        write_member(out, "key", self.leaves.as_slice())?;
        write_member(out, "slices", self.slices.as_slice())?;
        out.whole_member("sum", self.sum)?;
        out.close_object()
    }
}

/// A report as JSON. Its value takes some fifty times the bytes of the report; for the text alone call [`json_text`].
#[tactic(auto, unfolding(crate::specs::ReportJson::report_json))]
pub fn json(alloc: Global, tree: &ReportTree) -> Result<Value, AllocError>
    ensures { IfOk result (λ value. view value ≡ as_json.report_json tree.entry.now) }
{
    let alarms = array_of(alloc, tree.alarms.as_slice())?;
    let alarms_not_kept = array_of(alloc, tree.alarms_not_kept.as_slice())?;
    let metrics = array_of(alloc, tree.metrics.as_slice())?;
    let predicate_drops = array_of(alloc, tree.predicate_drops.as_slice())?;
    let state_drops = array_of(alloc, tree.state_drops.as_slice())?;
    json!(in alloc; {
        "alarms": alarms,
        "alarms_not_kept": alarms_not_kept,
        "id": tree.id,
        "last": tree.last,
        "metrics": metrics,
        "now": tree.now,
        "predicate_drops": predicate_drops,
        "state_atoms_dropped": tree.state_atoms_dropped,
        "state_drops": state_drops,
        "uid": tree.uid
    })
}

// Adds a report.
fn write_report(out: &mut Text, tree: &ReportTree) -> Result<(), AllocError>
    ensures { OnOk result (out.new ≡ out.old ++ tokens_of (as_json.report_json tree.entry.now)) }
{
    out.open_object()?;
    write_member(out, "alarms", tree.alarms.as_slice())?;
    write_member(out, "alarms_not_kept", tree.alarms_not_kept.as_slice())?;
    out.integer_member("id", tree.id)?;
    out.whole_member("last", tree.last)?;
    write_member(out, "metrics", tree.metrics.as_slice())?;
    out.whole_member("now", tree.now)?;
    write_member(out, "predicate_drops", tree.predicate_drops.as_slice())?;
    out.whole_member("state_atoms_dropped", tree.state_atoms_dropped)?;
    write_member(out, "state_drops", tree.state_drops.as_slice())?;
    out.integer_member("uid", i64::from(tree.uid))?;
    out.close_object()
}

/// The text of a report as JSON, in one line without its end. It is put together token by token, without the value.
#[tactic(auto, using(crate::proofs::TokenLemmas::printed))]
pub fn json_text(alloc: Global, tree: &ReportTree) -> Result<Vec<u8>, AllocError>
    ensures { IfOk result
        (λ text. text.items ≡ compact_text (as_json.report_json tree.entry.now)) }
{
    let mut out = Text::new(alloc);
    write_report(&mut out, tree)?;
    Ok(out.into_bytes())
}
