//! Rows of metrics with atoms, as JSON.
ghost use Rattle.std.specs.Prelude.{◌≡◌, ◌++◌, IfOk, OnOk};
ghost use Rattle.serde_json.specs.View.{view};
ghost use Rattle.report_json.specs.ReportJson as as_json;
ghost use Rattle.report_json.specs.Tokens.{tokens_of};

use crate::shown::{Shown, array_of, hex_of, write_array, write_member};
use crate::text::Text;
use report_writer::{AtomBucket, AtomMsg, EventTree, GaugeTree, Part, PartBody};
use serde_json::{Value, json};
use std::alloc::{AllocError, Global};

// The kind of what a field of an atom holds.
fn kind_of(body: &PartBody) -> &'static str
    ensures { result.now ≡ as_json.kind_of_body body.now }
{
    match body {
        PartBody::Num(_) => "num",
        PartBody::Chunk(_) => "bytes",
        PartBody::Bits(_) => "bits",
    }
}

// What a field of an atom holds.
fn body_value(alloc: Global, body: &PartBody) -> Result<Value, AllocError>
    ensures { IfOk result (λ value. view value ≡ as_json.body_json body.now) }
{
    match body {
        PartBody::Num(number) => Ok(Value::from(*number)),
        PartBody::Chunk(bytes) => hex_of(alloc, bytes.as_slice()),
        PartBody::Bits(bits) => Ok(Value::from(*bits)),
    }
}

// Adds what a field of an atom holds.
fn write_body(out: &mut Text, body: &PartBody) -> Result<(), AllocError>
    ensures { OnOk result (out.new ≡ out.old ++ tokens_of (as_json.body_json body.now)) }
{
    match body {
        PartBody::Num(number) => out.add_whole(*number),
        PartBody::Chunk(bytes) => out.add_hex(bytes.as_slice()),
        PartBody::Bits(bits) => out.add_whole(u64::from(*bits)),
    }
}

impl Shown for Part {
    ghost use Rattle.report_json.specs.ReportJson.{part_json};

    ghost shown = { part_json };

    fn json(&self, alloc: Global) -> Result<Value, AllocError> {
        let body = body_value(alloc, &self.body)?;
        json!(in alloc; [self.number, kind_of(&self.body), body])
    }

    fn write(&self, out: &mut Text) -> Result<(), AllocError> {
        out.open_array()?;
        out.add_whole(u64::from(self.number))?;
        out.add_text(kind_of(&self.body))?;
        write_body(out, &self.body)?;
        out.close_array()
    }
}

impl Shown for AtomMsg {
    ghost use Rattle.report_json.specs.ReportJson.{atom_json};

    ghost shown = { atom_json };

    fn json(&self, alloc: Global) -> Result<Value, AllocError> {
        let parts = array_of(alloc, self.parts.as_slice())?;
        json!(in alloc; [self.id, parts])
    }

    fn write(&self, out: &mut Text) -> Result<(), AllocError> {
        out.open_array()?;
        out.add_whole(u64::from(self.id))?;
        write_array(out, self.parts.as_slice())?;
        out.close_array()
    }
}

impl Shown for AtomBucket {
    ghost use Rattle.report_json.specs.ReportJson.{samples_json};

    ghost shown = { samples_json };

    fn json(&self, alloc: Global) -> Result<Value, AllocError> {
        let atoms = array_of(alloc, self.atoms.as_slice())?;
        json!(in alloc; [self.start, self.end, atoms])
    }

    fn write(&self, out: &mut Text) -> Result<(), AllocError> {
        out.open_array()?;
        out.add_whole(self.start)?;
        out.add_whole(self.end)?;
        write_array(out, self.atoms.as_slice())?;
        out.close_array()
    }
}

impl Shown for GaugeTree {
    ghost use Rattle.report_json.specs.ReportJson.{gauge_json};

    ghost shown = { gauge_json };

    fn json(&self, alloc: Global) -> Result<Value, AllocError> {
        let buckets = array_of(alloc, self.buckets.as_slice())?;
        let key = array_of(alloc, self.leaves.as_slice())?;
        let slices = array_of(alloc, self.slices.as_slice())?;
        json!(in alloc; {"buckets": buckets, "key": key, "slices": slices})
    }

    fn write(&self, out: &mut Text) -> Result<(), AllocError> {
        out.open_object()?;
        write_member(out, "buckets", self.buckets.as_slice())?;
        write_member(out, "key", self.leaves.as_slice())?;
        write_member(out, "slices", self.slices.as_slice())?;
        out.close_object()
    }
}

impl Shown for EventTree {
    ghost use Rattle.report_json.specs.ReportJson.{event_json};

    ghost shown = { event_json };

    fn json(&self, alloc: Global) -> Result<Value, AllocError> {
        let atom = self.atom.json(alloc)?;
        json!(in alloc; [self.at, atom])
    }

    fn write(&self, out: &mut Text) -> Result<(), AllocError> {
        out.open_array()?;
        out.add_whole(self.at)?;
        self.atom.write(out)?;
        out.close_array()
    }
}
