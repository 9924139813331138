//! The values and the states by which rows of a metric are told apart, as JSON.
ghost use Rattle.std.specs.Prelude.{◌≡◌, ◌++◌, IfOk, OnOk};
ghost use Rattle.serde_json.specs.View.{view};
ghost use Rattle.report_json.specs.ReportJson as as_json;
ghost use Rattle.report_json.specs.Tokens.{tokens_of};

use crate::shown::{Shown, hex_of};
use crate::text::Text;
use atom_record::{Slice, Value};
use report_writer::LeafTree;
use serde_json::{Value as Json, json};
use std::alloc::{AllocError, Global};

// The kind of a value.
fn kind_of(value: &Value) -> &'static str
    ensures { result.now ≡ as_json.kind_of_value value.now }
{
    match value {
        Value::Int(_) => "int",
        Value::Long(_) => "long",
        Value::Bool(_) => "bool",
        Value::Str(_) => "str",
        Value::Raw(_) => "raw",
        Value::Bits32(_) => "bits",
    }
}

// A value without its kind.
fn bare_value(alloc: Global, value: &Value) -> Result<Json, AllocError>
    ensures { IfOk result (λ json. view json ≡ as_json.value_json value.now) }
{
    match value {
        Value::Int(number) => Ok(Json::from(*number)),
        Value::Long(number) => Ok(Json::from(*number)),
        Value::Bool(truth) => Ok(Json::Bool(*truth)),
        Value::Str(text) => hex_of(alloc, text.as_slice()),
        Value::Raw(bytes) => hex_of(alloc, bytes.as_slice()),
        Value::Bits32(bits) => Ok(Json::from(*bits)),
    }
}

// Adds a value without its kind.
fn write_value(out: &mut Text, value: &Value) -> Result<(), AllocError>
    ensures { OnOk result (out.new ≡ out.old ++ tokens_of (as_json.value_json value.now)) }
{
    match value {
        Value::Int(number) => out.add_integer(i64::from(*number)),
        Value::Long(number) => out.add_integer(*number),
        Value::Bool(truth) => out.add_truth(*truth),
        Value::Str(text) => out.add_hex(text.as_slice()),
        Value::Raw(bytes) => out.add_hex(bytes.as_slice()),
        Value::Bits32(bits) => out.add_whole(u64::from(*bits)),
    }
}

impl Shown for LeafTree {
    ghost use Rattle.report_json.specs.ReportJson.{leaf_json};

    ghost shown = { leaf_json };

    fn json(&self, alloc: Global) -> Result<Json, AllocError> {
        match &self.value {
            Some(value) => {
                let alone = bare_value(alloc, value)?;
                json!(in alloc; [self.place, kind_of(value), alone])
            }
            None => json!(in alloc; [self.place]),
        }
    }

    fn write(&self, out: &mut Text) -> Result<(), AllocError> {
        out.open_array()?;
        out.add_whole(u64::from(self.place))?;
        match &self.value {
            Some(value) => {
                out.add_text(kind_of(value))?;
                write_value(out, value)?;
                out.close_array()
            }
            None => out.close_array(),
        }
    }
}

impl Shown for Slice {
    ghost use Rattle.report_json.specs.ReportJson.{slice_json};

    ghost shown = { slice_json };

    fn json(&self, alloc: Global) -> Result<Json, AllocError> {
        match self {
            Slice::Plain { atom_id, value } => json!(in alloc; [*atom_id, "value", *value]),
            Slice::Group { atom_id, group } => json!(in alloc; [*atom_id, "group", *group]),
        }
    }

    fn write(&self, out: &mut Text) -> Result<(), AllocError> {
        let (atom_id, kind, number) = match self {
            Slice::Plain { atom_id, value } => (*atom_id, "value", i64::from(*value)),
            Slice::Group { atom_id, group } => (*atom_id, "group", *group),
        };
        out.open_array()?;
        out.add_whole(u64::from(atom_id))?;
        out.add_text(kind)?;
        out.add_integer(number)?;
        out.close_array()
    }
}
