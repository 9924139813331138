//! What tells the rows of one metric apart: the values of a key, and the states that it is sliced by.
ghost use Rattle.std.specs.Prelude.{◌≡◌, ◌++◌, OnOk};
ghost use Rattle.std.specs.Option.{option_copied};
ghost use Rattle.report_writer.specs.ReportSpelling.{leaf_value_field, leaf_raw_field, key_fields};

use crate::message::{Message, put_if_above, put_messages, put_signed};
use crate::numbers;
use crate::tree::LeafTree;
use atom_record::{Slice, Value};
use proto_wire::Writer;
use std::alloc::AllocError;

// Adds the value of a leaf, but for raw bytes.
fn put_value(out: &mut Writer, value: &Option<Value>) -> Result<(), AllocError>
    ensures { OnOk result (out.new ≡ out.old ++ leaf_value_field value.now) }
{
    match value {
        Some(Value::Int(value)) => put_signed(out, numbers::DIMENSION_INT, i64::from(*value)),
        Some(Value::Long(value)) => put_signed(out, numbers::DIMENSION_LONG, *value),
        Some(Value::Bool(value)) => out.varint_field(numbers::DIMENSION_BOOL, u64::from(*value)),
        Some(Value::Str(text)) => out.bytes_field(numbers::DIMENSION_STR, text.as_slice()),
        Some(Value::Bits32(bits)) => out.fixed32_field(numbers::DIMENSION_FLOAT, *bits),
        Some(Value::Raw(_)) | None => Ok(()),
    }
}

// Adds the raw bytes of a leaf, if its value is such.
fn put_raw(out: &mut Writer, value: &Option<Value>) -> Result<(), AllocError>
    ensures { OnOk result (out.new ≡ out.old ++ leaf_raw_field value.now) }
{
    match value {
        Some(Value::Raw(bytes)) => out.bytes_field(numbers::DIMENSION_RAW, bytes.as_slice()),
        _ => Ok(()),
    }
}

impl Message for LeafTree {
    ghost use Rattle.report_writer.specs.ReportSpelling.{leaf_message};

    ghost spelled = { leaf_message };

    #[tactic(auto, unfolding(crate::specs::ReportSpelling::leaf_message))]
    fn put_fields(&self, out: &mut Writer) -> Result<(), AllocError> {
        put_value(out, &self.value)?;
        put_if_above(out, numbers::DIMENSION_PLACE, u64::from(self.place))?;
        put_raw(out, &self.value)
    }
}

impl Message for Slice {
    ghost use Rattle.report_writer.specs.ReportSpelling.{slice_message};

    ghost spelled = { slice_message };

    #[tactic(auto, unfolding(crate::specs::ReportSpelling::slice_message))]
    fn put_fields(&self, out: &mut Writer) -> Result<(), AllocError> {
        match self {
            Slice::Plain { atom_id, value } => {
                out.varint_field(numbers::SLICE_ATOM_ID, u64::from(*atom_id))?;
                put_signed(out, numbers::SLICE_VALUE, i64::from(*value))
            }
            Slice::Group { atom_id, group } => {
                out.varint_field(numbers::SLICE_ATOM_ID, u64::from(*atom_id))?;
                put_signed(out, numbers::SLICE_GROUP_ID, *group)
            }
        }
    }
}

/// Adds the values of a key, and its slices.
pub fn put_key(out: &mut Writer, leaves: &[LeafTree], slices: &[Slice]) -> Result<(), AllocError>
    ensures { OnOk result (out.new ≡ out.old ++ key_fields leaves.now slices.now) }
{
    put_messages(out, numbers::DATA_LEAF, leaves)?;
    put_messages(out, numbers::DATA_SLICE, slices)
}
