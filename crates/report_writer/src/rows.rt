//! The rows of metrics: buckets by their keys, and events.
ghost use Rattle.std.specs.Prelude.{◌≡◌, ◌≤◌, ◌<◌, ◌^◌, ◌++◌, OnOk};
ghost use Rattle.std.specs.List.{flat_map};
ghost use Rattle.report_writer.specs.ReportSpelling.{part_with, part_field};
ghost use Rattle.report_writer.specs.Writable.{AreNumbered};

use crate::key::put_key;
use crate::message::{Message, put_if_above, put_message, put_messages, put_signed};
use crate::numbers;
use crate::tree::{AtomBucket, AtomMsg, EventTree, GaugeTree, NumBucket, NumTree, Part, PartBody};
use proto_wire::Writer;
use std::alloc::AllocError;

/// Adds a field of an atom, by what it holds.
pub fn put_part(out: &mut Writer, number: u32, body: &PartBody) -> Result<(), AllocError>
    requires named { 1 ≤ number }
    requires fits { number < 2 ^ 29 }
    ensures { OnOk result (out.new ≡ out.old ++ part_with number body.now) }
{
    match body {
        PartBody::Num(value) => out.varint_field(number, *value),
        PartBody::Chunk(bytes) => out.bytes_field(number, bytes.as_slice()),
        PartBody::Bits(bits) => out.fixed32_field(number, *bits),
    }
}

// Adds the fields of an atom.
fn put_parts(out: &mut Writer, parts: &[Part]) -> Result<(), AllocError>
    requires { AreNumbered parts.now }
    ensures { OnOk result (out.new ≡ out.old ++ flat_map part_field parts.now) }
{
    for part in parts {
        put_part(out, part.number, &part.body)?;
    }
    Ok(())
}

impl Message for AtomMsg {
    ghost use Rattle.report_writer.specs.ReportSpelling.{atom_message};
    ghost use Rattle.report_writer.specs.Writable.{IsWritableAtom};

    ghost spelled = { atom_message };

    ghost is_writable = { IsWritableAtom };

    #[tactic(auto, unfolding(crate::specs::ReportSpelling::atom_message))]
    fn put_fields(&self, out: &mut Writer) -> Result<(), AllocError> {
        let place = out.begin_field(self.id)?;
        put_parts(out, self.parts.as_slice())?;
        out.end_field(place)
    }
}

impl Message for NumBucket {
    ghost use Rattle.report_writer.specs.ReportSpelling.{bucket_message};

    ghost spelled = { bucket_message };

    #[tactic(auto, unfolding(crate::specs::ReportSpelling::bucket_message))]
    fn put_fields(&self, out: &mut Writer) -> Result<(), AllocError> {
        out.varint_field(numbers::BUCKET_START, self.start)?;
        out.varint_field(numbers::BUCKET_END, self.end)?;
        put_signed(out, numbers::BUCKET_NUMBER, self.value)
    }
}

impl Message for NumTree {
    ghost use Rattle.report_writer.specs.ReportSpelling.{row_message};

    ghost spelled = { row_message };

    #[tactic(auto, unfolding(crate::specs::ReportSpelling::row_message))]
    fn put_fields(&self, out: &mut Writer) -> Result<(), AllocError> {
        put_messages(out, numbers::DATA_BUCKET, self.buckets.as_slice())?;
        put_key(out, self.leaves.as_slice(), self.slices.as_slice())?;
        put_if_above(out, numbers::DATA_OVERFLOW, u64::from(self.overflow))
    }
}

impl Message for AtomBucket {
    ghost use Rattle.report_writer.specs.ReportSpelling.{samples_message};
    ghost use Rattle.report_writer.specs.Writable.{IsWritableBucket};

    ghost spelled = { samples_message };

    ghost is_writable = { IsWritableBucket };

    #[tactic(auto, unfolding(crate::specs::ReportSpelling::samples_message))]
    fn put_fields(&self, out: &mut Writer) -> Result<(), AllocError> {
        out.varint_field(numbers::BUCKET_START, self.start)?;
        out.varint_field(numbers::BUCKET_END, self.end)?;
        put_messages(out, numbers::BUCKET_ATOM, self.atoms.as_slice())
    }
}

impl Message for GaugeTree {
    ghost use Rattle.report_writer.specs.ReportSpelling.{gauge_message};
    ghost use Rattle.report_writer.specs.Writable.{IsWritableRow};

    ghost spelled = { gauge_message };

    ghost is_writable = { IsWritableRow };

    #[tactic(auto, unfolding(crate::specs::ReportSpelling::gauge_message))]
    fn put_fields(&self, out: &mut Writer) -> Result<(), AllocError> {
        put_messages(out, numbers::DATA_BUCKET, self.buckets.as_slice())?;
        put_key(out, self.leaves.as_slice(), self.slices.as_slice())
    }
}

impl Message for EventTree {
    ghost use Rattle.report_writer.specs.ReportSpelling.{event_message};
    ghost use Rattle.report_writer.specs.Writable.{IsWritableEvent};

    ghost spelled = { event_message };

    ghost is_writable = { IsWritableEvent };

    #[tactic(auto, unfolding(crate::specs::ReportSpelling::event_message))]
    fn put_fields(&self, out: &mut Writer) -> Result<(), AllocError> {
        out.varint_field(numbers::EVENT_TIME, self.at)?;
        put_message(out, numbers::EVENT_ATOM, &self.atom)
    }
}
