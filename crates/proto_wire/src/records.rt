//! A reader of the records of a message, in one pass and without a copy.
ghost use Rattle.std.specs.Prelude.{◌≡◌, ◌+◌, ◌<◌, ◌≤◌, ◌^◌, ◌↔◌, [], length, Ok, None, Some, IfOk, IfSome, IsTrue};
ghost use Rattle.sd_base.specs.Reads.{GivesBy};
ghost use Rattle.proto_wire.specs.WireCauses.{most_depth};
ghost use Rattle.proto_wire.specs.Fields.{FieldOf, Rest, field_view, has_inside, FitsOffsets, StepsOver};
ghost use Rattle.proto_wire.specs.WireReading.{field_at, rest_with, AnswersNext, inside_at, walk_from, walk_by};
ghost use Rattle.proto_wire.specs.Grammar.{StartsWith, GaveField, ReadsBack};

use crate::fault::{TOO_DEEP, WireFault, fault};
use crate::field::{Body, Field};
use crate::group::field_of;
use crate::tag::next_tag;
use std::marker::Model;

/// How deep messages and groups may nest.
const MAX_DEPTH: u32 = 100;

/// What is left of a message. Contracts see the bytes, where they begin, and the message's depth.
#[derive(Drop)]
pub struct Records<'a> {
    bytes: &'a [u8],
    /// Where the bytes end, counted from the start of the whole configuration.
    end: u32,
    depth: u32,
}

impl<'a> Model for Records<'a> {
    ghost use Rattle.std.specs.Prelude.{◌-◌, ◌≤◌, length};
    ghost use Rattle.proto_wire.specs.WireCauses.{most_depth};
    ghost use Rattle.proto_wire.specs.Fields.{Rest};

    ghost Value = { Rest };

    ghost view = { λ r. record { bytes = r.bytes.now; at = r.end - length r.bytes.now; depth = r.depth } };

    ghost invariant = { λ r. (length r.bytes.now ≤ r.end) × (r.depth ≤ most_depth) };
}

impl<'a> Records<'a> {
    /// The records of a message of this depth, whose bytes begin at `base` of the whole configuration.
    pub fn new(bytes: &'a [u8], depth: u32, base: u32) -> Records<'a>
        requires shallow { depth ≤ most_depth }
        requires fits { base + length bytes.now < 2 ^ 32 }
        ensures { result ≡ record { bytes = bytes.now; at = base; depth = depth } }
    {
        Records {
            bytes,
            end: base + bytes.len() as u32,
            depth,
        }
    }

    /// The next field, or none at the end. A reader that met a fault stays before it.
    pub fn next(&mut self) -> Result<Option<Field<'a>>, WireFault>
        // What is read, exactly.
        ensures read { AnswersNext self.old result self.new }
        ensures end { (result ≡ Ok None) ↔ (self.old.bytes ≡ []) }

        // A field is read exactly where one is laid out, and what a writer wrote is read back.
        ensures grammar { (field : FieldOf) (new : Rest)
            → StartsWith self.old field new ↔ GaveField result self.new field new }
        ensures written { ReadsBack self.old result self.new }

        // One step of a walk.
        ensures walk { walk_from self.old ≡ walk_by result self.new }
        ensures step { IfOk result
            (λ found. IfSome found (λ f. StepsOver self.old (field_view f) self.new)) }
    {
        if self.bytes.is_empty() {
            return Ok(None);
        }
        let (field, after) = self.first()?;
        self.bytes = after;
        Ok(Some(field))
    }

    /// The records inside a field that this reader gave, one level deeper.
    #[tactic(auto, unfolding(crate::specs::WireReading::inside_at))]
    pub fn enter(&self, f: &Field<'a>) -> Result<Records<'a>, WireFault>
        requires inside { IsTrue (has_inside (field_view f.now).body) }
        requires within { FitsOffsets (field_view f.now) }
        ensures { result ≡ inside_at self.now.depth (field_view f.now) }
    {
        if self.depth == MAX_DEPTH {
            return Err(fault(f.at, TOO_DEEP));
        }
        match f.body {
            Body::Bytes(bytes) | Body::Group(bytes) => Ok(Records::new(
                bytes,
                self.depth + 1,
                f.payload_at,
            )),
            Body::Varint(_) | Body::Fixed64(_) | Body::Fixed32(_) => unreachable!(),
        }
    }

    // The field in front, and what is after it.
    #[tactic(auto, unfolding(crate::specs::WireReading::field_at))]
    fn first(&self) -> Result<(Field<'a>, &'a [u8]), WireFault>
        ensures { GivesBy Some (λ x. (field_view x.0, rest_with self.now x.1.now)) result
            (field_at self.now) }
    {
        let at = self.end - self.bytes.len() as u32;
        let (tag, after) = next_tag(at, self.bytes)?;
        field_of(tag, at, after, self.end, MAX_DEPTH - self.depth)
    }
}
