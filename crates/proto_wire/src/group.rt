//! Fields of every kind, and groups, whose records are read up to their end.
ghost use Rattle.std.specs.Prelude.{◌≡◌, ◌+◌, ◌-◌, ◌<◌, ◌≤◌, length, take, Some, IfOk};
ghost use Rattle.std.specs.Int.{w32, w64};
ghost use Rattle.sd_base.specs.Reads.{GivesBy};
ghost use Rattle.proto_wire.specs.Fields.{field_view};
ghost use Rattle.proto_wire.specs.WireReading.{taken_at, fixed_at, varint_record, fixed64_record, bytes_record, group_record, fixed32_record, field_with, group_at};

use crate::fault::{CUT, STRAY_GROUP_END, TOO_DEEP, WireFault, fault};
use crate::field::{Body, Field};
use crate::tag::{Tag, WireType, next_tag};
use crate::varint::varint_of;
use sd_base::{split_bytes, split_u32, split_u64};

// So many bytes, and what is after them.
#[tactic(auto, unfolding(crate::specs::WireReading::taken_at))]
fn take(at: u32, count: u64, bytes: &[u8]) -> Result<(&[u8], &[u8]), WireFault>
    ensures taken { GivesBy Some (λ x. (x.0.now, x.1.now)) result (taken_at at count bytes.now) }
    ensures shorter { IfOk result (λ x. length x.1.now ≤ length bytes.now) }
{
    split_bytes(bytes, count).ok_or(fault(at, CUT))
}

// A field that holds a number as a varint, and what is after it.
fn varint_field<'a>(
    number: u32,
    at: u32,
    bytes: &'a [u8],
    end: u32,
) -> Result<(Field<'a>, &'a [u8]), WireFault>
    requires { length bytes.now ≤ end }
    ensures field { GivesBy Some (λ x. (field_view x.0, x.1.now)) result
        (varint_record end at number bytes.now) }
    ensures shorter { IfOk result (λ x. length x.1.now ≤ length bytes.now) }
{
    let payload_at = end - bytes.len() as u32;
    let (value, after) = varint_of(at, bytes)?;
    let body = Body::Varint(value);
    Ok((
        Field {
            number,
            at,
            payload_at,
            body,
        },
        after,
    ))
}

// A field that holds a number in eight bytes, and what is after it.
fn fixed64_field<'a>(
    number: u32,
    at: u32,
    bytes: &'a [u8],
    end: u32,
) -> Result<(Field<'a>, &'a [u8]), WireFault>
    requires { length bytes.now ≤ end }
    ensures field { GivesBy Some (λ x. (field_view x.0, x.1.now)) result
        (fixed64_record end at number bytes.now) }
    ensures shorter { IfOk result (λ x. length x.1.now ≤ length bytes.now) }
{
    let payload_at = end - bytes.len() as u32;
    let (value, after) = split_u64(bytes).ok_or(fault(at, CUT))?;
    let body = Body::Fixed64(value);
    Ok((
        Field {
            number,
            at,
            payload_at,
            body,
        },
        after,
    ))
}

// A field that holds counted bytes, and what is after it.
fn bytes_field<'a>(
    number: u32,
    at: u32,
    bytes: &'a [u8],
    end: u32,
) -> Result<(Field<'a>, &'a [u8]), WireFault>
    requires { length bytes.now ≤ end }
    ensures field { GivesBy Some (λ x. (field_view x.0, x.1.now)) result
        (bytes_record end at number bytes.now) }
    ensures shorter { IfOk result (λ x. length x.1.now ≤ length bytes.now) }
{
    let (count, counted) = varint_of(at, bytes)?;
    let payload_at = end - counted.len() as u32;
    let (payload, after) = take(at, count, counted)?;
    let body = Body::Bytes(payload);
    Ok((
        Field {
            number,
            at,
            payload_at,
            body,
        },
        after,
    ))
}

// A field that holds a number in four bytes, and what is after it.
fn fixed32_field<'a>(
    number: u32,
    at: u32,
    bytes: &'a [u8],
    end: u32,
) -> Result<(Field<'a>, &'a [u8]), WireFault>
    requires { length bytes.now ≤ end }
    ensures field { GivesBy Some (λ x. (field_view x.0, x.1.now)) result
        (fixed32_record end at number bytes.now) }
    ensures shorter { IfOk result (λ x. length x.1.now ≤ length bytes.now) }
{
    let payload_at = end - bytes.len() as u32;
    let (value, after) = split_u32(bytes).ok_or(fault(at, CUT))?;
    let body = Body::Fixed32(value);
    Ok((
        Field {
            number,
            at,
            payload_at,
            body,
        },
        after,
    ))
}

/// The field of a tag, from what is after the tag, and what is after the field.
#[cycle(group)]
#[tactic(auto, unfolding(crate::specs::WireReading::field_with))]
pub fn field_of<'a>(
    tag: Tag,
    at: u32,
    bytes: &'a [u8],
    end: u32,
    levels: u32,
) -> Result<(Field<'a>, &'a [u8]), WireFault>
    requires { length bytes.now ≤ end }
    ensures field { GivesBy Some (λ x. (field_view x.0, x.1.now)) result
        (field_with (group_at end levels) end at tag.number tag.wire_type bytes.now) }
    ensures shorter { IfOk result (λ x. length x.1.now ≤ length bytes.now) }
{
    match tag.wire_type {
        WireType::Varint => varint_field(tag.number, at, bytes, end),
        WireType::Fixed64 => fixed64_field(tag.number, at, bytes, end),
        WireType::Bytes => bytes_field(tag.number, at, bytes, end),
        WireType::GroupStart => group_field(tag.number, at, bytes, end, levels),
        WireType::GroupEnd => Err(fault(at, STRAY_GROUP_END)),
        WireType::Fixed32 => fixed32_field(tag.number, at, bytes, end),
    }
}

// A field that holds the records of a group, and what is after it.
#[cycle(group)]
fn group_field<'a>(
    number: u32,
    at: u32,
    bytes: &'a [u8],
    end: u32,
    levels: u32,
) -> Result<(Field<'a>, &'a [u8]), WireFault>
    requires { length bytes.now ≤ end }
    ensures field { GivesBy Some (λ x. (field_view x.0, x.1.now)) result
        (group_record (group_at end levels) end at number bytes.now) }
    ensures shorter { IfOk result (λ x. length x.1.now ≤ length bytes.now) }
{
    let payload_at = end - bytes.len() as u32;
    let (group_end, after) = group_of(number, at, bytes, end, levels)?;
    let body = Body::Group(until(bytes, group_end));
    Ok((
        Field {
            number,
            at,
            payload_at,
            body,
        },
        after,
    ))
}

// What stands in front of a group's end, with which the second bytes begin.
fn until<'a>(bytes: &'a [u8], group_end: &[u8]) -> &'a [u8]
    requires { length group_end.now ≤ length bytes.now }
    ensures { result.now ≡ take (length bytes.now - length group_end.now) bytes.now }
{
    let (inside, _) = bytes.split_at(bytes.len() - group_end.len());
    inside
}

// Reads the records of the group that begins at `at`, from what is after its tag.
// What comes begins with the group's end, and then what is after that.
#[cycle(group)]
#[tactic(auto, unfolding(crate::specs::WireReading::group_at))]
fn group_of<'a>(
    number: u32,
    at: u32,
    bytes: &'a [u8],
    end: u32,
    levels: u32,
) -> Result<(&'a [u8], &'a [u8]), WireFault>
    requires { length bytes.now ≤ end }
    ensures ended { GivesBy Some (λ x. (x.0.now, x.1.now)) result
        (group_at end levels number at bytes.now) }
    ensures whole { IfOk result (λ x. length x.0.now ≤ length bytes.now) }
    ensures shorter { IfOk result (λ x. length x.1.now ≤ length x.0.now) }
{
    if levels == 0 {
        return Err(fault(at, TOO_DEEP));
    }
    let mut rest = bytes;
    while !rest.is_empty() {
        let here = end - rest.len() as u32;
        let (tag, after) = next_tag(here, rest)?;
        if tag.is_end_of(number) {
            return Ok((rest, after));
        }
        let (_, after) = field_of(tag, here, after, end, levels - 1)?;
        rest = after;
    }
    Err(fault(at, CUT))
}
