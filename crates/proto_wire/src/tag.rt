//! Tags: the number of a field, and how its payload is laid out.
ghost use Rattle.std.specs.Prelude.{◌≡◌, ◌<◌, length, Some, IfOk};
ghost use Rattle.sd_base.specs.Reads.{GivesBy};
ghost use Rattle.proto_wire.specs.WireReading.{tag_of, tag_at};

use crate::fault::{LONG_TAG, UNKNOWN_WIRE_TYPE, WireFault, ZERO_NUMBER, fault};
use crate::varint::varint_of;

/// How a payload is laid out.
#[derive(Clone, Copy, PartialEq, Eq)]
pub enum WireType {
    Varint,
    Fixed64,
    Bytes,
    GroupStart,
    GroupEnd,
    Fixed32,
}

impl WireType {
    ghost use Rattle.proto_wire.specs.WireTypes.{code_of, wire_type_of};

    // The wire type that this number stands for, of those that there are.
    fn with_code(code: u32) -> Option<WireType>
        ensures { result ≡ wire_type_of code }
    {
        match code {
            0 => Some(WireType::Varint),
            1 => Some(WireType::Fixed64),
            2 => Some(WireType::Bytes),
            3 => Some(WireType::GroupStart),
            4 => Some(WireType::GroupEnd),
            5 => Some(WireType::Fixed32),
            _ => None,
        }
    }

    /// The number that stands for it in a tag.
    pub fn code(self) -> u32
        ensures { result ≡ code_of self }
    {
        match self {
            WireType::Varint => 0,
            WireType::Fixed64 => 1,
            WireType::Bytes => 2,
            WireType::GroupStart => 3,
            WireType::GroupEnd => 4,
            WireType::Fixed32 => 5,
        }
    }
}

/// What stands in front of a payload.
#[derive(Clone, Copy)]
pub struct Tag {
    pub number: u32,
    pub wire_type: WireType,
}

// The tag that has this value, or its first fault.
#[tactic(auto, unfolding(crate::specs::WireReading::tag_of))]
fn judge(at: u32, value: u64) -> Result<Tag, WireFault>
    ensures { result ≡ tag_of at value }
{
    if value > u64::from(u32::MAX) {
        return Err(fault(at, LONG_TAG));
    }
    let number = (value / 8) as u32;
    if number == 0 {
        return Err(fault(at, ZERO_NUMBER));
    }
    match WireType::with_code((value % 8) as u32) {
        Some(wire_type) => Ok(Tag { number, wire_type }),
        None => Err(fault(at, UNKNOWN_WIRE_TYPE)),
    }
}

/// The tag in front, and what is after it.
#[tactic(auto, unfolding(crate::specs::WireReading::tag_at))]
pub fn next_tag(at: u32, bytes: &[u8]) -> Result<(Tag, &[u8]), WireFault>
    ensures tag { GivesBy Some (λ x. (x.0, x.1.now)) result (tag_at at bytes.now) }
    ensures shorter { IfOk result (λ x. length x.1.now < length bytes.now) }
{
    let (value, after) = varint_of(at, bytes)?;
    let tag = judge(at, value)?;
    Ok((tag, after))
}

impl Tag {
    ghost use Rattle.proto_wire.specs.WireReading.{ends};

    /// Whether this is the end of the group with that number.
    pub fn is_end_of(self, number: u32) -> bool
        ensures { result ≡ ends number self }
    {
        self.wire_type == WireType::GroupEnd && self.number == number
    }
}
