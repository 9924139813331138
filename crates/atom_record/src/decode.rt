//! From bytes to a value with its kind.
ghost use Rattle.sd_base.specs.Reads.{GivesBy};
ghost use Rattle.atom_record.specs.AtomReading.{reason_of};
ghost use Rattle.atom_record.specs.TypedValue.{typed_at};

use crate::fault::CUT;
use crate::parse::{Kind, value_of};
use crate::{AtomFault, Value};
use std::alloc::Global;

/// The value that bytes begin with, after the byte of its kind, and the bytes after it.
#[tactic(auto, unfolding(crate::specs::TypedValue::typed_at))]
pub fn decode_value(alloc: Global, bytes: &[u8]) -> Result<(Value, &[u8]), AtomFault>
    ensures { GivesBy reason_of (λ x. (x.0, x.1.now)) result (typed_at bytes.now) }
{
    let [number, rest @ ..] = bytes else {
        return Err(AtomFault::Bad(CUT));
    };
    let kind = Kind::of(*number)?;
    value_of(alloc, kind, rest)
}
