//! Numbers of varying length.
ghost use Rattle.std.specs.Prelude.{◌≡◌, ◌<◌, ◌%◌, ◌^◌, length, nat_lt, position, Some, IfSome, IfOk};
ghost use Rattle.sd_base.specs.Reads.{GivesBy};
ghost use Rattle.proto_wire.specs.WireReading.{varint_at, groups_value};

use crate::fault::{CUT, LONG_VARINT, WireFault, fault};

/// The longest varint.
const MAX_LEN: usize = 10;

// The number of these groups of seven bits, the low group first. Bits past the 64th are dropped.
fn value_of(groups: &[u8]) -> u64
    ensures { result ≡ groups_value groups.now % 2 ^ 64 }
{
    let mut value: u64 = 0;
    for byte in groups.iter().rev() {
        value = value.wrapping_mul(128) + u64::from(*byte % 128);
    }
    value
}

// Where the first byte stands whose high bit isn't set, if there is one.
fn last_of(bytes: &[u8]) -> Option<usize>
    ensures place { result ≡ position (λ byte. nat_lt byte 128) bytes.now }
    ensures within { IfSome result (λ last. last < length bytes.now) }
{
    bytes.iter().position(|byte| *byte < 128)
}

/// The varint in front, and what is after it. A fault is told of the record that begins at `at`.
#[tactic(auto, unfolding(crate::specs::WireReading::varint_at))]
pub fn varint_of(at: u32, bytes: &[u8]) -> Result<(u64, &[u8]), WireFault>
    ensures number { GivesBy Some (λ x. (x.0, x.1.now)) result (varint_at at bytes.now) }
    ensures shorter { IfOk result (λ x. length x.1.now < length bytes.now) }
{
    match last_of(&bytes[..MAX_LEN.min(bytes.len())]) {
        Some(last) => {
            let (groups, after) = bytes.split_at(last + 1);
            Ok((value_of(groups), after))
        }
        None if bytes.len() < MAX_LEN => Err(fault(at, CUT)),
        None => Err(fault(at, LONG_VARINT)),
    }
}
