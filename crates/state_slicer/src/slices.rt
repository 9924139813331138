//! The slice by a state.
ghost use Rattle.std.specs.Prelude.{◌≡◌};
ghost use Rattle.std.specs.List.{find};
ghost use Rattle.std.specs.Option.{option_copied};
ghost use Rattle.state_slicer.specs.Slices.{slice_of, lists_value};

use atom_record::Slice;
use config_links::{LGroup, LState};

// The slice of a value that no group lists.
const NO_GROUP: i32 = -1;

// Whether a group lists a value.
fn has_value(group: &LGroup, value: i32) -> bool
    ensures { result ≡ lists_value value group.now }
{
    group
        .values
        .as_slice()
        .iter()
        .any(|listed| *listed == value)
}

// The first of these groups that lists a value.
fn first_group(groups: &[LGroup], value: i32) -> Option<&LGroup>
    ensures { option_copied result ≡ find (lists_value value) groups.now }
{
    for group in groups {
        if has_value(group, value) {
            return Some(group);
        }
    }
    None
}

/// What a metric that is sliced by a state shows of the state's value: the value itself, or the first group that lists
/// it. A value that no group lists shows as -1.
pub fn slice(state: &LState, value: i32) -> Slice
    ensures { result ≡ slice_of state.now value }
{
    let atom_id = state.atom_id;
    let Some(groups) = &state.map else {
        return Slice::Plain { atom_id, value };
    };
    match first_group(groups.as_slice(), value) {
        Some(group) => Slice::Group {
            atom_id,
            group: group.group,
        },
        None => Slice::Plain {
            atom_id,
            value: NO_GROUP,
        },
    }
}
