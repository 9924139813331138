//! States.
ghost use Rattle.std.specs.Prelude.{◌≡◌, IfOk};
ghost use Rattle.std.specs.Option.{option_map};
ghost use Rattle.config_decode.specs.FieldNumbers.{state_map};
ghost use Rattle.config_decode.specs.Tree as tree;
ghost use Rattle.config_decode.specs.Values as values;

use crate::message::Message;
use crate::numbers;
use crate::tree::{FromMessage, repeated};
use config_types::{GroupDef, StateDef};
use sd_base::Seq;
use std::alloc::{AllocError, Global};

impl FromMessage for GroupDef {
    ghost use Rattle.config_decode.specs.Tree.{state_group_of};

    ghost tree = { state_group_of };

    fn from_message(alloc: Global, message: &Message<'_>) -> Result<GroupDef, AllocError> {
        Ok(GroupDef {
            group: message.read_scalar(numbers::STATE_GROUP_ID),
            values: message.read_scalars(alloc, numbers::STATE_GROUP_VALUE)?,
        })
    }
}

impl FromMessage for StateDef {
    ghost use Rattle.config_decode.specs.Tree.{state_of};

    ghost tree = { state_of };

    fn from_message(alloc: Global, message: &Message<'_>) -> Result<StateDef, AllocError> {
        Ok(StateDef {
            id: message.read_scalar(numbers::STATE_ID),
            atom_id: message.read_scalar(numbers::STATE_ATOM_ID),
            map: groups(alloc, message)?,
        })
    }
}

// The groups of a state, if it has a map.
fn groups(alloc: Global, state: &Message<'_>) -> Result<Option<Seq<GroupDef>>, AllocError>
    ensures { IfOk result (λ read.
        read ≡ option_map tree.state_groups_of (values.message state_map state.now)) }
{
    match state.read_message(alloc, numbers::STATE_MAP)? {
        Some(map) => Ok(Some(repeated(alloc, &map, numbers::STATE_MAP_GROUP)?)),
        None => Ok(None),
    }
}
