//! States, linked.
ghost use Rattle.std.specs.Prelude.{◌≡◌, map, Some, None, if◌then◌else◌, IfOk};
ghost use Rattle.std.specs.Option.{option_map};
ghost use Rattle.field_select.specs.WellFormed.{number_or_zero};
ghost use Rattle.link_rules.specs.LinkFaults.{Links, first_in};
ghost use Rattle.config_links.specs.LinkReasons.{names_atom, bad_state};
ghost use Rattle.config_links.specs.LinkedForm.{linked_group, linked_state};

use crate::reasons::{Reason, make_fault};
use crate::{LGroup, LState};
use config_types::{GroupDef, StateDef};
use link_rules::LinkError;
use sd_base::Seq;
use std::alloc::{AllocError, Global};

// The groups of a state, linked.
fn groups_in(alloc: Global, defs: Seq<GroupDef>) -> Result<Seq<LGroup>, AllocError>
    ensures { IfOk result (λ groups. groups ≡ map linked_group defs) }
{
    let mut groups = Seq::new(alloc);
    for def in defs.into_vec() {
        groups.push(LGroup {
            group: def.group.unwrap_or(0),
            values: def.values,
        })?;
    }
    Ok(groups)
}

// The map of a state, linked, where it has one.
fn map_in(alloc: Global, defs: Option<Seq<GroupDef>>) -> Result<Option<Seq<LGroup>>, AllocError>
    ensures { IfOk result (λ linked. linked ≡ option_map (map linked_group) defs) }
{
    match defs {
        None => Ok(None),
        Some(defs) => Ok(Some(groups_in(alloc, defs)?)),
    }
}

// The id of an atom as a number.
fn atom_in(id: Option<i32>) -> Option<u32>
    ensures { result ≡ (if names_atom id then Some (number_or_zero id) else None) }
{
    match id {
        Some(id) if id > 0 => Some(id as u32),
        _ => None,
    }
}

// A state, linked, or its reason.
fn state_in(alloc: Global, def: StateDef) -> Result<LState, LinkError>
    ensures { Links result (bad_state def) (linked_state def) }
{
    let Some(atom_id) = atom_in(def.atom_id) else {
        return Err(LinkError::Fault(make_fault(def.id, Reason::NoAtom)));
    };
    let map = map_in(alloc, def.map)?;
    Ok(LState { atom_id, map })
}

/// The states, linked, or the first reason.
pub fn states_in(alloc: Global, defs: Seq<StateDef>) -> Result<Seq<LState>, LinkError>
    ensures { Links result (first_in bad_state defs) (map linked_state defs) }
{
    let mut states = Seq::new(alloc);
    for def in defs.into_vec() {
        states.push(state_in(alloc, def)?)?;
    }
    Ok(states)
}
