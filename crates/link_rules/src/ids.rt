//! Ids: each entity has one, and no two of a kind have the same.
ghost use Rattle.std.specs.Prelude.{◌≡◌, ◌<◌, ◌≤◌, ◌^◌, map, length};
ghost use Rattle.link_rules.specs.LinkFaults.{Links};
ghost use Rattle.link_rules.specs.EntityIds.{set_ids, no_id_in, duplicate_in, no_id_fault};

use crate::entities::Entities;
use crate::entity::Entity;
use crate::fault::{
    ALERT, DUPLICATE_ID, LinkError, LinkFault, MATCHER, METRIC, NO_ID, PREDICATE, STATE,
};
use crate::known::Known;
use std::alloc::Global;

/// The first entity of a kind that has no id.
fn find_missing_id<E: Entity>(kind: u8, entities: &[E]) -> Option<LinkFault>
    requires { length entities.now < 2 ^ 63 }
    ensures { result ≡ no_id_in kind (map E.id entities.now) }
{
    for (place, entity) in entities.iter().enumerate() {
        if entity.given_id().is_none() {
            return Some(LinkFault {
                number: NO_ID,
                reason: kind,
                value: place as i64,
            });
        }
    }
    None
}

/// The first entity that has no id.
#[tactic(auto, unfolding(crate::specs::EntityIds::no_id_fault))]
pub fn judge_missing_ids(entities: &Entities) -> Option<LinkFault>
    ensures { result ≡ no_id_fault entities.now }
{
    find_missing_id(MATCHER, entities.matchers.as_slice())
        .or_else(|| find_missing_id(PREDICATE, entities.predicates.as_slice()))
        .or_else(|| find_missing_id(STATE, entities.states.as_slice()))
        .or_else(|| find_missing_id(METRIC, entities.metrics.as_slice()))
        .or_else(|| find_missing_id(ALERT, entities.alerts.as_slice()))
}

/// The ids of a kind, in config order, or the first that stood before.
pub fn ids_of<E: Entity>(alloc: Global, kind: u8, entities: &[E]) -> Result<Known, LinkError>
    requires { length entities.now ≤ 800 }
    ensures { Links result (duplicate_in kind (map E.id entities.now))
        (set_ids (map E.id entities.now)) }
{
    let mut ids = Known::new(alloc);
    for entity in entities {
        if let Some(id) = entity.given_id()
            && !ids.add(id)?
        {
            return Err(LinkError::Fault(LinkFault {
                number: DUPLICATE_ID,
                reason: kind,
                value: id,
            }));
        }
    }
    Ok(ids)
}
