//! An instance as items, and what is built of items.
ghost use Rattle.std.specs.Prelude.{IfSome};
ghost use Rattle.config_links.specs.SoundConfig.{IsSoundConfig};

use client_engine::Instance;
use config_decode::decode;
use config_links::{Linked, link};
use flat_form::{FlatError, Items};
use std::alloc::{AllocError, Global};

/// The most bytes of a row's configuration.
const MOST_BYTES: usize = 2_000;

/// The linked form of a configuration of the client 10, if it has no fault and isn't too long.
pub fn linked_of(alloc: Global, config: &[u8]) -> Option<Linked>
    ensures { IfSome result IsSoundConfig }
{
    if config.len() > MOST_BYTES {
        return None;
    }
    let Ok(config) = decode(alloc, config) else {
        return None;
    };
    match link(alloc, config, 10) {
        Ok(linked) => Some(linked),
        Err(_) => None,
    }
}

/// The items of an instance.
pub fn items_of(alloc: Global, instance: &Instance) -> Result<Items, AllocError> {
    let mut items = Items::new(alloc);
    instance.flatten(alloc, &mut items)?;
    Ok(items)
}

/// An instance that is saved and built again, or none where one of both fails.
pub fn again(alloc: Global, config: &[u8], old: &Option<Instance>) -> Option<Instance> {
    let Some(instance) = old else {
        return None;
    };
    let Ok(items) = items_of(alloc, instance) else {
        return None;
    };
    match built(alloc, config, &items) {
        Ok((instance, _next)) => Some(instance),
        Err(_) => None,
    }
}

/// The instance of a configuration whose items stand first, and the place after them.
fn built(alloc: Global, config: &[u8], items: &Items) -> Result<(Instance, usize), FlatError> {
    let Some(linked) = linked_of(alloc, config) else {
        return Err(FlatError::Bad);
    };
    Instance::build(alloc, linked, items, 0)
}

/// What is built of items for a configuration: `bad`, or `built` where the items of what is built stand there.
pub fn answer(alloc: Global, config: &[u8], items: &Items) -> Result<&'static str, AllocError> {
    match built(alloc, config, items) {
        Ok((instance, next)) => compared(alloc, &instance, items, next),
        Err(FlatError::Bad) => Ok("bad"),
        Err(FlatError::Memory) => Ok("want of memory"),
    }
}

/// Whether the items of an instance are those up to a place.
fn compared(
    alloc: Global,
    instance: &Instance,
    items: &Items,
    next: usize,
) -> Result<&'static str, AllocError> {
    let own = items_of(alloc, instance)?;
    if own.len() == next && are_first(&own, items)? {
        return Ok("built");
    }
    Ok("other items")
}

/// Whether these items are the first of others.
fn are_first(own: &Items, items: &Items) -> Result<bool, AllocError> {
    for place in 0..own.len() {
        if own.at(place)? != items.at(place)? {
            return Ok(false);
        }
    }
    Ok(true)
}
