//! Producers that are built again from their items, and items that are those of none.
use flat_form::{Flat, FlatError, Item, Items, rebuild};
use sd_base::Seq;
use std::alloc::{AllocError, Global};
use test_tools::unsigned;

/// What stands in place of an item.
#[derive(Clone, Copy)]
pub enum Other {
    /// A number.
    Number(u64),
    /// A copy of the item at a place.
    CopyOf(usize),
}

/// A place with what stands there, as `3=7` for a number, or as `9=@7` for a copy.
pub fn change_of(text: &str) -> Option<(usize, Other)> {
    let (place, other) = text.split_once('=')?;
    let place = place.parse::<usize>().ok()?;
    match other.strip_prefix("@") {
        Some(from) => Some((place, Other::CopyOf(from.parse::<usize>().ok()?))),
        None => Some((place, Other::Number(unsigned(other)?))),
    }
}

/// A producer is built from its items, and goes on as what was built.
pub fn go_on<P: Flat + Drop>(
    alloc: Global,
    shown: &mut String,
    producer: &mut P,
) -> Result<(), AllocError> {
    match rebuild(alloc, &*producer) {
        Ok(built) => {
            *producer = built;
            Ok(())
        }
        Err(FlatError::Bad) => shown.push_str("not built "),
        Err(FlatError::Memory) => Err(AllocError),
    }
}

/// Tells whether a producer is built where another item stands at a place.
pub fn try_other<P: Flat + Drop>(
    alloc: Global,
    shown: &mut String,
    producer: &P,
    place: usize,
    other: Other,
) -> Result<(), AllocError> {
    let mut items = Items::new(alloc);
    producer.flatten(alloc, &mut items)?;
    let changed = with_other(alloc, &items, place, other)?;
    match P::build(alloc, &changed, 0) {
        Ok(_) => shown.push_str("built "),
        Err(FlatError::Bad) => shown.push_str("refused "),
        Err(FlatError::Memory) => Err(AllocError),
    }
}

/// Items with another one at a place.
fn with_other(
    alloc: Global,
    items: &Items,
    place: usize,
    other: Other,
) -> Result<Items, AllocError> {
    let mut changed = Items::new(alloc);
    for at in 0..items.len() {
        let item = if at == place {
            other_item(alloc, items, other)?
        } else {
            copied(alloc, items, at)?
        };
        changed.push(item)?;
    }
    Ok(changed)
}

fn other_item(alloc: Global, items: &Items, other: Other) -> Result<Item, AllocError> {
    match other {
        Other::Number(number) => Ok(Item::Num(number)),
        Other::CopyOf(from) => copied(alloc, items, from),
    }
}

/// A copy of the item at a place, which is a number or a part of a key. No other comes.
fn copied(alloc: Global, items: &Items, place: usize) -> Result<Item, AllocError> {
    match items.at(place)? {
        Some(item) => Ok(item),
        None => Ok(Item::Slices(Seq::new(alloc))),
    }
}
