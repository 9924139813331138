//! Items of which one is changed, left out or doubled.
use super::saved::answer;
use atom_record::DimKey;
use flat_form::{Item, Items};
use sd_base::Duplicate;
use std::alloc::{AllocError, Global};
use test_tools::Tester;

/// What becomes of an item.
#[derive(Clone, Copy)]
pub enum How {
    LeftOut,
    Doubled,
    /// A number one above it, or 0 in the place of what isn't a number.
    Raised,
    /// A number one below it, or the greatest in the place of what isn't a number.
    Lowered,
    Number(u64),
    /// A key without leaves.
    NoLeaves,
}

/// Which item is bent, and how.
#[derive(Clone, Copy)]
pub struct Bend {
    pub place: usize,
    pub how: How,
}

impl Bend {
    /// What becomes of the item at a place, if anything does.
    fn at(self, place: usize) -> Option<How> {
        if place == self.place {
            Some(self.how)
        } else {
            None
        }
    }
}

/// What becomes of each item in turn. 8 is no number of a kind of lanes.
const HOWS: &[How] = &[
    How::LeftOut,
    How::Doubled,
    How::Raised,
    How::Lowered,
    How::Number(0),
    How::Number(8),
    How::Number(1 << 63),
    How::NoLeaves,
];

/// Bends each of some items, one at a time: nothing is built of them, or what has these items.
pub fn bend_each(
    alloc: Global,
    tester: &mut Tester,
    config: &[u8],
    items: &Items,
) -> Result<(), AllocError> {
    for place in 0..items.len() {
        bend_at(alloc, tester, config, items, place)?;
    }
    Ok(())
}

fn bend_at(
    alloc: Global,
    tester: &mut Tester,
    config: &[u8],
    items: &Items,
    place: usize,
) -> Result<(), AllocError> {
    for &how in HOWS {
        let found = answer_bent(alloc, config, items, Bend { place, how })?;
        tester.case();
        tester.holds(found, found == "bad" || found == "built")?;
    }
    Ok(())
}

/// What is built where an item is bent.
pub fn answer_bent(
    alloc: Global,
    config: &[u8],
    items: &Items,
    bend: Bend,
) -> Result<&'static str, AllocError> {
    let items = bent(alloc, items, bend)?;
    answer(alloc, config, &items)
}

/// Items of which one is bent.
fn bent(alloc: Global, items: &Items, bend: Bend) -> Result<Items, AllocError> {
    let mut new = Items::new(alloc);
    for place in 0..items.len() {
        if let Some(item) = items.at(place)? {
            push_with(alloc, &mut new, item, bend.at(place))?;
        }
    }
    Ok(new)
}

fn push_with(
    alloc: Global,
    new: &mut Items,
    item: Item,
    how: Option<How>,
) -> Result<(), AllocError> {
    match how {
        Some(how) => push_bent(alloc, new, item, how),
        None => new.push(item),
    }
}

fn push_bent(alloc: Global, new: &mut Items, item: Item, how: How) -> Result<(), AllocError> {
    match how {
        How::LeftOut => Ok(()),
        How::Doubled => {
            new.push(item.duplicate(alloc)?)?;
            new.push(item)
        }
        How::Raised => new.push(Item::Num(number_of(&item, u64::MAX).wrapping_add(1))),
        How::Lowered => new.push(Item::Num(number_of(&item, 0).wrapping_sub(1))),
        How::Number(number) => new.push(Item::Num(number)),
        How::NoLeaves => new.push(Item::Dims(DimKey::new(alloc))),
    }
}

/// The number that an item is, or another one where it is none.
fn number_of(item: &Item, other: u64) -> u64 {
    match item {
        Item::Num(number) => *number,
        _ => other,
    }
}
