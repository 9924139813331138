//! Items of a hub that are bent, or put under other ids.
use super::judges::Counting;
use super::session::count_words;
use super::tried::Tried;
use flat_form::{FlatError, Item, Items};
use hub_core::Hub;
use sd_base::{Duplicate, Seq};
use std::alloc::{AllocError, Global};
use test_tools::{Tester, unsigned};

/// The items one by one.
fn list_of(alloc: Global, items: &Items) -> Result<Seq<Item>, AllocError> {
    let mut list = Seq::new(alloc);
    for place in 0..items.len() {
        if let Some(item) = items.at(place)? {
            list.push(item)?;
        }
    }
    Ok(list)
}

/// Whether both have the same items.
pub fn are_same(alloc: Global, one: &Items, other: &Items) -> Result<bool, AllocError> {
    Ok(list_of(alloc, one)? == list_of(alloc, other)?)
}

/// The items of the hub of some items, if there is one.
fn saved_again<J: Counting>(alloc: Global, items: &Items) -> Result<Option<Items>, AllocError> {
    match Hub::build(alloc, J::fresh(), items) {
        Ok(hub) => some_items(alloc, &hub),
        Err(FlatError::Bad) => Ok(None),
        Err(FlatError::Memory) => Err(AllocError),
    }
}

/// The items of a hub that there is.
fn some_items<J: Counting>(alloc: Global, hub: &Hub<J>) -> Result<Option<Items>, AllocError> {
    Ok(Some(hub.flatten(alloc)?))
}

/// What becomes of an item.
#[derive(Clone, Copy)]
enum How {
    LeftOut,
    Doubled,
    Other,
}

/// What becomes of each item in turn.
const HOWS: &[How] = &[How::LeftOut, How::Doubled, How::Other];

/// Which item is bent, and how.
#[derive(Clone, Copy)]
struct Bend {
    place: usize,
    how: How,
}

/// Bends each item of the hub: no hub has the items then, or one has just these.
pub fn compare_bent<J: Counting>(
    alloc: Global,
    tester: &mut Tester,
    tried: &Tried<J>,
) -> Result<(), AllocError> {
    let items = list_of(alloc, &tried.items(alloc)?)?;
    bend_each::<J>(alloc, tester, items.as_slice())
}

fn bend_each<J: Counting>(
    alloc: Global,
    tester: &mut Tester,
    items: &[Item],
) -> Result<(), AllocError> {
    for place in 0..items.len() {
        bend_at::<J>(alloc, tester, items, place)?;
    }
    Ok(())
}

fn bend_at<J: Counting>(
    alloc: Global,
    tester: &mut Tester,
    items: &[Item],
    place: usize,
) -> Result<(), AllocError> {
    for &how in HOWS {
        tester.case();
        compare_bend::<J>(alloc, tester, items, Bend { place, how })?;
    }
    Ok(())
}

fn compare_bend<J: Counting>(
    alloc: Global,
    tester: &mut Tester,
    items: &[Item],
    bend: Bend,
) -> Result<(), AllocError> {
    let bent = bent(alloc, items, bend)?;
    compare_built::<J>(alloc, tester, &bent)
}

/// No hub has these items, or it is saved as just these.
fn compare_built<J: Counting>(
    alloc: Global,
    tester: &mut Tester,
    items: &Items,
) -> Result<(), AllocError> {
    let Some(again) = saved_again::<J>(alloc, items)? else {
        return Ok(());
    };
    tester.holds(
        "that what is built is saved alike",
        are_same(alloc, &again, items)?,
    )
}

/// Items of which one is bent.
fn bent(alloc: Global, items: &[Item], bend: Bend) -> Result<Items, AllocError> {
    let mut all = Items::new(alloc);
    push_with(alloc, &mut all, items, bend)?;
    Ok(all)
}

fn push_with(alloc: Global, all: &mut Items, items: &[Item], bend: Bend) -> Result<(), AllocError> {
    for (place, item) in items.iter().enumerate() {
        if place == bend.place {
            push_bent(alloc, all, item, bend.how)?;
        } else {
            push_copy(alloc, all, item)?;
        }
    }
    Ok(())
}

fn push_bent(alloc: Global, all: &mut Items, item: &Item, how: How) -> Result<(), AllocError> {
    match how {
        How::LeftOut => Ok(()),
        How::Doubled => {
            push_copy(alloc, all, item)?;
            push_copy(alloc, all, item)
        }
        How::Other => all.push(other(alloc, item)?),
    }
}

/// Another item: the next number, bytes with one more, and a number where it is something else.
fn other(alloc: Global, item: &Item) -> Result<Item, AllocError> {
    match item {
        Item::Num(number) => Ok(Item::Num(number.wrapping_add(1))),
        Item::Chunk(bytes) => longer(alloc, bytes),
        _ => Ok(Item::Num(7)),
    }
}

fn longer(alloc: Global, bytes: &Seq<u8>) -> Result<Item, AllocError> {
    let mut more = bytes.duplicate(alloc)?;
    more.push(255)?;
    Ok(Item::Chunk(more))
}

fn push_copy(alloc: Global, all: &mut Items, item: &Item) -> Result<(), AllocError> {
    all.push(item.duplicate(alloc)?)
}

/// How many items a hub has before the number of what is live, where its books are empty: its moment, and three of each
/// book.
const HEAD: usize = 8;

/// Puts the one configuration of the hub under some ids, in order, and tells where a hub has those items and shouldn't,
/// or none has them and one should.
pub fn compare_ids<J: Counting>(
    alloc: Global,
    tester: &mut Tester,
    tried: &Tried<J>,
    text: &str,
) -> Result<(), AllocError> {
    let items = list_of(alloc, &tried.items(alloc)?)?;
    compare_under::<J>(alloc, tester, items.as_slice(), text)
}

fn compare_under<J: Counting>(
    alloc: Global,
    tester: &mut Tester,
    items: &[Item],
    text: &str,
) -> Result<(), AllocError> {
    let (wanted, ids) = text.split_once(' ').unwrap_or((text, ""));
    let all = under_ids(alloc, items, ids)?;
    tester.case();
    compare_whether_built::<J>(alloc, tester, &all, wanted == "good")
}

fn compare_whether_built<J: Counting>(
    alloc: Global,
    tester: &mut Tester,
    items: &Items,
    wanted: bool,
) -> Result<(), AllocError> {
    let is_built = saved_again::<J>(alloc, items)?.is_some();
    tester.holds("what is built", is_built == wanted)
}

/// The items of a hub with its one configuration under each of these ids.
fn under_ids(alloc: Global, items: &[Item], ids: &str) -> Result<Items, AllocError> {
    let mut all = Items::new(alloc);
    push_under_ids(alloc, &mut all, items, ids)?;
    Ok(all)
}

fn push_under_ids(
    alloc: Global,
    all: &mut Items,
    items: &[Item],
    ids: &str,
) -> Result<(), AllocError> {
    push_all(alloc, all, items.get(..HEAD).unwrap_or(&[]))?;
    all.push(Item::Num(count_words(ids)))?;
    for id in ids.split(' ') {
        push_under(alloc, all, items, unsigned(id).unwrap_or(0))?;
    }
    Ok(())
}

/// The configuration: its client, this id, its bytes and its instance.
fn push_under(alloc: Global, all: &mut Items, items: &[Item], id: u64) -> Result<(), AllocError> {
    push_all(alloc, all, items.get(HEAD + 1..HEAD + 2).unwrap_or(&[]))?;
    all.push(Item::Num(id))?;
    push_all(alloc, all, items.get(HEAD + 3..).unwrap_or(&[]))
}

fn push_all(alloc: Global, all: &mut Items, items: &[Item]) -> Result<(), AllocError> {
    for item in items {
        push_copy(alloc, all, item)?;
    }
    Ok(())
}
