//! Hubs that are saved and built again, and what a saved one takes.
use super::bends::are_same;
use super::judges::Counting;
use super::session::{Size, Step, session};
use super::tried::Tried;
use flat_form::{FlatError, Items, spelled_len};
use hub_core::Hub;
use matcher_eval::FieldJudge;
use std::alloc::{AllocError, Global};
use test_tools::{Row, Tester, unsigned};

/// Saves the hub, and puts the one that is built in its place.
pub fn save<J: Counting>(
    alloc: Global,
    tester: &mut Tester,
    tried: &mut Tried<J>,
) -> Result<(), AllocError> {
    let items = tried.items(alloc)?;
    go_on_as(alloc, tester, tried, &items)
}

/// Puts the hub of its items in its place, which is saved alike.
fn go_on_as<J: Counting>(
    alloc: Global,
    tester: &mut Tester,
    tried: &mut Tried<J>,
    items: &Items,
) -> Result<(), AllocError> {
    let is_built = put_built(alloc, tried, items)?;
    tester.holds("that a hub that was saved is built", is_built)?;
    compare_items(alloc, tester, tried, items)
}

/// Puts the hub of these items in the place of the one that is there. Answers whether there is one.
fn put_built<J: Counting>(
    alloc: Global,
    tried: &mut Tried<J>,
    items: &Items,
) -> Result<bool, AllocError> {
    match Hub::build(alloc, J::fresh(), items) {
        Ok(hub) => {
            tried.put(hub);
            Ok(true)
        }
        Err(FlatError::Bad) => Ok(false),
        Err(FlatError::Memory) => Err(AllocError),
    }
}

/// Compares the items of a hub.
fn compare_items<J: Counting>(
    alloc: Global,
    tester: &mut Tester,
    tried: &Tried<J>,
    items: &Items,
) -> Result<(), AllocError> {
    let again = tried.items(alloc)?;
    tester.holds(
        "that the built hub is saved alike",
        are_same(alloc, &again, items)?,
    )
}

/// Compares the length of the saved form of the hub with a number: it is no more, where it is to be within, or more.
pub fn compare_len<J: Counting>(
    alloc: Global,
    tester: &mut Tester,
    tried: &Tried<J>,
    is_within: bool,
    text: &str,
) -> Result<(), AllocError> {
    let Some(bound) = unsigned(text) else {
        return tester.differs("no number", text);
    };
    tester.case();
    let len = saved_len(alloc, tried)?;
    tester.holds("the length of the saved form", is_within == (len <= bound))
}

/// How many bytes the saved form of the hub has.
fn saved_len<J: Counting>(alloc: Global, tried: &Tried<J>) -> Result<u64, AllocError> {
    let items = tried.items(alloc)?;
    Ok(spelled_len(&items))
}

/// A session that a hub takes while it is saved and built after each frame. It may be caught up before.
#[derive(Clone, Copy)]
struct Cuts<'a> {
    steps: &'a [Step],
    settles: bool,
}

/// Compares the replies of a hub that takes a session by chance with those of one that is saved and built after each
/// frame, and how often both judges were asked. One is caught up before, where the numbers end with `settle`.
pub fn compare_saved(
    alloc: Global,
    tester: &mut Tester,
    row: &Row<'_>,
    text: &str,
) -> Result<(), AllocError> {
    let (numbers, settles) = match text.strip_suffix(" settle") {
        Some(numbers) => (numbers, true),
        None => (text, false),
    };
    let Some(size) = Size::of(numbers) else {
        return tester.differs("no numbers", text);
    };
    let Some(steps) = session(alloc, tester, row, size)? else {
        return Ok(());
    };
    let cuts = Cuts {
        steps: steps.as_slice(),
        settles,
    };
    run_saved(alloc, tester, cuts)
}

/// Gives the session to a hub that isn't cut, and to one that is.
fn run_saved(alloc: Global, tester: &mut Tester, cuts: Cuts<'_>) -> Result<(), AllocError> {
    let mut whole = Tried::new(alloc, FieldJudge::new())?;
    run_beside(alloc, tester, cuts, &mut whole)
}

/// Gives it to this hub, which isn't cut, and to one that is.
fn run_beside(
    alloc: Global,
    tester: &mut Tester,
    cuts: Cuts<'_>,
    whole: &mut Tried<FieldJudge>,
) -> Result<(), AllocError> {
    let mut cut = Tried::new(alloc, FieldJudge::new())?;
    run_both(alloc, tester, cuts, whole, &mut cut)
}

/// Gives it to both hubs, of which the second one is cut.
fn run_both(
    alloc: Global,
    tester: &mut Tester,
    cuts: Cuts<'_>,
    whole: &mut Tried<FieldJudge>,
    cut: &mut Tried<FieldJudge>,
) -> Result<(), AllocError> {
    for step in cuts.steps {
        tester.case();
        compare_step(alloc, tester, whole, cut, step)?;
        if cuts.settles {
            cut.settle()?;
        }
        save(alloc, tester, cut)?;
    }
    Ok(())
}

/// Gives both hubs a frame, and compares what they answer.
fn compare_step(
    alloc: Global,
    tester: &mut Tester,
    whole: &mut Tried<FieldJudge>,
    cut: &mut Tried<FieldJudge>,
    step: &Step,
) -> Result<(), AllocError> {
    whole.take_anew(alloc, &step.bytes)?;
    cut.take_anew(alloc, &step.bytes)?;
    tester.same_bytes("replies", whole.new_replies(), cut.new_replies())?;
    tester.same_number("questions", whole.asked(), cut.asked())
}
