//! Places in lists under keys: what hangs on a key is found without looking at what doesn't.
ghost use Rattle.std.specs.Prelude.{◌≡◌, ◌<◌, ◌^◌, ◌++◌, [], true, length, if◌then◌else◌, OnOk};
ghost use Rattle.metric_meaning.specs.Histories.{truth_at};
ghost use Rattle.known_conditions.specs.Lists.{stands_under, KeepsListed, IsListedUnder, places_under};

use crate::matched::is_true_from;
use sd_base::Seq;
use std::alloc::{AllocError, Global};

/// Lists a place under each of these keys.
pub fn list_under(
    alloc: Global,
    lists: &mut Vec<Seq<usize>>,
    keys: &[u32],
    place: usize,
) -> Result<(), AllocError>
    ensures kept { OnOk result (KeepsListed lists.old.items lists.new.items) }
    ensures listed { OnOk result (IsListedUnder lists.new.items keys.now place) }
{
    for turn in 0..keys.len() {
        list_at(alloc, lists, keys[turn], place)?;
    }
    Ok(())
}

// Lists a place under a key.
fn list_at(
    alloc: Global,
    lists: &mut Vec<Seq<usize>>,
    key: u32,
    place: usize,
) -> Result<(), AllocError>
    ensures kept { OnOk result (KeepsListed lists.old.items lists.new.items) }
    ensures listed { OnOk result (stands_under lists.new.items key place ≡ true) }
{
    make_room(alloc, lists, key as usize)?;
    lists[key as usize].push(place)
}

// Makes empty lists, as far as there is none at this place.
fn make_room(alloc: Global, lists: &mut Vec<Seq<usize>>, key: usize) -> Result<(), AllocError>
    requires { key < 2 ^ 32 }
    ensures kept { OnOk result (KeepsListed lists.old.items lists.new.items) }
    ensures room { OnOk result (key < length lists.new.items) }
{
    for _turn in lists.len()..key + 1 {
        lists.push(Seq::new(alloc))?;
    }
    Ok(())
}

/// Finds the places under the matchers that hold, in the room of what was found before.
#[inline(always)]
pub fn find_matched(
    lists: &[Seq<usize>],
    matched: &[bool],
    found: &mut Vec<usize>,
) -> Result<(), AllocError>
    ensures { OnOk result
        (found.new.items ≡ places_under lists.now (λ matcher. truth_at matcher matched.now)) }
{
    found.clear();
    add_matched(lists, matched, found)
}

// Adds the places under the matchers that hold.
#[inline(always)]
fn add_matched(
    lists: &[Seq<usize>],
    matched: &[bool],
    woken: &mut Vec<usize>,
) -> Result<(), AllocError>
    ensures { OnOk result (woken.new.items
        ≡ woken.old.items ++ places_under lists.now (λ matcher. truth_at matcher matched.now)) }
{
    for matcher in 0..lists.len() {
        let holds = is_true_from(matched, matcher);
        add_if(holds, lists[matcher].as_slice(), woken)?;
    }
    Ok(())
}

/// Adds these places, if they are wanted.
#[inline(always)]
pub fn add_if(wanted: bool, places: &[usize], woken: &mut Vec<usize>) -> Result<(), AllocError>
    ensures { OnOk result
        (woken.new.items ≡ woken.old.items ++ (if wanted then places.now else [])) }
{
    if wanted {
        add_all(places, woken)?;
    }
    Ok(())
}

// Adds these places. They are few, mostly one.
#[inline(always)]
fn add_all(places: &[usize], woken: &mut Vec<usize>) -> Result<(), AllocError>
    ensures { OnOk result (woken.new.items ≡ woken.old.items ++ places.now) }
{
    for place in places {
        woken.push(*place)?;
    }
    Ok(())
}
