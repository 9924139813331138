//! The slices by states of what is read.
ghost use Rattle.std.specs.Prelude.{◌≡◌, ◌++◌, slice_get, OnOk, IfOk};
ghost use Rattle.metric_meaning.specs.StateSlices.{state_key};
ghost use Rattle.client_engine.specs.Keying.{OnSlice, OnSlices};
ghost use Rattle.known_conditions.specs.Touchers.{is_told_by, tells_one};

use crate::brought::Brought;
use atom_record::{DimKey, Slice};
use config_links::{LSlice, LState};
use field_select::FieldSet;
use known_conditions::Asked;
use sd_base::Seq;
use state_slicer::slice;
use std::alloc::{AllocError, Global};

/// The slices by these of the states, in order, as the book that is brought has them, of what is read.
pub fn slices_of<A: Asked>(
    brought: &Brought<'_>,
    slices: &[LSlice],
    asked: &A,
) -> Result<Seq<Slice>, AllocError>
    ensures { OnSlices brought.now (A.reading asked.now) slices.now
        (λ slices. IfOk result (λ shown. shown ≡ slices)) }
{
    let mut shown = Seq::with_capacity(brought.alloc, slices.len())?;
    let mut key = DimKey::new(brought.alloc);
    slices_into(brought, slices, asked, &mut key, &mut shown)?;
    Ok(shown)
}

/// The same, in the room of other slices, of which nothing is left, by keys in the room of another key.
pub fn slices_into<A: Asked>(
    brought: &Brought<'_>,
    slices: &[LSlice],
    asked: &A,
    key: &mut DimKey,
    shown: &mut Seq<Slice>,
) -> Result<(), AllocError>
    ensures { OnSlices brought.now (A.reading asked.now) slices.now
        (λ slices. OnOk result (shown.new ≡ slices)) }
{
    shown.clear();
    for by in slices {
        add_slice(shown, brought, by, asked, key)?;
    }
    Ok(())
}

// Adds the slice by one of the states.
fn add_slice<A: Asked>(
    shown: &mut Seq<Slice>,
    brought: &Brought<'_>,
    by: &LSlice,
    asked: &A,
    key: &mut DimKey,
) -> Result<(), AllocError>
    ensures { OnSlice brought.now (A.reading asked.now) by.now
        (λ slice. OnOk result (shown.new ≡ shown.old ++ slice)) }
{
    match brought.states.get(by.state as usize) {
        Some(state) => {
            state_key_into(brought.alloc, &by.in_what, asked, key)?;
            shown.push(slice(state, brought.book.value(state.atom_id, key)))
        }
        None => Ok(()),
    }
}

// The key by which a state is asked for, in the room of another key.
fn state_key_into<A: Asked>(
    alloc: Global,
    in_what: &Option<FieldSet>,
    asked: &A,
    key: &mut DimKey,
) -> Result<(), AllocError>
    ensures { OnOk result (key.new ≡ state_key in_what.now (A.reading asked.now)) }
{
    match in_what {
        Some(set) => asked.read_into(alloc, set, key),
        None => {
            key.clear();
            Ok(())
        }
    }
}

/// Whether one of the states that these slices name is told by atoms of this id.
pub fn tells_one(states: &[LState], id: u32, slices: &[LSlice]) -> bool
    ensures { result ≡ tells_one states.now id slices.now }
{
    slices.iter().any(|by| tells(states, id, by))
}

// Whether the state that a slice names is told by atoms of this id.
fn tells(states: &[LState], id: u32, by: &LSlice) -> bool
    ensures { result ≡ is_told_by id (slice_get states.now by.now.state) }
{
    match states.get(by.state as usize) {
        Some(state) => id == state.atom_id,
        None => false,
    }
}
