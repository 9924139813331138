//! The key whose state an atom tells: of the inner keys that are sliced by states, those alone that are sliced by the
//! state of this key may have another slice after the atom.
ghost use Rattle.std.specs.Prelude.{◌≡◌, IfOk, slice_get};
ghost use Rattle.book_meaning.specs.States.{same_dims};
ghost use Rattle.metric_meaning.specs.Readings.{key_reading};
ghost use Rattle.metric_meaning.specs.StateSlices.{state_key};
ghost use Rattle.client_engine.specs.Telling.{IsKeyTold, decides_slice, decides_inner};

use crate::brought::Brought;
use crate::slices::tells_one;
use atom_record::{Atom, DimKey};
use condition_links::reads_as;
use config_links::{LMetric, LSlice, LState};
use field_select::FieldSet;
use known_conditions::{Conditions, InnerKey};
use state_slicer::{resets_states, told_key};
use std::alloc::AllocError;

// Keys of more leaves are made anew, whether an atom tells their state or not.
const FEW_LEAVES: usize = 16;

/// The key of an id whose state an atom tells, beside the states by which a metric is sliced.
#[derive(Drop)]
pub struct Told<'a> {
    pub states: &'a [LState],
    pub slices: &'a [LSlice],
    pub id: u32,
    pub key: DimKey,
}

impl Told<'_> {
    /// Whether an inner key is sliced by the state of this key.
    pub fn decides(&self, inner: &InnerKey<'_>) -> bool
        ensures { result ≡ decides_inner inner.now.fields.now inner.now.key.now self.now }
    {
        self.slices.iter().any(|by| self.is_sliced(inner, by))
    }

    // Whether one of its slices is by that state.
    fn is_sliced(&self, inner: &InnerKey<'_>, by: &LSlice) -> bool
        ensures { result ≡ decides_slice self.now.id self.now.key (slice_get self.now.states.now by.now.state)
            (state_key by.now.in_what (key_reading inner.now.fields.now inner.now.key.now)) }
    {
        match self.states.get(by.state as usize) {
            Some(state) => state.atom_id == self.id && has_state_key(inner, &by.in_what, &self.key),
            None => false,
        }
    }
}

// Whether a state is asked for by this key, where a link reads it from an inner key.
fn has_state_key(inner: &InnerKey<'_>, in_what: &Option<FieldSet>, key: &DimKey) -> bool
    ensures { result ≡ same_dims key.now
        (state_key in_what.now (key_reading inner.now.fields.now inner.now.key.now)) }
{
    match in_what {
        Some(set) => reads_as(inner.fields, inner.key, set, key),
        None => key.len() == 0,
    }
}

/// The key whose state an atom tells, if the metric is sliced by states of its id. Where the atom puts all states of
/// its id back, there is no such key.
pub fn told_of<'a>(
    metric: &'a LMetric,
    conditions: &Conditions,
    brought: &Brought<'a>,
    atom: &Atom,
) -> Result<Option<Told<'a>>, AllocError>
    ensures { IfOk result (IsKeyTold brought.now.states.now metric.now.slices atom.now) }
{
    let slices = metric.slices.as_slice();
    if !tells_one(brought.states, atom.id, slices) || resets_states(atom) {
        return Ok(None);
    }
    if conditions.fields_of(metric.what).leaves.len() > FEW_LEAVES {
        return Ok(None);
    }
    let key = told_key(brought.alloc, atom)?;
    Ok(Some(Told {
        states: brought.states,
        slices,
        id: atom.id,
        key,
    }))
}
