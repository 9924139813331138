//! What an atom does to the keys that a duration times.
ghost use Rattle.std.specs.Prelude.{◌≡◌, IfOk};
ghost use Rattle.metric_meaning.specs.PredicateSteps.{atom_events};
ghost use Rattle.metric_calls.specs.DurationCalls.{first_event_of};

use crate::key_room::atom_key_into;
use crate::tables::event_by;
use atom_record::{Atom, DimKey};
use config_links::LPredBody;
use duration_metric::InnerEvent;
use std::alloc::{AllocError, Global};
use std::mem;

/// What an atom does to the keys of a predicate, if it does something. Its key is made in the room of another one,
/// which it takes.
pub fn key_event(
    alloc: Global,
    body: &LPredBody,
    atom: &Atom,
    matched: &[bool],
    room: &mut DimKey,
) -> Result<Option<InnerEvent>, AllocError>
    ensures { IfOk result (λ event. event
        ≡ first_event_of (atom_events body.now matched.now atom.now)) }
{
    match body {
        LPredBody::Simple {
            start,
            stop,
            stop_all,
            dims,
            spec: _,
        } => match event_by(*start, *stop, *stop_all, matched) {
            Some(event) => {
                let mut key = mem::replace(room, DimKey::new(alloc));
                atom_key_into(alloc, dims, atom, &mut key)?;
                Ok(Some(InnerEvent { event, key }))
            }
            None => Ok(None),
        },
        LPredBody::Combo { .. } => Ok(None),
    }
}
