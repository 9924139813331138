//! Tables after events.
ghost use Rattle.std.specs.Prelude.{◌≤◌};

use super::keys::key_of;
use atom_record::DimKey;
use config_types::PredSpec;
use predicate_state::{PredEvent, PredTable};
use std::alloc::{AllocError, Global};

fn event_of(word: &str) -> Option<PredEvent> {
    match word {
        "start" => Some(PredEvent::Start),
        "stop" => Some(PredEvent::Stop),
        "stop_all" => Some(PredEvent::StopAll),
        _ => None,
    }
}

/// The events of a text, as `start 7 8 stop 7`: words of events, and the keys that each happens to.
fn events_of(alloc: Global, text: &str) -> Result<Vec<(PredEvent, DimKey)>, AllocError> {
    let mut events = Vec::new(alloc);
    let mut event = PredEvent::Start;
    for word in text.split_whitespace() {
        match event_of(word) {
            Some(next) => event = next,
            None => events.push((event, key_of(alloc, word)?))?,
        }
    }
    Ok(events)
}

/// A table after the events of a text, or nothing where a key has another number of leaves.
pub fn played(alloc: Global, spec: PredSpec, text: &str) -> Result<Option<PredTable>, AllocError>
    requires least { 1 ≤ spec.bound }
    requires most { spec.bound ≤ 3000 }
{
    let mut table = PredTable::new(alloc, spec);
    for (event, key) in events_of(alloc, text)? {
        if key.len() != spec.leaves as usize {
            return Ok(None);
        }
        table.apply(event, &key)?;
    }
    Ok(Some(table))
}
