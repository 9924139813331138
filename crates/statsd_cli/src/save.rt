//! The word `save`: a session is served, and the hub of all its frames is written as bytes.
ghost use Rattle.std.specs.Prelude.{◌≡◌, ◌<◌, ◌≤◌};
ghost use Rattle.sd_io.specs.States.{ports};
ghost use Rattle.sd_io.specs.Causes.{IsPut};
ghost use Rattle.statsd_cli.specs.Form.{framed};
ghost use Rattle.statsd_cli.specs.Save.{IsSessionSaved, WritesFormOf};
ghost use Rattle.statsd_cli.specs.Serving.{HasReadNothing, ServesAll};

use crate::serving::Serving;
use crate::{Ending, SaveFault};
use checkpoint::SaveError;
use condition_links::Steps;
use hub_core::Hub;
use matcher_eval::FieldJudge;
use sd_io::{Sink, Source, WriteFailed};
use std::alloc::Global;
use std::marker::Brand;
use std::sync::ledger::{Blank, Ledger};

/// Serves the session to its end, tells no reply, and puts the saved form of what its frames came to. The questions of
/// conditions are on a counter of its own.
pub(crate) fn save<S: Source, K: Sink>(alloc: Global, input: &mut S, out: &mut K) -> Ending
    ensures { IsSessionSaved (ports (S.state input.old) (K.state out.old))
        (ports (S.state input.new) (K.state out.new)) result }
{
    counted_save::<S, K, Brand>(Blank::new(1), alloc, input, out)
}

/// The same, where a new ledger counts the questions.
fn counted_save<S: Source, K: Sink, L: Ledger>(
    blank: Blank,
    alloc: Global,
    input: &mut S,
    out: &mut K,
) -> Ending
    requires name { blank.name ≡ L.name }
    requires parts { blank.parts ≡ L.parts }
    requires some { 0 < blank.parts }
    ensures { IsSessionSaved (ports (S.state input.old) (K.state out.old))
        (ports (S.state input.new) (K.state out.new)) result }
{
    let mut serving = Serving::new(alloc);
    let mut asks: Steps<L> = Steps::new(blank);
    match serve_all(&mut serving, &mut asks, input) {
        Ending::Done => {
            let mut hub = serving.into_hub();
            put_hub(alloc, &mut hub, out)
        }
        ending => ending,
    }
}

/// Serves a session from its beginning to its end, and tells nothing.
fn serve_all<S: Source, L: Ledger>(
    serving: &mut Serving,
    asks: &mut Steps<L>,
    input: &mut S,
) -> Ending
    requires { HasReadNothing serving.old }
    ensures { ServesAll (S.state input.old) (S.state input.new) serving.old serving.new result }
{
    'frames: loop {
        if let Some(ending) = serving.step(asks, input).ending() {
            return ending;
        }
    }
}

/// Puts the saved form of a hub.
fn put_hub<K: Sink>(alloc: Global, hub: &mut Hub<FieldJudge>, out: &mut K) -> Ending
    ensures { WritesFormOf hub.old (K.state out.old) (K.state out.new) result }
{
    match checkpoint::save(alloc, hub) {
        Ok(bytes) => match put_framed(bytes.as_slice(), out) {
            Ok(()) => Ending::Done,
            Err(_) => Ending::WriteFault,
        },
        Err(SaveError::TooLong(size)) => Ending::SaveRefused(SaveFault::TooLong(size)),
        Err(SaveError::Memory) => Ending::NoMemory,
    }
}

/// Puts the length of bytes in eight bytes, and then them.
fn put_framed<K: Sink>(bytes: &[u8], out: &mut K) -> Result<(), WriteFailed>
    ensures { IsPut (K.state out.old) (K.state out.new) result (framed bytes.now) }
{
    out.put(&(bytes.len() as u64).to_le_bytes())?;
    out.put(bytes)
}
