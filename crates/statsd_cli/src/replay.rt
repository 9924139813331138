//! The word `replay`: a session is answered, one frame after the other.
ghost use Rattle.std.specs.Prelude.{◌≡◌, ◌<◌, ◌≤◌};
ghost use Rattle.sd_io.specs.States.{ports};
ghost use Rattle.sd_io.specs.Causes.{IsPut};
ghost use Rattle.statsd_cli.specs.More.{bytes_if_any};
ghost use Rattle.statsd_cli.specs.Run.{IsRun, IsRunFrom};
ghost use Rattle.statsd_cli.specs.Serving.{tells_after, HasReadNothing, AnswersOn};

use crate::Ending;
use crate::serving::{Serving, Step};
use condition_links::Steps;
use sd_io::{Sink, Source, WriteFailed};
use session_frames::{Reply, write_reply};
use std::alloc::Global;
use std::marker::Brand;
use std::sync::ledger::{Blank, Ledger};

/// Reads the session frame by frame, and answers its commands. The questions of conditions are on a counter of its own.
pub(crate) fn replay<S: Source, K: Sink>(alloc: Global, input: &mut S, out: &mut K) -> Ending
    ensures { IsRun (ports (S.state input.old) (K.state out.old))
        (ports (S.state input.new) (K.state out.new)) result }
{
    counted_replay::<S, K, Brand>(Blank::new(1), alloc, input, out)
}

/// The same, where a new ledger counts the questions.
fn counted_replay<S: Source, K: Sink, L: Ledger>(
    blank: Blank,
    alloc: Global,
    input: &mut S,
    out: &mut K,
) -> Ending
    requires name { blank.name ≡ L.name }
    requires parts { blank.parts ≡ L.parts }
    requires some { 0 < blank.parts }
    ensures { IsRun (ports (S.state input.old) (K.state out.old))
        (ports (S.state input.new) (K.state out.new)) result }
{
    let mut serving = Serving::new(alloc);
    let mut asks: Steps<L> = Steps::new(blank);
    answer_all(&mut serving, &mut asks, input, out)
}

/// Answers a session from its beginning to its end, wherever that is in the log.
pub(crate) fn answer_all<S: Source, K: Sink, L: Ledger>(
    serving: &mut Serving,
    asks: &mut Steps<L>,
    input: &mut S,
    out: &mut K,
) -> Ending
    requires { HasReadNothing serving.old }
    ensures { IsRunFrom serving.old.reader.place.clock (tells_after serving.old.hub)
        (ports (S.state input.old) (K.state out.old))
        (ports (S.state input.new) (K.state out.new)) result }
{
    'frames: loop {
        if let Some(ending) = answer_next(serving, asks, input, out) {
            return ending;
        }
    }
}

/// The reply to one frame more is put, if it has one. The answer is how the run ends, if it does.
fn answer_next<S: Source, K: Sink, L: Ledger>(
    serving: &mut Serving,
    asks: &mut Steps<L>,
    input: &mut S,
    out: &mut K,
) -> Option<Ending>
    ensures { AnswersOn (ports (S.state input.old) (K.state out.old))
        (ports (S.state input.new) (K.state out.new)) serving.old serving.new result }
{
    let reply = match serving.step(asks, input) {
        Step::Served(reply) => reply,
        Step::Ended(ending) => return Some(ending),
    };
    match put_reply(reply, out) {
        Ok(()) => None,
        Err(_) => Some(Ending::WriteFault),
    }
}

/// Writes the reply to a frame, if it has one, and lets it go.
fn put_reply<K: Sink>(reply: Option<Reply>, out: &mut K) -> Result<(), WriteFailed>
    ensures { IsPut (K.state out.old) (K.state out.new) result (bytes_if_any reply) }
{
    match reply {
        Some(reply) => write_reply(&reply, out),
        None => Ok(()),
    }
}
