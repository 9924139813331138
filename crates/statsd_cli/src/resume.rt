//! A saved session goes on: the hub of its saved form answers what comes after the form.
ghost use Rattle.std.specs.Prelude.{◌≡◌, ◌<◌, IfOk, IfErr};
ghost use Rattle.sd_io.specs.States.{ports};
ghost use Rattle.hub_core.specs.HubSaving.{saved_of};
ghost use Rattle.statsd_cli.specs.Run.{IsRunFrom};
ghost use Rattle.statsd_cli.specs.Serving.{tells_after};
ghost use Rattle.statsd_cli.specs.Resume.{IsResumed, TakesHub, LacksHub};

use crate::replay::answer_all;
use crate::saved_form::{FormError, take_form};
use crate::serving::Serving;
use crate::{Ending, SaveFault};
use checkpoint::ResumeError;
use condition_links::Steps;
use hub_core::Hub;
use matcher_eval::FieldJudge;
use sd_io::{Sink, Source};
use std::alloc::Global;
use std::marker::Brand;
use std::sync::ledger::{Blank, Ledger};

/// Takes the saved form that the input begins with, and answers what comes after it as its session goes on. The
/// questions of conditions are on a counter of its own.
pub(crate) fn resume<S: Source, K: Sink>(alloc: Global, input: &mut S, out: &mut K) -> Ending
    ensures { IsResumed (ports (S.state input.old) (K.state out.old))
        (ports (S.state input.new) (K.state out.new)) result }
{
    match take_hub(alloc, input) {
        Ok(hub) => run_on::<S, K, Brand>(Blank::new(1), alloc, hub, input, out),
        Err(ending) => ending,
    }
}

/// The hub of the saved form that the input begins with, or how the command ends without one.
fn take_hub<S: Source>(alloc: Global, input: &mut S) -> Result<Hub<FieldJudge>, Ending>
    ensures takes { IfOk result (TakesHub (S.state input.old) (S.state input.new)) }
    ensures lacks { IfErr result (LacksHub (S.state input.old) (S.state input.new)) }
{
    let form = take_form(alloc, input)?;
    Ok(checkpoint::resume(alloc, FieldJudge::new(), form)?)
}

/// The hub answers what is left of the input, where a new ledger counts the questions.
fn run_on<S: Source, K: Sink, L: Ledger>(
    blank: Blank,
    alloc: Global,
    hub: Hub<FieldJudge>,
    input: &mut S,
    out: &mut K,
) -> Ending
    requires name { blank.name ≡ L.name }
    requires parts { blank.parts ≡ L.parts }
    requires some { 0 < blank.parts }
    ensures { IsRunFrom (saved_of hub).time (tells_after hub)
        (ports (S.state input.old) (K.state out.old))
        (ports (S.state input.new) (K.state out.new)) result }
{
    let mut serving = Serving::resumed(alloc, hub);
    let mut asks: Steps<L> = Steps::new(blank);
    answer_all(&mut serving, &mut asks, input, out)
}

impl From<FormError> for Ending {
    ghost use Rattle.statsd_cli.specs.Resume.{lack_ending};

    ghost from_gives = { λ error ending. ending ≡ lack_ending error };

    fn from(error: FormError) -> Ending {
        match error {
            FormError::Cut => Ending::SaveRefused(SaveFault::Cut),
            FormError::TooLong(size) => Ending::SaveRefused(SaveFault::TooLong(size)),
            FormError::Read => Ending::ReadFault,
            FormError::Memory => Ending::NoMemory,
        }
    }
}

impl From<ResumeError> for Ending {
    ghost use Rattle.statsd_cli.specs.Resume.{build_ending};

    ghost from_gives = { λ error ending. ending ≡ build_ending error };

    fn from(error: ResumeError) -> Ending {
        match error {
            ResumeError::NotSaved => Ending::SaveRefused(SaveFault::NotSaved),
            ResumeError::Memory => Ending::NoMemory,
        }
    }
}
