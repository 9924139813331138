//! The top call, and each command: the run of a session, its saved form and how it goes on from there, the check of a
//! configuration, the print of a report, and a session of its own.
ghost use Rattle.std.specs.Prelude.{◌≡◌, ℕ};
ghost use Rattle.sd_io.specs.States.{ports};
ghost use Rattle.matcher_eval.specs.AtomTests.{matcher_holds};
ghost use Rattle.hub_meaning.specs.ClientIsolation.{EqualOwnFramesEqualReplies};
ghost use Rattle.statsd_cli.specs.Commands.{command_of, HasFewFrames};
ghost use Rattle.statsd_cli.specs.Streams.{streams};
ghost use Rattle.statsd_cli.specs.Check.{check_ending};
ghost use Rattle.statsd_cli.specs.Show.{print_ending};
ghost use Rattle.statsd_cli.specs.Does.{Did, Does, IsChecked, IsReportShown};
ghost use Rattle.statsd_cli.specs.Completes.{Completes};

use crate::load::load;
use crate::note::tell;
use crate::replay::replay;
use crate::resume::resume;
use crate::save::save;
use crate::{Command, Ending};
use atom_record::Bytes;
use config_check::{CheckError, Finding, check_config};
use report_print::{PrintError, print_report};
use sd_io::{Sink, Source};
use std::alloc::Global;

/// Does what the words ask for, and gives the program's status. The words are those of the command line without the
/// program's name. `replay` answers the session on `input` on `out`; `check` tells on `out`, in one line, whether the
/// configuration on `input` has a fault; `show` writes the report on `input` to `out` as one line of JSON; `load`
/// answers a session of its own, and tells on `out`, in one line, how much that came to; `save` serves the session on
/// `input`, and writes to `out` the bytes of all that it came to; `resume` takes such bytes from `input`, and answers
/// on `out` what comes after them as the saved session would go on. Why it ended with another status than 0 is told in
/// one line on `notes`.
#[tactic(auto, using(hub_meaning::proofs::ClientIsolationLemmas::equal_own_frames))]
pub fn statsd_top<S: Source, K: Sink, E: Sink>(
    alloc: Global,
    words: &[Bytes],
    input: &mut S,
    out: &mut K,
    notes: &mut E,
) -> u8
    // The command is done: the status and the note say how that ended, and the streams bear it out.
    ensures does { Does (command_of words.now) result
        (streams (S.state input.old) (K.state out.old) (E.state notes.old))
        (streams (S.state input.new) (K.state out.new) (E.state notes.new)) }

    // Words of no command leave the input and the output as they were.
    ensures untouched { command_of words.now ≡ Command.Unknown
        → (input.new ≡ input.old) × (out.new ≡ out.old) }

    // A session of the engine's own leaves the input as it was.
    ensures unread { (seed frames : ℕ) → command_of words.now ≡ Command.Load seed frames
        → input.new ≡ input.old }

    // What can be done is done, unless the outside fails or memory is wanting.
    ensures complete { Completes (command_of words.now)
        (ports (S.state input.old) (K.state out.old))
        (ports (S.state input.new) (K.state out.new)) result }

    // What other clients do is no matter: equal own frames of a client have equal replies.
    ensures isolated { EqualOwnFramesEqualReplies matcher_holds }
{
    let ending = obey(alloc, Command::of(words), input, out);
    tell(&ending, notes);
    ending.status()
}

/// Does what a command asks for.
fn obey<S: Source, K: Sink>(alloc: Global, command: Command, input: &mut S, out: &mut K) -> Ending
    requires { HasFewFrames command }
    ensures did { Did command (ports (S.state input.old) (K.state out.old))
        (ports (S.state input.new) (K.state out.new)) result }
    ensures untouched { command ≡ Command.Unknown
        → (input.new ≡ input.old) × (out.new ≡ out.old) }
    ensures unread { (seed frames : ℕ) → command ≡ Command.Load seed frames
        → input.new ≡ input.old }
{
    match command {
        Command::Replay => replay(alloc, input, out),
        Command::Check => check(alloc, input, out),
        Command::Show => show(alloc, input, out),
        Command::Save => save(alloc, input, out),
        Command::Resume => resume(alloc, input, out),
        Command::Load { seed, frames } => load(alloc, seed, frames, out),
        Command::Unknown => Ending::Usage,
    }
}

/// Checks the configuration on the input, and tells on the output what was found.
fn check<S: Source, K: Sink>(alloc: Global, input: &mut S, out: &mut K) -> Ending
    ensures { IsChecked (ports (S.state input.old) (K.state out.old))
        (ports (S.state input.new) (K.state out.new)) result }
{
    ending_after(&check_config(alloc, input, out))
}

/// How a check ends, by its answer.
fn ending_after(answer: &Result<Finding, CheckError>) -> Ending
    ensures { result ≡ check_ending answer.now }
{
    match answer {
        Ok(Finding::Sound(_)) => Ending::Done,
        Ok(_) => Ending::Refused,
        Err(CheckError::Read) => Ending::ReadFault,
        Err(CheckError::Write) => Ending::WriteFault,
        Err(CheckError::Memory) => Ending::NoMemory,
    }
}

/// Prints the report on the input as JSON on the output.
fn show<S: Source, K: Sink>(alloc: Global, input: &mut S, out: &mut K) -> Ending
    ensures { IsReportShown (ports (S.state input.old) (K.state out.old))
        (ports (S.state input.new) (K.state out.new)) result }
{
    ending_of(&print_report(alloc, input, out))
}

/// How a print ends, by its answer.
fn ending_of(answer: &Result<(), PrintError>) -> Ending
    ensures { result ≡ print_ending answer.now }
{
    match answer {
        Ok(()) => Ending::Done,
        Err(PrintError::Refused(fault)) => Ending::ReportRefused(*fault),
        Err(PrintError::Read) => Ending::ReadFault,
        Err(PrintError::Write) => Ending::WriteFault,
        Err(PrintError::Memory) => Ending::NoMemory,
    }
}
