//! The engine on the words of a command line: what a program of it does on three streams.
#![tactic(auto)]

ghost use Rattle.std.specs.Prelude.{◌≡◌, ◌↔◌, [], map, drop, IfOk, IfErr, IsOk, string_bytes};
ghost use Rattle.std.specs.Process.{exit_status};
ghost use Rattle.std.specs.Vec.Iter.{into_iter_items};
ghost use Rattle.std.specs.IoError.{error_kind};
ghost use Rattle.sd_io.specs.States.{input_with};
ghost use Rattle.statsd_cli.specs.declared.command.Command.TheVariants as commands;
ghost use Rattle.statsd_cli.specs.Commands.{command_of};
ghost use Rattle.statsd_cli.specs.Streams.{streams};
ghost use Rattle.statsd_run.specs.Program.{Ends, EndsOn, IsWithoutMemory};

mod input;

use crate::input::Input;
use atom_record::Bytes;
use sd_io::{BufferedSource, Sink, Source, StdSource};
use statsd_cli::{Command, STATUS_NO_MEMORY, statsd_top};
use std::alloc::{AllocError, Global};
use std::env::Args;
use std::io::{self, BufReader, ErrorKind, Read};
use std::process::ExitCode;

/// Runs the engine on the arguments, and ends with its status, or with that of want of memory where the list of words
/// finds none, or the buffer of the input.
pub fn run<R: Read + Drop, K: Sink, E: Sink>(
    alloc: Global,
    args: io::Result<Args>,
    input: R,
    out: &mut K,
    notes: &mut E,
) -> ExitCode
    // All words go in but the program's name.
    ensures words { IfOk args (λ args.
        EndsOn (command_of (map string_bytes (drop 1 (into_iter_items args)))) (exit_status result)
        (streams (input_with (R.remaining input) 0) (K.state out.old) (E.state notes.old))
        (K.state out.new) (E.state notes.new)) }

    // An argument that isn't text is no word of the engine's.
    ensures no_text { IfErr args (λ error. error_kind error ≡ ErrorKind.InvalidData
        → Ends commands.Unknown (exit_status result)
        (streams (input_with (R.remaining input) 0) (K.state out.old) (E.state notes.old))
        (K.state out.new) (E.state notes.new)) }

    // Where the arguments can't be had for another reason, memory was wanting.
    ensures no_words { IfErr args (λ error. (error_kind error ≡ ErrorKind.InvalidData → ⊥)
        → IsWithoutMemory (exit_status result) (K.state out.old) (E.state notes.old)
        (K.state out.new) (E.state notes.new)) }
{
    let Ok(words) = words(alloc, args) else {
        return ExitCode::from(STATUS_NO_MEMORY);
    };
    let words = words.as_slice();
    if !Command::of(words).reads_input() {
        return answer(
            alloc,
            words,
            Input::AsItCame(StdSource::new(input)),
            out,
            notes,
        );
    }
    let Ok(buffered) = BufReader::new(alloc, input) else {
        return ExitCode::from(STATUS_NO_MEMORY);
    };
    answer(
        alloc,
        words,
        Input::ReadAhead(BufferedSource::new(buffered)),
        out,
        notes,
    )
}

/// Does what the words ask for, on an input that is its own.
fn answer<S: Source + Drop, K: Sink, E: Sink>(
    alloc: Global,
    words: &[Bytes],
    mut input: S,
    out: &mut K,
    notes: &mut E,
) -> ExitCode
    ensures { Ends (command_of words.now) (exit_status result)
        (streams (S.state input) (K.state out.old) (E.state notes.old))
        (K.state out.new) (E.state notes.new) }
{
    ExitCode::from(statsd_top(alloc, words, &mut input, out, notes))
}

/// The words of the command line. There are none where an argument isn't text, since the engine takes no such word.
fn words(alloc: Global, args: io::Result<Args>) -> Result<Vec<Bytes>, AllocError>
    ensures given { IfOk args (λ args. IfOk result (λ list.
        list.items ≡ map string_bytes (drop 1 (into_iter_items args)))) }
    ensures no_text { IfErr args (λ error. IfOk result (λ list. list.items ≡ [])) }
    ensures kinds { IfErr args (λ error.
        IsOk result ↔ (error_kind error ≡ ErrorKind.InvalidData)) }
{
    match args {
        Ok(args) => words_of(alloc, args),
        Err(error) => match error.kind() {
            ErrorKind::InvalidData => Ok(Vec::new(alloc)),
            _ => Err(AllocError),
        },
    }
}

/// The bytes of the arguments after the first, which is the program's name.
fn words_of(alloc: Global, args: Args) -> Result<Vec<Bytes>, AllocError>
    ensures { IfOk result (λ list.
        list.items ≡ map string_bytes (drop 1 (into_iter_items args))) }
{
    args.skip(1)
        .map(|word| Bytes::from_vec(word.into_bytes()))
        .collect(alloc)
}
