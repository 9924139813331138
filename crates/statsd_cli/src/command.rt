//! What the words of a command line ask for.
ghost use Rattle.std.specs.Prelude.{◌≡◌, ◌+◌, ◌-◌, ◌*◌, ◌<◌, ◌≤◌, ◌^◌, ◌&&◌, Some, None, nat_le, if◌then◌else◌, IfSome};
ghost use Rattle.load_session.specs.Frames.{most_frames};
ghost use Rattle.statsd_cli.specs.Commands.{command_named, command_of, command_with, is_digit, frames_digits, most_seed, number_of, number_within, reads_input, seed_digits, HasFewFrames};

use atom_record::Bytes;
use load_session::MOST_FRAMES;

/// What a command line asks for.
#[derive(Clone, Copy)]
pub enum Command {
    /// The session on the input is answered on the output.
    Replay,
    /// The configuration on the input is checked.
    Check,
    /// The report on the input is printed as JSON.
    Show,
    /// The hub of the session on the input is saved on the output.
    Save,
    /// The session whose saved form the input begins with goes on: what is after it is answered on the output.
    Resume,
    /// The session of this seed, with so many frames of the log, is answered, and its replies are counted.
    Load { seed: u64, frames: u64 },
    /// The words are those of no command.
    Unknown,
}

impl Command {
    /// The command that these words ask for, which are those of the command line without the program's name.
    pub fn of(words: &[Bytes]) -> Command
        ensures command { result ≡ command_of words.now }
        ensures few { HasFewFrames result }
    {
        match words {
            [word] => Command::named(word.as_slice()),
            [word, seed, frames] => {
                Command::with_two(word.as_slice(), seed.as_slice(), frames.as_slice())
            }
            _ => Command::Unknown,
        }
    }

    /// Whether it reads the input.
    pub fn reads_input(&self) -> bool
        ensures { result ≡ reads_input self.now }
    {
        match self {
            Command::Replay | Command::Check | Command::Show | Command::Save | Command::Resume => {
                true
            }
            Command::Load { .. } | Command::Unknown => false,
        }
    }

    /// The command of one word.
    fn named(word: &[u8]) -> Command
        ensures command { result ≡ command_named word.now }
        ensures few { HasFewFrames result }
    {
        if word == b"replay".as_slice() {
            return Command::Replay;
        }
        if word == b"check".as_slice() {
            return Command::Check;
        }
        if word == b"show".as_slice() {
            return Command::Show;
        }
        if word == b"save".as_slice() {
            return Command::Save;
        }
        if word == b"resume".as_slice() {
            return Command::Resume;
        }
        Command::Unknown
    }

    /// The command of a word with two numbers.
    fn with_two(word: &[u8], seed: &[u8], frames: &[u8]) -> Command
        ensures command { result ≡ command_with word.now seed.now frames.now }
        ensures few { HasFewFrames result }
    {
        if word != b"load".as_slice() {
            return Command::Unknown;
        }
        match (seed_of(seed), frames_of(frames)) {
            (Some(seed), Some(frames)) => Command::Load { seed, frames },
            _ => Command::Unknown,
        }
    }
}

// The most digits of a seed.
const SEED_DIGITS: usize = 20;

// The most digits of a number of frames.
const FRAMES_DIGITS: usize = 10;

/// The seed of a word, if it is one.
fn seed_of(word: &[u8]) -> Option<u64>
    ensures { result ≡ number_of seed_digits most_seed word.now }
{
    number_of(SEED_DIGITS, u64::MAX, word)
}

/// The number of frames of a word, if it is one.
fn frames_of(word: &[u8]) -> Option<u64>
    ensures frames { result ≡ number_of frames_digits most_frames word.now }
    ensures few { IfSome result (λ frames. frames ≤ most_frames) }
{
    number_of(FRAMES_DIGITS, MOST_FRAMES, word)
}

/// The number of a word of one to so many decimal digits, where it is at most so large.
fn number_of(digits: usize, most: u64, word: &[u8]) -> Option<u64>
    ensures number { result ≡ number_of digits most word.now }
    ensures few { IfSome result (λ number. number ≤ most) }
{
    if word.is_empty() || word.len() > digits {
        return None;
    }
    number_within(most, 0, word)
}

/// The number of decimal digits after a number in front of them, where it is at most so large.
fn number_within(most: u64, front: u64, digits: &[u8]) -> Option<u64>
    requires { front ≤ most }
    ensures number { result ≡ number_within most front digits.now }
    ensures few { IfSome result (λ number. number ≤ most) }
{
    match digits {
        [] => Some(front),
        [digit, rest @ ..] => {
            let front = with_digit(most, front, *digit)?;
            number_within(most, front, rest)
        }
    }
}

/// A number with one more decimal digit, where it is at most so large.
fn with_digit(most: u64, front: u64, digit: u8) -> Option<u64>
    ensures { result ≡ (if is_digit digit && nat_le (front * 10 + (digit - 48)) most
        then Some (front * 10 + (digit - 48)) else None) }
{
    if !digit.is_ascii_digit() {
        return None;
    }
    let number = u128::from(front) * 10 + u128::from(digit - b'0');
    if number > u128::from(most) {
        return None;
    }
    Some(number as u64)
}
