//! Books of states, a step after the other.
use atom_record::{Atom, AtomFault, DimKey, Leaf, Value, parse_atom};
use flat_form::{FlatError, rebuild};
use state_slicer::StateBook;
use std::alloc::{AllocError, Global};
use test_tools::{Tester, unsigned};

/// Runs steps, which stand between semicolons. The book is rebuilt at each step `rebuilt`, and before that of a place.
pub fn run_steps(
    alloc: Global,
    tester: &mut Tester,
    steps: &str,
    rebuilt_at: Option<usize>,
) -> Result<(), AllocError> {
    let mut book = StateBook::new(alloc);
    for (place, step) in steps.split(';').enumerate() {
        if rebuilt_at == Some(place) || step.trim() == "rebuilt" {
            match rebuild(alloc, &book) {
                Ok(built) => book = built,
                Err(FlatError::Memory) => return Err(AllocError),
                Err(FlatError::Bad) => return tester.differs("not rebuilt", ""),
            }
        }
        run_step(alloc, tester, &mut book, step.trim())?;
    }
    Ok(())
}

/// Runs a step: `told ID ENTRIES`, `times N ID ENTRIES`, or one that compares.
fn run_step(
    alloc: Global,
    tester: &mut Tester,
    book: &mut StateBook,
    step: &str,
) -> Result<(), AllocError> {
    let (name, rest) = step.split_once(' ').unwrap_or((step, ""));
    match name {
        "" | "rebuilt" => Ok(()),
        "told" => apply(alloc, tester, book, 1, rest),
        "times" => apply_often(alloc, tester, book, rest),
        "state" => compare_state(alloc, tester, book, rest),
        "drops" => compare_drops(tester, book, rest),
        "ids" => compare(tester, "ids", rest, book.atoms() as u64),
        "ids_lost" => compare(tester, "ids that are lost", rest, book.dropped_atoms()),
        _ => tester.differs("a step that isn't known", step),
    }
}

fn apply_often(
    alloc: Global,
    tester: &mut Tester,
    book: &mut StateBook,
    text: &str,
) -> Result<(), AllocError> {
    let (digits, words) = text.split_once(' ').unwrap_or((text, ""));
    match unsigned(digits) {
        Some(times) => apply(alloc, tester, book, times, words),
        None => tester.differs("no number", digits),
    }
}

/// Gives a book the atom of these words, so many times.
fn apply(
    alloc: Global,
    tester: &mut Tester,
    book: &mut StateBook,
    times: u64,
    words: &str,
) -> Result<(), AllocError> {
    let Some(atom) = atom_of(alloc, tester, words)? else {
        return Ok(());
    };
    for _ in 0..times {
        book.apply(&atom)?;
    }
    Ok(())
}

/// The atom of an id and its entries, or nothing where there is none, which is told.
fn atom_of(alloc: Global, tester: &mut Tester, words: &str) -> Result<Option<Atom>, AllocError> {
    let text = format!(in alloc; "u32:{words}")?;
    let Some(payload) = tester.bytes(text.as_str())? else {
        return Ok(None);
    };
    match parse_atom(alloc, payload.as_slice()) {
        Ok(atom) => Ok(Some(atom)),
        Err(AtomFault::Memory) => Err(AllocError),
        Err(_) => {
            tester.differs("no atom", words)?;
            Ok(None)
        }
    }
}

/// Compares the state of a key, as `ID KEY STATE`.
fn compare_state(
    alloc: Global,
    tester: &mut Tester,
    book: &StateBook,
    text: &str,
) -> Result<(), AllocError> {
    let Some((id, word, wanted)) = asked(text) else {
        return tester.differs("no key of a state", text);
    };
    tester.case();
    let key = key_of(alloc, word)?;
    let state = book.value(id, &key);
    let found = format!(in alloc; "{state}")?;
    tester.same_text(text, wanted, found.as_str())
}

/// The id and the word of the key that are asked for, and the state.
fn asked(text: &str) -> Option<(u32, &str, &str)> {
    let (digits, rest) = text.split_once(' ')?;
    let (word, wanted) = rest.split_once(' ')?;
    Some((digits.parse::<u32>().ok()?, word, wanted))
}

/// The key of numbers with commas between them. The key without a number is a point.
fn key_of(alloc: Global, word: &str) -> Result<DimKey, AllocError> {
    let mut key = DimKey::new(alloc);
    if word == "." {
        return Ok(key);
    }
    for number in word.split(',') {
        key.push(Leaf::One(Value::Int(number.parse::<i32>().unwrap_or(0))))?;
    }
    Ok(key)
}

/// Compares how many atoms of an id found no room for their key, as `ID NUMBER`.
fn compare_drops(tester: &mut Tester, book: &StateBook, text: &str) -> Result<(), AllocError> {
    let (digits, wanted) = text.split_once(' ').unwrap_or((text, ""));
    match digits.parse::<u32>() {
        Ok(id) => compare(tester, "drops", wanted, book.dropped(id)),
        Err(_) => tester.differs("no id", digits),
    }
}

fn compare(tester: &mut Tester, what: &str, wanted: &str, found: u64) -> Result<(), AllocError> {
    tester.case();
    match unsigned(wanted) {
        Some(number) => tester.same_number(what, number, found),
        None => tester.differs("no number", wanted),
    }
}
