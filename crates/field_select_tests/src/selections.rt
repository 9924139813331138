//! The rows: a tree of field numbers, the leaves that it means, and what an atom has there.
use super::texts::{key_text, leaves_text, lent_text};
use atom_record::{Atom, AtomFault, parse_atom};
use config_decode::{DecodeFault, decode};
use config_types::{Config, FieldMatcher};
use field_select::{FieldSet, SelectError, field_set, filter, key_into, key_of};
use std::alloc::{AllocError, Global};
use test_tools::{Row, Table, Tester, unsigned};

/// More bytes than the tree of any row has.
const MOST_BYTES: usize = 1_000_000;

/// The table of trees of field numbers.
pub struct Selections;

impl Table for Selections {
    fn marks(&self) -> &'static str {
        "dims leaves count debug same atom key lent kept"
    }

    fn run(&self, alloc: Global, tester: &mut Tester, row: &Row<'_>) -> Result<(), AllocError> {
        let text = row.text(alloc, "dims")?;
        let whole = format!(in alloc; "count{{ dims{{ {text} }} }}")?;
        let Some(bytes) = tester.bytes_of("config", whole.as_str())? else {
            return Ok(());
        };
        run_bytes(alloc, tester, row, bytes.as_slice())
    }
}

/// Runs a row on the tree of these bytes.
fn run_bytes(
    alloc: Global,
    tester: &mut Tester,
    row: &Row<'_>,
    bytes: &[u8],
) -> Result<(), AllocError> {
    if bytes.len() > MOST_BYTES {
        return tester.differs("a tree that is too long", "");
    }
    match decode(alloc, bytes) {
        Ok(config) => run_config(alloc, tester, row, &config),
        Err(DecodeFault::Memory) => Err(AllocError),
        Err(_) => tester.differs("a tree that isn't read", ""),
    }
}

fn run_config(
    alloc: Global,
    tester: &mut Tester,
    row: &Row<'_>,
    config: &Config,
) -> Result<(), AllocError> {
    let Some(tree) = first_dims(config) else {
        return tester.differs("no tree", "");
    };
    if row.has("leaves") {
        tester.case();
        let found = leaves_text(alloc, tree)?;
        tester.same_text("leaves", row.word("leaves"), found.as_str())?;
    }
    if row.has("same") {
        tester.case();
        tester.holds("the same twice", is_same_twice(alloc, tree)?)?;
    }
    match field_set(alloc, tree) {
        Ok(set) => run_set(alloc, tester, row, &set),
        Err(SelectError::Memory) => Err(AllocError),
        Err(_) => tester.holds("is taken", row.word("leaves") == "BadForm"),
    }
}

/// Whether a tree means the same set twice.
fn is_same_twice(alloc: Global, tree: &FieldMatcher) -> Result<bool, AllocError> {
    match (field_set(alloc, tree), field_set(alloc, tree)) {
        (Ok(one), Ok(other)) => Ok(one == other),
        (Err(SelectError::Memory), _) | (_, Err(SelectError::Memory)) => Err(AllocError),
        _ => Ok(false),
    }
}

/// The dimensions of the first count.
fn first_dims(config: &Config) -> Option<&FieldMatcher> {
    match &config.counts.get(0)?.sliced.dims {
        Some(dims) => Some(dims),
        None => None,
    }
}

fn run_set(
    alloc: Global,
    tester: &mut Tester,
    row: &Row<'_>,
    set: &FieldSet,
) -> Result<(), AllocError> {
    if row.has("count") {
        tester.case();
        let wanted = unsigned(row.word("count")).unwrap_or(0);
        tester.same_number("count", wanted, set.leaves.len() as u64)?;
    }
    if row.has("debug") {
        tester.case();
        let found = format!(in alloc; "{set:?}")?;
        tester.same_text("debug", row.word("debug"), found.as_str())?;
    }
    if row.has("atom") {
        return run_atom(alloc, tester, row, set);
    }
    Ok(())
}

/// Compares the key of a row's atom, and what is kept of it.
fn run_atom(
    alloc: Global,
    tester: &mut Tester,
    row: &Row<'_>,
    set: &FieldSet,
) -> Result<(), AllocError> {
    let Some(atom) = atom_of(alloc, tester, row, "atom")? else {
        return Ok(());
    };
    if row.has("key") {
        compare_key(alloc, tester, row, set, &atom)?;
    }
    if row.has("lent") {
        tester.case();
        let found = lent_text(alloc, set, &atom)?;
        tester.same_text("lent", row.word("lent"), found.as_str().trim())?;
    }
    if row.has("kept") {
        return compare_kept(alloc, tester, row, set, &atom);
    }
    Ok(())
}

fn compare_key(
    alloc: Global,
    tester: &mut Tester,
    row: &Row<'_>,
    set: &FieldSet,
    atom: &Atom,
) -> Result<(), AllocError> {
    tester.case();
    let mut key = key_of(alloc, set, atom)?;
    let found = key_text(alloc, &key)?;
    tester.same_text("key", row.word("key"), found.as_str().trim())?;
    tester.case();
    key_into(alloc, set, atom, &mut key)?;
    let again = key_text(alloc, &key)?;
    tester.same_text("key again", row.word("key"), again.as_str().trim())
}

fn compare_kept(
    alloc: Global,
    tester: &mut Tester,
    row: &Row<'_>,
    set: &FieldSet,
    atom: &Atom,
) -> Result<(), AllocError> {
    let Some(wanted) = atom_of(alloc, tester, row, "kept")? else {
        return Ok(());
    };
    tester.case();
    let kept = filter(alloc, set, atom)?;
    tester.holds("what is kept", kept == wanted)
}

/// The atom of the words behind a mark, or nothing where there is none, which is told.
fn atom_of(
    alloc: Global,
    tester: &mut Tester,
    row: &Row<'_>,
    mark: &str,
) -> Result<Option<Atom>, AllocError> {
    let text = row.text(alloc, mark)?;
    let Some(payload) = tester.bytes(text.as_str())? else {
        return Ok(None);
    };
    match parse_atom(alloc, payload.as_slice()) {
        Ok(atom) => Ok(Some(atom)),
        Err(AtomFault::Memory) => Err(AllocError),
        Err(_) => {
            tester.differs("no atom", mark)?;
            Ok(None)
        }
    }
}
