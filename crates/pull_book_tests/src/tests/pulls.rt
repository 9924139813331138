//! Pulls, one after the other, and the snapshots after each.
use crate::tests::builds::pull_of;
use atom_record::{Atom, AtomFault, PullOutcome, Value};
use flat_form::rebuild;
use pull_book::{MAX_IDS, PullBook};
use std::alloc::Global;
use std::test::*;

/// What a pull gave: an atom for each of these levels, or nothing.
#[derive(Clone, Copy)]
enum Gave {
    Levels(&'static [i32]),
    Nothing,
}

use Gave::{Levels, Nothing};

fn set(alloc: Global, book: &mut PullBook, id: u32, gave: Gave) -> Result<(), AtomFault> {
    match gave {
        Levels(levels) => Ok(book.set(id, pull_of(alloc, id, levels)?)?),
        Nothing => Ok(book.set(id, PullOutcome::Failed)?),
    }
}

fn has_level(atom: &Atom, level: i32) -> bool {
    match atom.fields.get(0) {
        Some(entry) => entry.value == Value::Int(level),
        None => false,
    }
}

// Whether the snapshot of an id has an atom for each of these levels, or there is none.
fn shows(book: &PullBook, id: u32, gave: Gave) -> bool {
    match (book.snapshot(id), gave) {
        (None, Nothing) => true,
        (Some(atoms), Levels(levels)) => {
            atoms.len() == levels.len()
                && atoms
                    .iter()
                    .zip(levels.iter())
                    .all(|(atom, level)| has_level(atom, *level))
        }
        _ => false,
    }
}

/// A pull of an id comes; and then the id has this snapshot.
type Row = (u32, Gave, Gave);

const ROWS: [Row; 11] = [
    (10_001, Levels(&[100]), Levels(&[100])),
    (10_002, Levels(&[]), Levels(&[])),
    (10_001, Nothing, Nothing),
    (10_001, Levels(&[90, 95]), Levels(&[90, 95])),
    (10_002, Nothing, Nothing),
    (5, Levels(&[7]), Nothing),
    (9_999, Levels(&[7]), Nothing),
    (100_000, Levels(&[7]), Nothing),
    (150_000, Levels(&[8]), Levels(&[8])),
    (200_000, Levels(&[7]), Nothing),
    (10_001, Levels(&[91]), Levels(&[91])),
];

// Whether a book that is rebuilt before one of the rows shows all of them.
fn shows_all(alloc: Global, rebuilt_at: usize) -> Result<bool, Fail> {
    let mut book = PullBook::new(alloc);
    let mut good = !shows(&book, 10_001, Levels(&[])) && shows(&book, 10_001, Nothing);
    for place in 0..ROWS.len() {
        if place == rebuilt_at {
            book = rebuild(alloc, &book)?;
        }
        let (id, gave, shown) = ROWS[place];
        set(alloc, &mut book, id, gave)?;
        good = good && shows(&book, id, shown);
    }
    Ok(good && book.len() == 3 && book.keeps(10_003) && !book.keeps(5))
}

#[test]
fn the_last_pull_of_an_id_is_its_snapshot(rt: HostRuntime) -> Result<(), Fail> {
    for rebuilt_at in 0..=ROWS.len() {
        assert!(rt; shows_all(rt.alloc(), rebuilt_at)?, "at {rebuilt_at}");
    }
    Ok(())
}

// Pulls of the first ids that fill a book; each second one fails.
fn fill(alloc: Global, book: &mut PullBook) -> Result<(), AtomFault> {
    for place in 0..128 {
        set(alloc, book, 10_000 + 2 * place, Levels(&[1]))?;
        set(alloc, book, 10_001 + 2 * place, Nothing)?;
    }
    Ok(())
}

#[test]
fn a_later_id_is_not_kept(rt: HostRuntime) -> Result<(), Fail> {
    let mut book = PullBook::new(rt.alloc());
    fill(rt.alloc(), &mut book)?;
    assert!(rt; book.len() == MAX_IDS);
    for (id, keeps, gave, shown) in [
        (10_256, false, Levels(&[2]), Nothing),
        (10_257, false, Nothing, Nothing),
        (10_255, true, Levels(&[3]), Levels(&[3])),
        (10_000, true, Nothing, Nothing),
        (10_256, false, Levels(&[4]), Nothing),
    ] {
        book = rebuild(rt.alloc(), &book)?;
        assert!(rt; book.keeps(id) == keeps, "at {id}");
        set(rt.alloc(), &mut book, id, gave)?;
        assert!(rt; shows(&book, id, shown), "at {id}");
    }
    assert!(rt; book.len() == MAX_IDS);
    Ok(())
}
