//! The flat forms of what a pull gave, and of a book.
ghost use Rattle.std.proofs.Common.{refl};
ghost use Rattle.flat_form.specs.Bounded.{short_head};
ghost use Rattle.std.specs.Prelude.{◌≡◌, ◌++◌, ◌↔◌, All, IsTrue, IfSome, IfNone, OnOk, OnErr};
ghost use Rattle.std.specs.List.{flat_map};
ghost use Rattle.atom_record.specs.AtomSound.{HasNoFault};
ghost use Rattle.flat_form.specs.Flat.{IsFront, Builds, BuildsAll, list_items};
ghost use Rattle.pull_book.specs.PullBooks.{IsKeptRow, IsPullTable};
ghost use Rattle.pull_book.specs.PullItems.{payload_items, HoldsSoundAtoms};

use crate::recorded::Recorded;
use crate::{MAX_IDS, PullBook};
use atom_record::{Atom, AtomFault, PullOutcome, encode_atom, is_pulled, parse_atom};
use dim_table::Guarded;
use flat_form::{Flat, FlatError, Item, Items, build_bytes};
use sd_base::Seq;
use std::alloc::{AllocError, Global};

// Adds the payloads of all atoms.
fn flatten_atoms(atoms: &[Atom], alloc: Global, out: &mut Items) -> Result<(), AllocError>
    requires sound { All HasNoFault atoms.now }
    ensures added { OnOk result (out.new ≡ out.old ++ flat_map payload_items atoms.now) }
    ensures err { OnErr result (IsFront out.old out.new) }
{
    for atom in atoms {
        let payload = encode_atom(alloc, atom)?;
        out.push(Item::Chunk(payload))?;
    }
    Ok(())
}

// The atom whose payload stands at a place, and the place after it.
fn build_atom(alloc: Global, items: &Items, place: usize) -> Result<(Atom, usize), FlatError>
    ensures { Builds HasNoFault payload_items items.now place result }
{
    let (payload, next) = build_bytes(alloc, items, place)?;
    match parse_atom(alloc, payload.as_slice()) {
        Ok(atom) => Ok((atom, next)),
        Err(AtomFault::Bad(_)) => Err(FlatError::Bad),
        Err(AtomFault::Memory) => Err(FlatError::Memory),
    }
}

// So many atoms, one after the other.
fn build_atoms(
    alloc: Global,
    items: &Items,
    place: usize,
    count: u64,
) -> Result<(Seq<Atom>, usize), FlatError>
    ensures { BuildsAll HasNoFault payload_items items.now place count result }
{
    let mut atoms = Seq::new(alloc);
    let mut next = place;
    for _turn in 0..count {
        let (atom, after) = build_atom(alloc, items, next)?;
        atoms.push(atom)?;
        next = after;
    }
    Ok((atoms, next))
}

// The atoms of a snapshot, after their number.
fn build_snapshot(
    alloc: Global,
    items: &Items,
    place: usize,
) -> Result<(Seq<Atom>, usize), FlatError>
    ensures { Builds (All HasNoFault) (list_items payload_items) items.now place result }
{
    let (count, middle) = u64::build(alloc, items, place)?;
    build_atoms(alloc, items, middle, count)
}

impl Flat for Recorded {
    ghost use Rattle.pull_book.specs.PullItems.{outcome_items, HoldsSoundAtoms, outcome_entries, outcome_bounded, outcome_few, outcome_savable};

    ghost flat = { outcome_items };

    ghost valid = { HoldsSoundAtoms };

    ghost head = { 2 };

    ghost short = { short_head 2 refl };

    ghost entries = { outcome_entries };

    ghost bounded = { outcome_bounded };

    ghost few = { outcome_few };

    ghost spells = { outcome_savable };

    fn show_valid(&self) {
        let _outcome = self.outcome();
    }

    fn flatten(&self, alloc: Global, out: &mut Items) -> Result<(), AllocError> {
        match self.outcome() {
            PullOutcome::Failed => out.push(Item::Num(0)),
            PullOutcome::Atoms(atoms) => {
                out.push(Item::Num(1))?;
                out.push(Item::Num(atoms.len() as u64))?;
                flatten_atoms(atoms.as_slice(), alloc, out)
            }
        }
    }

    fn build(alloc: Global, items: &Items, place: usize) -> Result<(Recorded, usize), FlatError> {
        let (kind, middle) = u64::build(alloc, items, place)?;
        match kind {
            0 => Ok((Recorded::new(PullOutcome::Failed), middle)),
            1 => {
                let (atoms, next) = build_snapshot(alloc, items, middle)?;
                Ok((Recorded::new(PullOutcome::Atoms(atoms)), next))
            }
            _ => Err(FlatError::Bad),
        }
    }
}

// Whether a book may have this row.
fn is_kept(id: u64, recorded: &Recorded) -> bool
    ensures { IsTrue result ↔ IsKeptRow (id, recorded.now) }
{
    id <= u64::from(u32::MAX) && is_pulled(id as u32) && recorded.is_of(id as u32)
}

// Whether a book may have all rows of a table.
fn are_kept(table: &Guarded<u64, Recorded>) -> bool
    ensures { IsTrue result ↔ All IsKeptRow table.now.rows }
{
    for place in 0..table.len() {
        let Some((id, recorded)) = table.pair(place) else {
            return false;
        };
        if !is_kept(*id, recorded) {
            return false;
        }
    }
    true
}

// The book that has this table, or none where no book has it.
fn restore(table: Guarded<u64, Recorded>) -> Option<PullBook>
    ensures made { IfSome result (λ book. (book ≡ table.rows) × IsPullTable table) }
    ensures none { IfNone result (¬ IsPullTable table) }
{
    if table.bound() != MAX_IDS || table.dropped() != 0 || !are_kept(&table) {
        return None;
    }
    Some(PullBook { table })
}

impl Flat for PullBook {
    ghost use Rattle.std.specs.Prelude.{◌≡◌};
    ghost use Rattle.pull_book.specs.PullItems.{book_items, IsPullBook, book_entries, book_bounded, book_few, book_savable};

    ghost flat = { book_items };

    ghost valid = { IsPullBook };

    ghost head = { 3 };

    ghost short = { short_head 3 refl };

    ghost entries = { book_entries };

    ghost bounded = { book_bounded };

    ghost few = { book_few };

    ghost spells = { book_savable };

    fn show_valid(&self) {
        let _count = self.len();
    }

    fn flatten(&self, alloc: Global, out: &mut Items) -> Result<(), AllocError> {
        let _count = self.len();
        self.table.flatten(alloc, out)
    }

    fn build(alloc: Global, items: &Items, place: usize) -> Result<(PullBook, usize), FlatError> {
        let (table, next) = <Guarded<u64, Recorded>>::build(alloc, items, place)?;
        let Some(book) = restore(table) else {
            return Err(FlatError::Bad);
        };
        Ok((book, next))
    }
}
