//! A table whose calls are made only where they may be.
ghost use Rattle.std.specs.Prelude.{◌≢◌, None, IsTrue};
ghost use Rattle.std.specs.List.{All};
ghost use Rattle.matcher_table.specs.Slots.{matcher_at};
ghost use Rattle.matcher_table.specs.Contents.{contents_of};

use crate::judge::Asked;
use atom_record::parse_atom;
use config_types::{FieldTest, Operation, SimpleMatcher, Test, is_askable};
use matcher_table::{MatcherTable, Slot};
use sd_base::Seq;
use std::alloc::{AllocError, Global};

/// A table and its judge.
#[derive(Drop)]
pub struct Shared {
    alloc: Global,
    table: MatcherTable,
    judge: Asked,
}

impl Shared {
    /// No slot is live, and nothing was asked.
    pub fn new(alloc: Global) -> Shared {
        Shared {
            alloc,
            table: MatcherTable::new(alloc),
            judge: Asked::new(),
        }
    }

    /// The slot of a matcher of an id, which also asks that field 1 is a number, where one is given.
    pub fn simple(&mut self, id: i32, number: Option<i64>) -> Result<Option<usize>, AllocError> {
        let matcher = matcher_of(self.alloc, id, number)?;
        if !is_askable(&matcher) {
            return Ok(None);
        }
        let slot = self.table.intern_simple(&matcher)?;
        Ok(Some(slot.number))
    }

    /// The slot of a combination, or none where a child isn't live.
    pub fn combination(
        &mut self,
        op: Operation,
        children: &[usize],
    ) -> Result<Option<usize>, AllocError> {
        let mut slots = Vec::new(self.alloc);
        for number in children {
            slots.push(Slot { number: *number })?;
        }
        if !are_live(&self.table, slots.as_slice()) {
            return Ok(None);
        }
        let slot = self.table.intern_combination(op, slots.as_slice())?;
        Ok(Some(slot.number))
    }

    /// Releases a slot. It has to have an outside use.
    pub fn release(&mut self, number: usize) -> bool {
        let slot = Slot { number };
        if self.table.outside_uses(slot) == 0 {
            return false;
        }
        self.table.release(slot);
        true
    }

    /// How many questions an atom of an id is.
    pub fn evaluate(&mut self, id: u32) -> Result<Option<u64>, AllocError> {
        let Ok(atom) = parse_atom(self.alloc, &id.to_le_bytes()) else {
            return Ok(None);
        };
        let before = self.judge.ticks();
        self.table.evaluate(&atom, &mut self.judge);
        Ok(Some(self.judge.ticks().saturating_sub(before)))
    }

    /// The truth of a slot, or none where it isn't live.
    pub fn result(&self, number: usize) -> Option<bool> {
        let slot = Slot { number };
        if !self.table.is_live(slot) {
            return None;
        }
        Some(self.table.result(slot))
    }

    /// How many interns of a slot aren't released yet.
    pub fn uses(&self, number: usize) -> usize {
        self.table.outside_uses(Slot { number })
    }
}

fn are_live(table: &MatcherTable, slots: &[Slot]) -> bool
    ensures { IsTrue result → All (λ slot. matcher_at (contents_of table.now).slots slot.number ≢ None) slots.now }
{
    for slot in slots {
        if !table.is_live(*slot) {
            return false;
        }
    }
    true
}

fn matcher_of(alloc: Global, id: i32, number: Option<i64>) -> Result<SimpleMatcher, AllocError> {
    let mut tests = Seq::new(alloc);
    if let Some(number) = number {
        tests.push(FieldTest {
            field: Some(1),
            position: None,
            test: Some(Test::EqInt(number)),
        })?;
    }
    Ok(SimpleMatcher {
        atom_id: Some(id),
        tests,
    })
}
