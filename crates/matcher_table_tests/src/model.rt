//! A plain model of a table: it looks through all slots for each answer.

use config_types::Operation;
use std::alloc::{AllocError, Global};

/// What a slot stands for.
#[derive(Drop, PartialEq)]
pub enum Body {
    Simple { id: u32, number: Option<i64> },
    Combination { op: Operation, children: Vec<usize> },
}

/// A live slot.
#[derive(Drop)]
struct Entry {
    body: Body,
    outside: usize,
    made: u64,
    truth: bool,
}

/// Slots by their numbers, and the numbers that are free, the next one last.
#[derive(Drop)]
pub struct Model {
    alloc: Global,
    entries: Vec<Option<Entry>>,
    free: Vec<usize>,
    made: u64,
}

impl Model {
    /// No slot is live.
    pub fn new(alloc: Global) -> Model {
        Model {
            alloc,
            entries: Vec::new(alloc),
            free: Vec::new(alloc),
            made: 0,
        }
    }

    /// The number of slots, live or not.
    pub fn len(&self) -> usize {
        self.entries.len()
    }

    /// How many slots are live.
    pub fn live(&self) -> usize {
        self.entries.iter().filter(|entry| entry.is_some()).count()
    }

    fn entry(&self, slot: usize) -> Option<&Entry> {
        self.entries.get(slot)?.as_ref()
    }

    /// The truth of a live slot.
    pub fn result(&self, slot: usize) -> Option<bool> {
        Some(self.entry(slot)?.truth)
    }

    /// The outside uses of a slot.
    pub fn uses(&self, slot: usize) -> usize {
        match self.entry(slot) {
            Some(entry) => entry.outside,
            None => 0,
        }
    }

    /// One more use of what equals the body, or a new slot.
    pub fn intern(&mut self, body: Body) -> Result<Option<usize>, AllocError> {
        if !self.has_children(&body) {
            return Ok(None);
        }
        match self.slot_of(&body) {
            Some(slot) => {
                self.raise(slot);
                Ok(Some(slot))
            }
            None => {
                let slot = self.make(body)?;
                Ok(Some(slot))
            }
        }
    }

    fn has_children(&self, body: &Body) -> bool {
        match body {
            Body::Simple { id: _, number: _ } => true,
            Body::Combination { op: _, children } => {
                children.iter().all(|child| self.entry(*child).is_some())
            }
        }
    }

    fn slot_of(&self, body: &Body) -> Option<usize> {
        for slot in 0..self.entries.len() {
            if let Some(entry) = self.entry(slot) {
                if entry.body == *body {
                    return Some(slot);
                }
            }
        }
        None
    }

    fn raise(&mut self, slot: usize) {
        if let Some(Some(entry)) = self.entries.get_mut(slot) {
            entry.outside = entry.outside.saturating_add(1);
        }
    }

    fn make(&mut self, body: Body) -> Result<usize, AllocError> {
        self.made = self.made.saturating_add(1);
        let entry = Entry {
            body,
            outside: 1,
            made: self.made,
            truth: false,
        };
        match self.free.pop() {
            Some(slot) => {
                if let Some(place) = self.entries.get_mut(slot) {
                    *place = Some(entry);
                }
                Ok(slot)
            }
            None => {
                let slot = self.entries.len();
                self.entries.push(Some(entry))?;
                Ok(slot)
            }
        }
    }

    /// One use fewer, where there is one. The youngest slot without a use goes first.
    pub fn release(&mut self, slot: usize) -> Result<bool, AllocError> {
        if self.uses(slot) == 0 {
            return Ok(false);
        }
        if let Some(Some(entry)) = self.entries.get_mut(slot) {
            entry.outside = entry.outside.saturating_sub(1);
        }
        for _ in 0..self.entries.len() {
            let Some(unused) = self.youngest_unused() else {
                return Ok(true);
            };
            if let Some(place) = self.entries.get_mut(unused) {
                *place = None;
            }
            self.free.push(unused)?;
        }
        Ok(true)
    }

    fn youngest_unused(&self) -> Option<usize> {
        let mut found: Option<usize> = None;
        let mut youngest: u64 = 0;
        for slot in 0..self.entries.len() {
            if let Some(entry) = self.entry(slot) {
                if entry.outside == 0 && youngest < entry.made && !self.is_child(slot) {
                    youngest = entry.made;
                    found = Some(slot);
                }
            }
        }
        found
    }

    fn is_child(&self, slot: usize) -> bool {
        self.entries.iter().any(|place| match place {
            Some(entry) => names(&entry.body, slot),
            None => false,
        })
    }

    /// Finds all truths, those of older slots first, and tells how many questions that is.
    pub fn evaluate(&mut self, id: u32) -> Result<u64, AllocError> {
        let mut order: Vec<(u64, usize)> = Vec::new(self.alloc);
        for slot in 0..self.entries.len() {
            if let Some(entry) = self.entry(slot) {
                order.push((entry.made, slot))?;
            }
        }
        order.sort()?;
        let mut asked: u64 = 0;
        for (_, slot) in &order {
            let (truth, questions) = self.truth_of(*slot, id);
            asked = asked.saturating_add(questions);
            if let Some(Some(entry)) = self.entries.get_mut(*slot) {
                entry.truth = truth;
            }
        }
        Ok(asked)
    }

    fn truth_of(&self, slot: usize, id: u32) -> (bool, u64) {
        match self.entry(slot) {
            None => (false, 0),
            Some(entry) => match &entry.body {
                Body::Simple { id: own, number } => {
                    if *own == id {
                        (number.is_none(), 1)
                    } else {
                        (false, 0)
                    }
                }
                Body::Combination { op, children } => (self.joined(*op, children.as_slice()), 0),
            },
        }
    }

    fn joined(&self, op: Operation, children: &[usize]) -> bool {
        let all = children
            .iter()
            .all(|child| self.result(*child) == Some(true));
        let any = children
            .iter()
            .any(|child| self.result(*child) == Some(true));
        match op {
            Operation::And => all,
            Operation::Or => any,
            Operation::Not => !any,
            Operation::Nand => !all,
            Operation::Nor => !any,
        }
    }
}

fn names(body: &Body, slot: usize) -> bool {
    match body {
        Body::Simple { id: _, number: _ } => false,
        Body::Combination { op: _, children } => children.iter().any(|child| *child == slot),
    }
}
