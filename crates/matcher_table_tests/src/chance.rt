//! Steps by chance, from a fixed seed, on a table and on the plain model.
ghost use Rattle.std.specs.Prelude.{◌≤◌};

use crate::model::{Body, Model};
use crate::shared::Shared;
use config_types::Operation;
use std::alloc::{AllocError, Global};

/// The most live slots before one is released.
const CROWDED: usize = 20;

/// Numbers that look as if by chance.
#[derive(Drop)]
struct Dice {
    state: u64,
}

impl Dice {
    // A number below this one, or 0.
    fn below(&mut self, end: usize) -> usize {
        self.state = self
            .state
            .wrapping_mul(6_364_136_223_846_793_005)
            .wrapping_add(1_442_695_040_888_963_407);
        ((self.state >> 33) as usize).checked_rem(end).unwrap_or(0)
    }
}

/// Both sides of the comparison.
#[derive(Drop)]
struct Pair {
    alloc: Global,
    dice: Dice,
    shared: Shared,
    model: Model,
}

/// Takes so many steps, and tells the first at which the two differ.
pub fn run(alloc: Global, steps: u64) -> Result<String, AllocError> {
    let mut pair = Pair {
        alloc,
        dice: Dice { state: 20_211_008 },
        shared: Shared::new(alloc),
        model: Model::new(alloc),
    };
    for step in 0..steps {
        if !pair.step()? {
            return format!(in alloc; "step {step} differs");
        }
    }
    let slots = pair.model.len();
    format!(in alloc; "{steps} steps agree, over {slots} slots")
}

impl Pair {
    fn step(&mut self) -> Result<bool, AllocError> {
        if CROWDED < self.model.live() {
            return self.release();
        }
        match self.dice.below(20) {
            0..7 => self.simple(),
            7..13 => self.combination(),
            13..18 => self.release(),
            _ => self.evaluate(),
        }
    }

    // An atom id: 5 and 6 come often, and others seldom.
    fn id(&mut self) -> u32
        ensures { result ≤ 8 }
    {
        match self.dice.below(12) {
            0..5 => 5,
            5..9 => 6,
            9..11 => 7,
            _ => 8,
        }
    }

    fn simple(&mut self) -> Result<bool, AllocError> {
        let id = self.id();
        let number = match self.dice.below(6) {
            0 => Some(1),
            1 => Some(2),
            2 => Some(3),
            3 => Some(4),
            _ => None,
        };
        let got = self.shared.simple(id as i32, number)?;
        let want = self.model.intern(Body::Simple { id, number })?;
        Ok(got == want)
    }

    fn combination(&mut self) -> Result<bool, AllocError> {
        let op = match self.dice.below(5) {
            0 => Operation::And,
            1 => Operation::Or,
            2 => Operation::Not,
            3 => Operation::Nand,
            _ => Operation::Nor,
        };
        let mut children = Vec::new(self.alloc);
        let count = self.dice.below(3);
        let len = self.model.len();
        for _ in 0..=count {
            let child = self.dice.below(len);
            children.push(child)?;
        }
        let got = self.shared.combination(op, children.as_slice())?;
        let want = self.model.intern(Body::Combination { op, children })?;
        Ok(got == want)
    }

    fn release(&mut self) -> Result<bool, AllocError> {
        let len = self.model.len();
        let slot = self.dice.below(len);
        let got = self.shared.release(slot);
        let want = self.model.release(slot)?;
        Ok(got == want && self.is_same())
    }

    fn evaluate(&mut self) -> Result<bool, AllocError> {
        let id = self.id();
        let got = self.shared.evaluate(id)?;
        let want = self.model.evaluate(id)?;
        Ok(got == Some(want) && self.is_same())
    }

    // Whether each slot has the same truth and the same uses.
    fn is_same(&self) -> bool {
        (0..self.model.len()).all(|slot| {
            self.shared.result(slot) == self.model.result(slot)
                && self.shared.uses(slot) == self.model.uses(slot)
        })
    }
}
