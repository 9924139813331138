//! Where a producer takes memory from.
use std::alloc::Global;
use std::marker::Model;

/// An allocator that a producer keeps. A contract doesn't see which it is.
#[derive(Drop)]
pub struct Memory {
    alloc: Global,
}

impl Model for Memory {
    ghost Value = { Unit {0} };

    ghost view = { λ m. tt };
}

impl Memory {
    /// Keeps the allocator.
    pub fn new(alloc: Global) -> Memory {
        Memory { alloc }
    }

    /// The allocator.
    pub fn alloc(&self) -> Global {
        self.alloc
    }
}
