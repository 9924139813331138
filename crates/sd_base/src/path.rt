//! A path into a message: the field numbers that lead from its top to a record.
ghost use Rattle.std.specs.Prelude.{◌≡◌, ◌≤◌, [], length, IfOk};
ghost use Rattle.sd_base.specs.Paths.{most_numbers};

use crate::Seq;
use std::alloc::{AllocError, Global};
use std::marker::Model;

/// Field numbers, from the top of a message to a record in it. There are at most 101: one for each of a hundred
/// messages that are open, and one for the record itself. Contracts see their list.
#[derive(Debug, Drop, PartialEq, Eq)]
pub struct Path {
    numbers: Seq<u32>,
}

impl Model for Path {
    ghost use Rattle.std.specs.Prelude.{List, ℕ, ◌≤◌, length};
    ghost use Rattle.std.specs.Coded.{coded_list};
    ghost use Rattle.sd_base.specs.Paths.{most_numbers};

    ghost Value = { List ℕ };

    ghost view = { λ s. s.numbers };

    ghost inverse = { λ numbers. record { numbers = numbers } };

    ghost invariant = { λ s. length s.numbers ≤ most_numbers };
}

impl Path {
    /// The path to the top itself. It takes no memory.
    pub fn new(alloc: Global) -> Path
        ensures { result ≡ [] }
    {
        Path {
            numbers: Seq::new(alloc),
        }
    }

    /// The path of these numbers.
    pub fn from_slice(alloc: Global, numbers: &[u32]) -> Result<Path, AllocError>
        requires { length numbers.now ≤ most_numbers }
        ensures { IfOk result (λ path. path ≡ numbers.now) }
    {
        let numbers = Seq::from_slice(alloc, numbers)?;
        Ok(Path { numbers })
    }

    /// The numbers, borrowed.
    pub fn as_slice(&self) -> &[u32]
        ensures numbers { result.now ≡ self.now }
        ensures most { length self.now ≤ most_numbers }
    {
        self.numbers.as_slice()
    }
}
