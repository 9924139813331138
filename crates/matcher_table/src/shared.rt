//! What a slot stands for.
ghost use Rattle.std.specs.Prelude.{◌≡◌, Some, IfOk};
ghost use Rattle.matcher_table.specs.Slots.{children_of};

use config_types::{Operation, SimpleMatcher};
use sd_base::{Duplicate, Exact, Seq};
use std::alloc::{AllocError, Global};

/// A matcher as all clients share it: a simple one, or an operation on what other slots stand for.
#[derive(Debug, Drop, PartialEq, Eq, Hash)]
pub enum SharedMatcher {
    Simple(SimpleMatcher),
    Combination { op: Operation, children: Seq<usize> },
}

impl SharedMatcher {
    /// The slots of the children, in order and as often as they are named.
    pub fn children(&self) -> &[usize]
        ensures { result.now ≡ children_of (Some self.now) }
    {
        match self {
            SharedMatcher::Simple(_) => &[],
            SharedMatcher::Combination { op: _, children } => children.as_slice(),
        }
    }
}

impl Exact for SharedMatcher {
    ghost use Rattle.matcher_table.specs.Equal.{shared_exact};

    ghost exact = { shared_exact };
}

impl Duplicate for SharedMatcher {
    fn duplicate(&self, alloc: Global) -> Result<SharedMatcher, AllocError> {
        match self {
            SharedMatcher::Simple(matcher) => {
                Ok(SharedMatcher::Simple(matcher.clone_matcher(alloc)?))
            }
            SharedMatcher::Combination { op, children } => Ok(SharedMatcher::Combination {
                op: *op,
                children: Seq::from_slice(alloc, children.as_slice())?,
            }),
        }
    }
}
