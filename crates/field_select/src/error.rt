//! Why a set of fields isn't given.
ghost use Rattle.std.specs.Prelude.{◌≡◌};

use std::alloc::AllocError;
use thiserror::Error;

/// Why there is no set of leaves.
#[derive(Debug, Drop, PartialEq, Eq, Error)]
pub enum SelectError {
    /// The tree of field numbers isn't well-formed.
    #[error("bad form")]
    BadForm,
    /// Memory was wanting.
    #[error("out of memory")]
    Memory,
}

impl From<AllocError> for SelectError {
    ghost use Rattle.field_select.specs.declared.error.SelectError.TheVariants.{Memory};

    ghost from_gives = { λ _ error. error ≡ Memory };

    fn from(_: AllocError) -> SelectError {
        SelectError::Memory
    }
}
