//! Why nothing was built.
ghost use Rattle.std.specs.Prelude.{◌≡◌};

use std::alloc::{AllocError, AllocFailed};
use thiserror::Error;

/// Why there is no value.
#[derive(Debug, Drop, PartialEq, Eq, Error)]
pub enum FlatError {
    /// No value has this form.
    #[error("bad form")]
    Bad,
    #[error("out of memory")]
    Memory,
}

impl From<AllocError> for FlatError {
    ghost use Rattle.flat_form.specs.declared.flat_error.FlatError.TheVariants.{Memory};

    ghost from_gives = { λ _ e. e ≡ Memory };

    fn from(_e: AllocError) -> FlatError {
        FlatError::Memory
    }
}

impl<T: Drop> From<AllocFailed<T>> for FlatError {
    ghost use Rattle.flat_form.specs.declared.flat_error.FlatError.TheVariants.{Memory};

    ghost from_gives = { λ _ e. e ≡ Memory };

    fn from(_e: AllocFailed<T>) -> FlatError {
        FlatError::Memory
    }
}
