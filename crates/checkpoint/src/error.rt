//! Why a hub isn't saved, or none is resumed.
ghost use Rattle.std.specs.Prelude.{◌≡◌};

use flat_form::FlatError;
use std::alloc::AllocError;
use thiserror::Error;

/// Why a hub isn't saved.
#[derive(Clone, Copy, Debug, PartialEq, Eq, Error)]
pub enum SaveError {
    /// Its saved form would have so many bytes, which are too many.
    #[error("too long {0}")]
    TooLong(u64),
    /// Memory was wanting.
    #[error("out of memory")]
    Memory,
}

/// Why no hub is resumed.
#[derive(Clone, Copy, Debug, PartialEq, Eq, Error)]
pub enum ResumeError {
    /// The bytes are the saved form of no hub.
    #[error("not saved")]
    NotSaved,
    /// Memory was wanting.
    #[error("out of memory")]
    Memory,
}

impl From<AllocError> for SaveError {
    ghost use Rattle.checkpoint.specs.declared.error.SaveError.TheVariants.{Memory};

    ghost from_gives = { λ _ e. e ≡ Memory };

    fn from(_: AllocError) -> SaveError {
        SaveError::Memory
    }
}

impl From<FlatError> for ResumeError {
    ghost use Rattle.checkpoint.specs.Refusals.{resume_error};

    ghost from_gives = { λ error e. e ≡ resume_error error };

    fn from(error: FlatError) -> ResumeError {
        match error {
            FlatError::Bad => ResumeError::NotSaved,
            FlatError::Memory => ResumeError::Memory,
        }
    }
}
