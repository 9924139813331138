//! Why a check ended before its line was written.
ghost use Rattle.std.specs.Prelude.{◌≡◌};

use sd_io::{FrontError, WriteFailed};
use std::alloc::AllocError;
use thiserror::Error;

/// Why nothing was told of a configuration.
#[derive(Clone, Copy, Debug, PartialEq, Eq, Error)]
pub enum CheckError {
    /// The input failed.
    #[error("the input failed")]
    Read,
    /// The output failed.
    #[error("the output failed")]
    Write,
    /// Memory was wanting.
    #[error("out of memory")]
    Memory,
}

impl From<FrontError> for CheckError {
    ghost use Rattle.config_check.specs.Checks.{check_error};

    ghost from_gives = { λ front e. e ≡ check_error front };

    fn from(front: FrontError) -> CheckError {
        match front {
            FrontError::Read => CheckError::Read,
            FrontError::Memory => CheckError::Memory,
        }
    }
}

impl From<WriteFailed> for CheckError {
    ghost use Rattle.config_check.specs.declared.error.CheckError.TheVariants.{Write};

    ghost from_gives = { λ _ e. e ≡ Write };

    fn from(_: WriteFailed) -> CheckError {
        CheckError::Write
    }
}

impl From<AllocError> for CheckError {
    ghost use Rattle.config_check.specs.declared.error.CheckError.TheVariants.{Memory};

    ghost from_gives = { λ _ e. e ≡ Memory };

    fn from(_: AllocError) -> CheckError {
        CheckError::Memory
    }
}
