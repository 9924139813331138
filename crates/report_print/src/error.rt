//! Why a report isn't printed.
ghost use Rattle.std.specs.Prelude.{◌≡◌};

use report_show::ShowError;
use sd_io::{FrontError, WriteFailed};
use std::alloc::AllocError;
use thiserror::Error;

/// Why bytes are no report.
#[derive(Clone, Copy, Debug, PartialEq, Eq, Error)]
pub enum ReportFault {
    /// They are more than a report may have.
    #[error("too long")]
    TooLong,
    /// No report is spelled so.
    #[error("not a report")]
    NotReport,
}

/// Why a report isn't printed.
#[derive(Clone, Copy, Debug, PartialEq, Eq, Error)]
pub enum PrintError {
    /// What was read is no report.
    #[error("report refused: {0}")]
    Refused(ReportFault),
    /// The input failed.
    #[error("the input failed")]
    Read,
    /// The output failed.
    #[error("the output failed")]
    Write,
    /// Memory was wanting.
    #[error("out of memory")]
    Memory,
}

impl From<FrontError> for PrintError {
    ghost use Rattle.report_print.specs.Prints.{unread_report};

    ghost from_gives = { λ front e. e ≡ unread_report front };

    fn from(front: FrontError) -> PrintError {
        match front {
            FrontError::Read => PrintError::Read,
            FrontError::Memory => PrintError::Memory,
        }
    }
}

impl From<ShowError> for PrintError {
    ghost use Rattle.report_print.specs.Prints.{unshown_report};

    ghost from_gives = { λ error e. e ≡ unshown_report error };

    fn from(error: ShowError) -> PrintError {
        match error {
            ShowError::TooLong(_) => PrintError::Refused(ReportFault::TooLong),
            ShowError::NotReport => PrintError::Refused(ReportFault::NotReport),
            ShowError::Memory => PrintError::Memory,
        }
    }
}

impl From<WriteFailed> for PrintError {
    ghost use Rattle.report_print.specs.declared.error.PrintError.TheVariants.{Write};

    ghost from_gives = { λ _ e. e ≡ Write };

    fn from(_: WriteFailed) -> PrintError {
        PrintError::Write
    }
}

impl From<AllocError> for PrintError {
    ghost use Rattle.report_print.specs.declared.error.PrintError.TheVariants.{Memory};

    ghost from_gives = { λ _ e. e ≡ Memory };

    fn from(_: AllocError) -> PrintError {
        PrintError::Memory
    }
}
