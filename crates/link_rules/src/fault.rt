//! Why a configuration is refused.
ghost use Rattle.std.specs.Prelude.{◌≡◌};

use std::alloc::AllocError;
use thiserror::Error;

/// The first fault of a configuration.
#[derive(Clone, Copy, Debug, PartialEq, Eq, Error)]
#[error("fault {number}, reason {reason}, value {value}")]
pub struct LinkFault {
    /// What is wrong, from 1 to 10.
    pub number: u8,
    /// Which of the limits, which kind of entity, or which reason.
    pub reason: u8,
    /// The id or the number that is at fault.
    pub value: i64,
}

/// Why there is no linked configuration.
#[derive(Debug, Drop, PartialEq, Eq, Error)]
pub enum LinkError {
    /// The configuration has this fault.
    #[error("bad configuration: {0}")]
    Fault(LinkFault),
    /// Memory was wanting.
    #[error("out of memory")]
    Memory,
}

impl From<AllocError> for LinkError {
    ghost use Rattle.link_rules.specs.declared.fault.LinkError.TheVariants.{Memory};

    ghost from_gives = { λ _ e. e ≡ Memory };

    fn from(_: AllocError) -> LinkError {
        LinkError::Memory
    }
}

// The numbers of faults.

pub const PAST_LIMIT: u8 = 1;

pub const NO_ID: u8 = 2;

pub const DUPLICATE_ID: u8 = 3;

pub const UNKNOWN_MATCHER: u8 = 4;

pub const UNKNOWN_PREDICATE: u8 = 5;

pub const UNKNOWN_STATE: u8 = 6;

pub const MATCHER_CYCLE: u8 = 7;

pub const PREDICATE_CYCLE: u8 = 8;

/// An id of a metric leads to none.
pub const UNKNOWN_METRIC: u8 = 10;

// The kinds of entities.

pub const MATCHER: u8 = 1;

pub const PREDICATE: u8 = 2;

pub const STATE: u8 = 3;

pub const METRIC: u8 = 4;

/// The kind of alerts.
pub const ALERT: u8 = 5;
