//! Why bytes are no configuration.
ghost use Rattle.std.specs.Prelude.{◌≡◌};

use proto_wire::WireFault;
use sd_base::Path;
use std::alloc::{AllocError, AllocFailed};
use thiserror::Error;

/// Why there is no tree.
#[derive(Debug, Drop, Error)]
pub enum DecodeFault {
    /// There are more than [`crate::MAX_BYTES`] bytes, so many.
    #[error("too large: {0} bytes")]
    TooLarge(u32),
    /// The first fault of the wire format.
    #[error("malformed: {0:?}")]
    Wire(WireFault),
    /// The path of the first record that isn't supported.
    #[error("unsupported: {0:?}")]
    Unsupported(Path),
    /// The allocator gave no memory.
    #[error("out of memory")]
    Memory,
}

impl From<AllocError> for DecodeFault {
    ghost use Rattle.config_decode.specs.declared.fault.DecodeFault.TheVariants.{Memory};

    ghost from_gives = { λ _ e. e ≡ Memory };

    fn from(_e: AllocError) -> DecodeFault {
        DecodeFault::Memory
    }
}

impl<T: Drop> From<AllocFailed<T>> for DecodeFault {
    ghost use Rattle.config_decode.specs.declared.fault.DecodeFault.TheVariants.{Memory};

    ghost from_gives = { λ _ e. e ≡ Memory };

    fn from(_e: AllocFailed<T>) -> DecodeFault {
        DecodeFault::Memory
    }
}

impl From<WireFault> for DecodeFault {
    ghost use Rattle.config_decode.specs.declared.fault.DecodeFault.TheVariants.{Wire};

    ghost from_gives = { λ fault e. e ≡ Wire fault };

    fn from(fault: WireFault) -> DecodeFault {
        DecodeFault::Wire(fault)
    }
}
