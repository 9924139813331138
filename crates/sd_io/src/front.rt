//! The front of an input, read whole.
ghost use Rattle.std.specs.Prelude.{◌<◌, vec_len, IfOk, IfErr};
ghost use Rattle.sd_io.specs.Causes.{Takes};
ghost use Rattle.sd_io.specs.Fronts.{CutsFront, IsFrontTaken};

use crate::{ReadFailed, Source};
use std::alloc::{AllocError, Global};

/// How many bytes are asked of a source at once.
const PIECE: usize = 65_536;

/// Why the front of an input wasn't read whole.
#[derive(Clone, Copy, Debug, PartialEq, Eq)]
pub enum FrontError {
    /// The input failed.
    Read,
    /// Memory was wanting.
    Memory,
}

impl From<ReadFailed> for FrontError {
    ghost use Rattle.std.specs.Prelude.{◌≡◌};
    ghost use Rattle.sd_io.specs.declared.front.FrontError.TheVariants.{Read};

    ghost from_gives = { λ _ e. e ≡ Read };

    fn from(_: ReadFailed) -> FrontError {
        FrontError::Read
    }
}

impl From<AllocError> for FrontError {
    ghost use Rattle.std.specs.Prelude.{◌≡◌};
    ghost use Rattle.sd_io.specs.declared.front.FrontError.TheVariants.{Memory};

    ghost from_gives = { λ _ e. e ≡ Memory };

    fn from(_: AllocError) -> FrontError {
        FrontError::Memory
    }
}

/// The bytes of an input to its end, or, where it has more, its first ones, as many as are taken at most.
pub fn read_at_most<S: Source>(
    alloc: Global,
    input: &mut S,
    most: usize,
) -> Result<Vec<u8>, FrontError>
    // The front is taken whole.
    ensures consumes { IfOk result (λ bytes.
        Takes (S.state input.old) (S.state input.new) bytes.items) }
    ensures whole { IfOk result (λ bytes. IsFrontTaken most bytes.items (S.state input.new)) }

    // An error comes after some of it.
    ensures broken { IfErr result (CutsFront (S.state input.old) (S.state input.new)) }
{
    let mut piece = piece(alloc)?;
    let mut bytes = Vec::new(alloc);
    'reads: loop {
        piece.truncate(most - bytes.len());
        if piece.is_empty() {
            return Ok(bytes);
        }
        let count = input.read(&mut piece)?;
        if count == 0 {
            return Ok(bytes);
        }
        bytes.extend_from_slice(&piece[..count])?;
    }
}

/// Room for what one call of a source gives.
fn piece(alloc: Global) -> Result<Vec<u8>, AllocError>
    ensures { IfOk result (λ room. 0 < vec_len room) }
{
    vec![in alloc; 0; PIECE]
}
