//! A saved form on an input: its length in eight bytes, and then its bytes.
ghost use Rattle.std.specs.Prelude.{◌≡◌, ◌<◌, ◌≤◌, length, vec_len, IfOk, IfErr};
ghost use Rattle.std.specs.Int.{w64, to_le_bytes};
ghost use Rattle.statsd_cli.specs.Form.{TakesForm, LacksForm, TakesWhole, LacksBytes};

use atom_record::Bytes;
use checkpoint::MOST_SAVED;
use sd_io::{ReadFailed, Source};
use std::alloc::{AllocError, Global};

// How many bytes the length has.
const LENGTH_SIZE: usize = 8;

// The most bytes that are asked of a source at once.
const PIECE: usize = 65_536;

/// Why no saved form was taken.
#[derive(Clone, Copy)]
pub(crate) enum FormError {
    /// The input ended before the form was whole.
    Cut,
    /// The form has so many bytes, which are too many.
    TooLong(u64),
    /// The input failed.
    Read,
    /// Memory was wanting.
    Memory,
}

impl From<ReadFailed> for FormError {
    ghost use Rattle.std.specs.Prelude.{◌≡◌};
    ghost use Rattle.statsd_cli.specs.declared.saved_form.FormError.TheVariants.{Read};

    ghost from_gives = { λ _ e. e ≡ Read };

    fn from(_: ReadFailed) -> FormError {
        FormError::Read
    }
}

impl From<AllocError> for FormError {
    ghost use Rattle.std.specs.Prelude.{◌≡◌};
    ghost use Rattle.statsd_cli.specs.declared.saved_form.FormError.TheVariants.{Memory};

    ghost from_gives = { λ _ e. e ≡ Memory };

    fn from(_: AllocError) -> FormError {
        FormError::Memory
    }
}

/// Takes the saved form that the input begins with. Its length is judged before any room is taken for it, and room is
/// taken as its bytes come.
pub(crate) fn take_form<S: Source>(alloc: Global, input: &mut S) -> Result<Bytes, FormError>
    ensures takes { IfOk result (λ bytes.
        TakesForm (S.state input.old) (S.state input.new) bytes) }
    ensures lacks { IfErr result (LacksForm (S.state input.old) (S.state input.new)) }
{
    let length = take_whole(alloc, input, LENGTH_SIZE)?;
    let size = length_of(&length);
    if size > MOST_SAVED {
        return Err(FormError::TooLong(size));
    }
    let bytes = take_whole(alloc, input, size as usize)?;
    Ok(Bytes::from_vec(bytes))
}

/// The length whose eight bytes these are.
fn length_of(bytes: &[u8]) -> u64
    requires { length bytes.now ≡ 8 }
    ensures { to_le_bytes w64 result ≡ bytes.now }
{
    u64::from_le_bytes([
        bytes[0], bytes[1], bytes[2], bytes[3], bytes[4], bytes[5], bytes[6], bytes[7],
    ])
}

/// The next bytes of an input, so many.
fn take_whole<S: Source>(alloc: Global, input: &mut S, count: usize) -> Result<Vec<u8>, FormError>
    ensures takes { IfOk result (λ bytes.
        TakesWhole (S.state input.old) (S.state input.new) count bytes.items) }
    ensures lacks { IfErr result (LacksBytes (S.state input.old) (S.state input.new) count) }
{
    let mut piece = piece(alloc, count)?;
    let mut bytes = Vec::new(alloc);
    'reads: loop {
        piece.truncate(count - bytes.len());
        if piece.is_empty() {
            return Ok(bytes);
        }
        let got = input.read(&mut piece)?;
        if got == 0 {
            return Err(FormError::Cut);
        }
        bytes.extend_from_slice(&piece[..got])?;
    }
}

/// Room for what one call of a source gives, where so many bytes are wanted.
fn piece(alloc: Global, count: usize) -> Result<Vec<u8>, AllocError>
    ensures { IfOk result (λ room. 0 < count → 0 < vec_len room) }
{
    vec![in alloc; 0; count.min(PIECE)]
}
