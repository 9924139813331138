//! Values through items to bytes, and through items to themselves.
ghost use Rattle.std.specs.Prelude.{◌≡◌, ◌≢◌, ◌≤◌, length, IfOk, Err};
ghost use Rattle.flat_form.specs.declared.flat_error.FlatError.TheVariants.{Bad};
ghost use Rattle.flat_form.specs.ItemSpelling.{spelled_items};
ghost use Rattle.flat_form.specs.Weight.{most_bytes};

use crate::{Flat, FlatError, Items, encode_items};
use atom_record::Bytes;
use std::alloc::{AllocError, Global};

/// The bytes of a value: 9 for each item of its head, 72 for each entry, and what its items hold, at most.
pub fn save<T: Flat>(alloc: Global, value: &T) -> Result<Bytes, AllocError>
    requires { T.savable value.now }
    ensures spelled { IfOk result (λ bytes. bytes ≡ spelled_items (T.flat value.now)) }
    ensures size { IfOk result (λ bytes.
        length bytes ≤ most_bytes T.head (T.entries value.now) (T.flat value.now)) }
{
    let mut items = Items::new(alloc);
    value.flatten(alloc, &mut items)?;
    encode_items(alloc, items)
}

/// The value again, built from its own items.
pub fn rebuild<T: Flat + Drop>(alloc: Global, value: &T) -> Result<T, FlatError>
    ensures same { IfOk result (λ copy. copy ≡ value.now) }
    ensures never_bad { result ≢ Err Bad }
{
    let mut items = Items::new(alloc);
    value.flatten(alloc, &mut items)?;
    let (copy, _next) = T::build(alloc, &items, 0)?;
    Ok(copy)
}
