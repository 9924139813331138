//! Whether an item comes twice.
ghost use Rattle.std.specs.Prelude.{◌≡◌, List, Option, None, IfOk};
ghost use Rattle.distinct.specs.Repeats.{repeat_in, AreApart};

use crate::Distinct;
use sd_base::Exact;
use std::alloc::{AllocError, Global};
use std::hash::Hash;

/// The first item that stood earlier in the list. Each is looked up once.
pub fn first_repeat<T: Exact + Hash + Copy>(
    alloc: Global,
    items: &[T],
) -> Result<Option<T>, AllocError>
    ensures first { IfOk result (λ found. found ≡ repeat_in T.eq items.now) }
{
    let mut seen = Distinct::new(alloc);
    for item in items {
        if !seen.add(*item)? {
            return Ok(Some(*item));
        }
    }
    Ok(None)
}

/// Where no item stood earlier, any two of a list differ.
pub fn without_repeat_items_differ<T: Exact + Hash>()
    ensures apart { (items : List T) → repeat_in T.eq items ≡ None → AreApart items }
{}
