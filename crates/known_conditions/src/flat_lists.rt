//! The items of lists that are borrowed.
ghost use Rattle.std.specs.Prelude.{◌≡◌, ◌++◌, All, OnOk, OnErr};
ghost use Rattle.std.specs.List.{flat_map};
ghost use Rattle.flat_form.specs.Flat.{IsFront, list_items};

use flat_form::{Flat, Item, Items};
use std::alloc::{AllocError, Global};

/// Each of these objects is valid.
pub fn show_list<T: Flat>(all: &[T])
    ensures { All T.valid all.now }
{
    for value in all {
        value.show_valid();
    }
}

/// Adds the number of these, and their items, as of a list that owns them.
pub fn flatten_list<T: Flat>(all: &[T], alloc: Global, out: &mut Items) -> Result<(), AllocError>
    ensures added { OnOk result (out.new ≡ out.old ++ list_items T.flat all.now) }
    ensures err { OnErr result (IsFront out.old out.new) }
{
    out.push(Item::Num(all.len() as u64))?;
    flatten_each(all, alloc, out)
}

// Adds the items of each, one after the other.
fn flatten_each<T: Flat>(all: &[T], alloc: Global, out: &mut Items) -> Result<(), AllocError>
    ensures added { OnOk result (out.new ≡ out.old ++ flat_map T.flat all.now) }
    ensures err { OnErr result (IsFront out.old out.new) }
{
    for value in all {
        value.flatten(alloc, out)?;
    }
    Ok(())
}
