//! Items that can be spelled, held as their bytes.
ghost use Rattle.std.specs.Prelude.{◌≡◌, ◌<◌, ◌≤◌, ◌^◌, [], ◌∷◌, ◌++◌, length, drop, IfOk, OnOk, OnErr, slice_get};
ghost use Rattle.flat_form.specs.Savable.{IsSavable};
ghost use Rattle.flat_form.specs.ItemRange.{CanBeSpelled, ReadsItems};
ghost use Rattle.flat_form.specs.ItemSpelling.{spelled_items};
ghost use Rattle.flat_form.specs.Spelled.{AreSpelled, FindsStarts, items_from};

use crate::decode::item_of;
use crate::encode::Encode;
use crate::range::fit_item;
use crate::{FlatError, Item};
use sd_base::Seq;
use std::alloc::{AllocError, Global};
use std::marker::Model;

/// A list of items that can be spelled. It holds the bytes of their spelling, and builds an item again where one is
/// asked for.
#[derive(Drop)]
pub(crate) struct SpelledItems {
    bytes: Vec<u8>,
    /// Where each item begins.
    starts: Seq<usize>,
    /// Room for the spelling of one more item.
    spelling: Vec<u8>,
}

impl Model for SpelledItems {
    ghost use Rattle.std.specs.Prelude.{List};
    ghost use Rattle.flat_form.specs.declared.item.Item.{Item};
    ghost use Rattle.flat_form.specs.Spelled.{AreSpelled, items_from};

    ghost Value = { List Item };

    ghost view = { λ s. items_from s.bytes.items s.starts };

    ghost invariant = { λ s. AreSpelled s.bytes.items s.starts };
}

impl SpelledItems {
    /// The empty list. It takes no memory yet.
    pub(crate) fn new(alloc: Global) -> SpelledItems
        ensures { result ≡ [] }
    {
        SpelledItems {
            bytes: Vec::new(alloc),
            starts: Seq::new(alloc),
            spelling: Vec::new(alloc),
        }
    }

    /// The items whose spelling the bytes are. `Bad` comes exactly where they are the spelling of none.
    pub(crate) fn decode(alloc: Global, bytes: Vec<u8>) -> Result<SpelledItems, FlatError>
        ensures { ReadsItems bytes.items result }
    {
        let starts = find_starts(alloc, &bytes)?;
        Ok(SpelledItems {
            bytes,
            starts,
            spelling: Vec::new(alloc),
        })
    }

    /// Adds an item at the end.
    pub(crate) fn push(&mut self, alloc: Global, item: &Item) -> Result<(), AllocError>
        requires { IsSavable item.now }
        ensures added { OnOk result (self.new ≡ self.old ++ item.now ∷ []) }
        ensures err { OnErr result (self.new ≡ self.old) }
    {
        fit_item(item);
        self.spelling.clear();
        item.encode(alloc, &mut self.spelling)?;
        append(&mut self.bytes, &mut self.starts, &self.spelling)?;
        Ok(())
    }

    /// The item at a place, and none exactly past the end.
    pub(crate) fn at(&self, alloc: Global, place: usize) -> Result<Option<Item>, AllocError>
        ensures { IfOk result (λ item. item ≡ slice_get self.now place) }
    {
        item_from(alloc, &self.bytes, &self.starts, place)
    }

    /// The number of items. Each has a byte at least.
    pub(crate) fn len(&self) -> usize
        ensures count { result ≡ length self.now }
        ensures bound { result < 2 ^ 63 }
    {
        self.starts.len()
    }

    /// The number of bytes of their spelling.
    pub(crate) fn size(&self) -> usize
        ensures { result ≡ length (spelled_items self.now) }
    {
        self.bytes.len()
    }

    /// Their spelling.
    pub(crate) fn into_bytes(self) -> Vec<u8>
        ensures { result.items ≡ spelled_items self }
    {
        self.bytes
    }

    /// They can be spelled. It does nothing when it runs.
    pub(crate) fn show_spelled(&self)
        ensures { CanBeSpelled self.now }
    {
        let _bytes = &self.bytes;
    }
}

// Adds the spelling of an item, and where it begins; or nothing.
fn append(bytes: &mut Vec<u8>, starts: &mut Seq<usize>, spelling: &[u8]) -> Result<(), AllocError>
    ensures bytes { OnOk result (bytes.new.items ≡ bytes.old.items ++ spelling.now) }
    ensures starts { OnOk result (starts.new ≡ starts.old ++ length bytes.old.items ∷ []) }
    ensures err { OnErr result ((bytes.new.items ≡ bytes.old.items) × (starts.new ≡ starts.old)) }
{
    let start = bytes.len();
    bytes.extend_from_slice(spelling)?;
    let noted = starts.push(start);
    if noted.is_err() {
        bytes.truncate(start);
    }
    noted
}

// The item at a place, built from the bytes from where it begins on.
fn item_from(
    alloc: Global,
    bytes: &[u8],
    starts: &Seq<usize>,
    place: usize,
) -> Result<Option<Item>, AllocError>
    requires { AreSpelled bytes.now starts.now }
    ensures { IfOk result (λ item. item ≡ slice_get (items_from bytes.now starts.now) place) }
{
    let Some(start) = starts.get(place) else {
        return Ok(None);
    };
    match item_of(alloc, bytes_from(bytes, *start)) {
        Ok((item, _after)) => Ok(Some(item)),
        Err(FlatError::Memory) => Err(AllocError),
        // An item begins there.
        Err(FlatError::Bad) => unreachable!(),
    }
}

// The bytes from a place on.
fn bytes_from(bytes: &[u8], start: usize) -> &[u8]
    requires { start ≤ length bytes.now }
    ensures { result.now ≡ drop start bytes.now }
{
    &bytes[start..]
}

// Where each of the items begins whose spelling the bytes are.
fn find_starts(alloc: Global, bytes: &[u8]) -> Result<Seq<usize>, FlatError>
    ensures { FindsStarts bytes.now result }
{
    let mut starts = Seq::new(alloc);
    let mut rest = bytes;
    while !rest.is_empty() {
        starts.push(bytes.len() - rest.len())?;
        let (item, after) = item_of(alloc, rest)?;
        drop(item);
        rest = after;
    }
    Ok(starts)
}
