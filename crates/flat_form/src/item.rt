//! Items, of which a saved thing is made.
ghost use Rattle.std.specs.Prelude.{◌≡◌, [], ◌∷◌, ◌++◌, length, IfOk, OnOk, OnErr, slice_get};

use crate::fits::is_savable;
use crate::spelled::SpelledItems;
use atom_record::{Atom, Bytes, DimKey, Slice};
use sd_base::{Duplicate, Seq};
use std::alloc::{AllocError, Global};
use std::marker::Model;

/// One part of a saved thing.
#[derive(Drop, PartialEq, Eq)]
pub enum Item {
    Num(u64),
    /// A key of dimensions.
    Dims(DimKey),
    /// The slices of a key.
    Slices(Seq<Slice>),
    /// An atom.
    AtomItem(Atom),
    /// Bytes that mean something to their owner alone.
    Chunk(Bytes),
}

impl Duplicate for Item {
    fn duplicate(&self, alloc: Global) -> Result<Item, AllocError> {
        Ok(match self {
            Item::Num(number) => Item::Num(*number),
            Item::Dims(dims) => Item::Dims(dims.duplicate(alloc)?),
            Item::Slices(slices) => Item::Slices(slices.duplicate(alloc)?),
            Item::AtomItem(atom) => Item::AtomItem(atom.duplicate(alloc)?),
            Item::Chunk(bytes) => Item::Chunk(bytes.duplicate(alloc)?),
        })
    }
}

/// A list of items. It holds them as the bytes of their spelling, and as they are from the first on that can't be
/// spelled; so an item that is asked for is built.
#[derive(Drop)]
pub struct Items {
    spelled: SpelledItems,
    others: Vec<Item>,
    alloc: Global,
}

impl Model for Items {
    ghost use Rattle.std.specs.Prelude.{List, ◌++◌};
    ghost use Rattle.flat_form.specs.declared.item.Item.{Item};

    ghost Value = { List Item };

    ghost view = { λ s. s.spelled ++ s.others.items };
}

impl Items {
    /// The empty list. It takes no memory yet.
    pub fn new(alloc: Global) -> Items
        ensures { result ≡ [] }
    {
        Items {
            spelled: SpelledItems::new(alloc),
            others: Vec::new(alloc),
            alloc,
        }
    }

    /// Items that can be spelled.
    pub(crate) fn of(alloc: Global, spelled: SpelledItems) -> Items
        ensures { result ≡ spelled }
    {
        Items {
            spelled,
            others: Vec::new(alloc),
            alloc,
        }
    }

    /// Adds an item at the end.
    pub fn push(&mut self, item: Item) -> Result<(), AllocError>
        ensures added { OnOk result (self.new ≡ self.old ++ item ∷ []) }
        ensures err { OnErr result (self.new ≡ self.old) }
    {
        if self.others.is_empty() && is_savable(self.alloc, &item)? {
            return self.spelled.push(self.alloc, &item);
        }
        self.others.push(item)?;
        Ok(())
    }

    /// The item at a place, and none exactly past the end.
    pub fn at(&self, place: usize) -> Result<Option<Item>, AllocError>
        ensures { IfOk result (λ item. item ≡ slice_get self.now place) }
    {
        let count = self.spelled.len();
        if place < count {
            return self.spelled.at(self.alloc, place);
        }
        match self.others.get(place - count) {
            Some(item) => Ok(Some(item.duplicate(self.alloc)?)),
            None => Ok(None),
        }
    }

    /// The number of items.
    pub fn len(&self) -> usize
        ensures { result ≡ length self.now }
    {
        self.spelled.len() + self.others.len()
    }

    /// Those that are held as bytes, and those after them.
    pub(crate) fn parts(&self) -> (&SpelledItems, &[Item])
        ensures { self.now ≡ result.0.now ++ result.1.now }
    {
        (&self.spelled, &self.others)
    }

    /// The same, owned.
    pub(crate) fn into_parts(self) -> (SpelledItems, Vec<Item>)
        ensures { self ≡ result.0 ++ result.1.items }
    {
        (self.spelled, self.others)
    }
}
