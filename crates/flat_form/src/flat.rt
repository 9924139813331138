//! The flat form of values: items, from which a value is built again.
ghost use Rattle.std.specs.Prelude.{◌≡◌, ℕ, ◌+◌, List, [], ◌∷◌, ◌++◌, ◌≤◌, length, All, Some, None, Err, IfOk, OnOk, OnErr, slice_get};
ghost use Rattle.flat_form.specs.declared.flat_error.FlatError.TheVariants.{Bad};
ghost use Rattle.std.specs.List.{flat_map};
ghost use Rattle.std.proofs.Common.{refl};
ghost use Rattle.flat_form.specs.declared.item.Item.{Item};
ghost use Rattle.flat_form.specs.Flat.{IsFront, Anything, Holds, Builds, BuildsAll, halves, chunk_items};
ghost use Rattle.flat_form.specs.Weight.{most_items, most_head};
ghost use Rattle.flat_form.specs.Savable.{AreSavable};

use crate::{FlatError, Item, Items};
use atom_record::{Atom, Bytes, DimKey, MetricKey, Slice};
use sd_base::{Duplicate, Seq};
use std::alloc::{AllocError, Global};

/// A value that can be saved as items and built from them again.
pub trait Flat: Sized {
    /// The items of a value.
    ghost flat: { Self → List Item };

    /// Holds of every object's value. Only such a value is built.
    ghost valid: { Self → Type 0 } = { Anything };

    /// What a value must meet besides, so that its items can be spelled as bytes.
    ghost savable: { Self → Type 0 } = { Anything };

    /// The most items of a value with no entry.
    ghost head: { ℕ };

    /// How many entries a value has.
    ghost entries: { Self → ℕ } = { λ value. 0 };

    /// Each object is valid. No program has to call this: that it is proved for every object says that `valid`
    /// leaves none out.
    fn show_valid(&self)
        ensures { valid self.now };

    /// Adds the items of the value at the end.
    fn flatten(&self, alloc: Global, out: &mut Items) -> Result<(), AllocError>
        ensures added { OnOk result (out.new ≡ out.old ++ flat self.now) }
        ensures valid { OnOk result (valid self.now) }

        // The old items stay, and some of the value's may stand after them.
        ensures err { OnErr result (IsFront out.old out.new) };

    /// The one valid value whose items stand at a place, and the place after them.
    /// `Bad` comes exactly where no valid value's items stand there.
    fn build(alloc: Global, items: &Items, place: usize) -> Result<(Self, usize), FlatError>
        ensures { Builds valid flat items.now place result };

    /// A head is no more than 28 items.
    ghost short: { head ≤ most_head };

    /// A value has no more items than its head and eight for each entry.
    ghost bounded: { (value : Self) → valid value
        → length (flat value) ≤ most_items head (entries value) };

    /// An entry is at least one item.
    ghost few: { (value : Self) → entries value ≤ length (flat value) };

    /// The items of a valid value that is savable can be spelled.
    ghost spells: { (value : Self) → valid value → savable value → AreSavable (flat value) };
}

// The item at a place, and the place after it. `Bad` comes exactly past the end.
fn read(items: &Items, place: usize) -> Result<(Item, usize), FlatError>
    ensures found { IfOk result
        (λ read. (slice_get items.now place ≡ Some read.0) × (read.1 ≡ place + 1)) }
    ensures bad { result ≡ Err Bad → slice_get items.now place ≡ None }
{
    if items.len() <= place {
        return Err(FlatError::Bad);
    }
    match items.at(place)? {
        Some(item) => Ok((item, place + 1)),
        None => Err(FlatError::Bad),
    }
}

/// A value that is saved as one item.
trait Single: Sized {
    /// The item of a value.
    ghost wrap: { Self → Item };

    /// The value of an item, copied: it takes no more room than it needs.
    fn of(alloc: Global, item: &Item) -> Result<Self, FlatError>
        ensures { Holds wrap item.now result };

    /// Two values have two items.
    ghost distinct: { (x y : Self) → wrap x ≡ wrap y → x ≡ y };
}

// The value whose one item stands at a place, and the place after it.
fn build_one<T: Single>(alloc: Global, items: &Items, place: usize) -> Result<(T, usize), FlatError>
    ensures { Builds Anything (λ value. T.wrap value ∷ []) items.now place result }
{
    let (item, next) = read(items, place)?;
    let value = T::of(alloc, &item)?;
    Ok((value, next))
}

impl Single for u64 {
    ghost use Rattle.flat_form.specs.declared.item.Item.TheVariants.{Num};

    ghost wrap = { λ value. Num value };

    ghost distinct = { λ x y same. Prim.cc };

    fn of(_alloc: Global, item: &Item) -> Result<u64, FlatError> {
        match item {
            Item::Num(number) => Ok(*number),
            _ => Err(FlatError::Bad),
        }
    }
}

impl Single for DimKey {
    ghost use Rattle.flat_form.specs.declared.item.Item.TheVariants.{Dims};

    ghost wrap = { λ value. Dims value };

    ghost distinct = { λ x y same. Prim.cc };

    fn of(alloc: Global, item: &Item) -> Result<DimKey, FlatError> {
        match item {
            Item::Dims(dims) => Ok(dims.duplicate(alloc)?),
            _ => Err(FlatError::Bad),
        }
    }
}

impl Single for Seq<Slice> {
    ghost use Rattle.flat_form.specs.declared.item.Item.TheVariants.{Slices};

    ghost wrap = { λ value. Slices value };

    ghost distinct = { λ x y same. Prim.cc };

    fn of(alloc: Global, item: &Item) -> Result<Seq<Slice>, FlatError> {
        match item {
            Item::Slices(slices) => Ok(slices.duplicate(alloc)?),
            _ => Err(FlatError::Bad),
        }
    }
}

impl Single for Atom {
    ghost use Rattle.flat_form.specs.declared.item.Item.TheVariants.{AtomItem};

    ghost wrap = { λ value. AtomItem value };

    ghost distinct = { λ x y same. Prim.cc };

    fn of(alloc: Global, item: &Item) -> Result<Atom, FlatError> {
        match item {
            Item::AtomItem(atom) => Ok(atom.duplicate(alloc)?),
            _ => Err(FlatError::Bad),
        }
    }
}

impl Single for Bytes {
    ghost use Rattle.flat_form.specs.declared.item.Item.TheVariants.{Chunk};

    ghost wrap = { λ value. Chunk value };

    ghost distinct = { λ x y same. Prim.cc };

    fn of(alloc: Global, item: &Item) -> Result<Bytes, FlatError> {
        match item {
            Item::Chunk(bytes) => Ok(bytes.duplicate(alloc)?),
            _ => Err(FlatError::Bad),
        }
    }
}

/// The bytes that stand at a place as one item, and the place after them. `Bad` comes exactly where none stand there.
pub fn build_bytes(alloc: Global, items: &Items, place: usize) -> Result<(Bytes, usize), FlatError>
    ensures { Builds Anything chunk_items items.now place result }
{
    build_one(alloc, items, place)
}

impl Flat for u64 {
    ghost use Rattle.flat_form.specs.Flat.{number_items};
    ghost use Rattle.flat_form.specs.Bounded.{short_head, number_bounded, none_few};
    ghost use Rattle.flat_form.specs.SavableLaws.{number_savable};

    ghost flat = { number_items };

    ghost head = { 1 };

    ghost short = { short_head 1 refl };

    ghost bounded = { number_bounded };

    ghost few = { none_few number_items };

    ghost spells = { number_savable };

    fn show_valid(&self) {}

    fn flatten(&self, _alloc: Global, out: &mut Items) -> Result<(), AllocError> {
        out.push(Item::Num(*self))
    }

    fn build(alloc: Global, items: &Items, place: usize) -> Result<(u64, usize), FlatError> {
        build_one(alloc, items, place)
    }
}

impl Flat for i64 {
    ghost use Rattle.flat_form.specs.Flat.{signed_items, IsSigned};
    ghost use Rattle.flat_form.specs.Bounded.{short_head, signed_bounded, none_few};
    ghost use Rattle.flat_form.specs.SavableLaws.{signed_savable};

    ghost flat = { signed_items };

    ghost valid = { IsSigned };

    ghost head = { 1 };

    ghost short = { short_head 1 refl };

    ghost bounded = { signed_bounded };

    ghost few = { none_few signed_items };

    ghost spells = { signed_savable };

    fn show_valid(&self) {
        let _value = *self;
    }

    fn flatten(&self, _alloc: Global, out: &mut Items) -> Result<(), AllocError> {
        out.push(Item::Num(self.cast_unsigned()))
    }

    fn build(alloc: Global, items: &Items, place: usize) -> Result<(i64, usize), FlatError> {
        let (bits, next) = u64::build(alloc, items, place)?;
        Ok((bits.cast_signed(), next))
    }
}

// What the upper half of 128 bits counts.
const HALF: u128 = 0x1_0000_0000_0000_0000;

// The upper and the lower half of 128 bits.
fn split_bits(bits: u128) -> (u64, u64)
    ensures { result ≡ halves bits }
{
    ((bits / HALF) as u64, (bits % HALF) as u64)
}

// The 128 bits whose halves these are.
fn join_bits(high: u64, low: u64) -> u128
    ensures { halves result ≡ (high, low) }
{
    (high as u128) * HALF + (low as u128)
}

impl Flat for i128 {
    ghost use Rattle.flat_form.specs.Flat.{long_items, IsLong};
    ghost use Rattle.flat_form.specs.Bounded.{short_head, long_bounded, none_few};
    ghost use Rattle.flat_form.specs.SavableLaws.{long_savable};

    ghost flat = { long_items };

    ghost valid = { IsLong };

    ghost head = { 2 };

    ghost short = { short_head 2 refl };

    ghost bounded = { long_bounded };

    ghost few = { none_few long_items };

    ghost spells = { long_savable };

    fn show_valid(&self) {
        let _value = *self;
    }

    fn flatten(&self, alloc: Global, out: &mut Items) -> Result<(), AllocError> {
        split_bits(self.cast_unsigned()).flatten(alloc, out)
    }

    fn build(alloc: Global, items: &Items, place: usize) -> Result<(i128, usize), FlatError> {
        let ((high, low), next) = <(u64, u64)>::build(alloc, items, place)?;
        Ok((join_bits(high, low).cast_signed(), next))
    }
}

impl Flat for DimKey {
    ghost use Rattle.flat_form.specs.Flat.{dims_items};
    ghost use Rattle.flat_form.specs.Bounded.{short_head, dims_bounded, none_few};
    ghost use Rattle.flat_form.specs.SavableLaws.{dims_savable};
    ghost use Rattle.flat_form.specs.Savable.{AreShortLeaves};

    ghost flat = { dims_items };

    ghost savable = { AreShortLeaves };

    ghost head = { 1 };

    ghost short = { short_head 1 refl };

    ghost bounded = { dims_bounded };

    ghost few = { none_few dims_items };

    ghost spells = { dims_savable };

    fn show_valid(&self) {}

    fn flatten(&self, alloc: Global, out: &mut Items) -> Result<(), AllocError> {
        let dims = self.duplicate(alloc)?;
        out.push(Item::Dims(dims))
    }

    fn build(alloc: Global, items: &Items, place: usize) -> Result<(DimKey, usize), FlatError> {
        build_one(alloc, items, place)
    }
}

impl Flat for Atom {
    ghost use Rattle.flat_form.specs.Flat.{atom_items};
    ghost use Rattle.flat_form.specs.Bounded.{short_head, atom_bounded, none_few};
    ghost use Rattle.flat_form.specs.SavableLaws.{atom_savable};
    ghost use Rattle.atom_record.specs.AtomSound.{HasNoFault};

    ghost flat = { atom_items };

    ghost savable = { HasNoFault };

    ghost head = { 1 };

    ghost short = { short_head 1 refl };

    ghost bounded = { atom_bounded };

    ghost few = { none_few atom_items };

    ghost spells = { atom_savable };

    fn show_valid(&self) {}

    fn flatten(&self, alloc: Global, out: &mut Items) -> Result<(), AllocError> {
        let atom = self.duplicate(alloc)?;
        out.push(Item::AtomItem(atom))
    }

    fn build(alloc: Global, items: &Items, place: usize) -> Result<(Atom, usize), FlatError> {
        build_one(alloc, items, place)
    }
}

impl Flat for MetricKey {
    ghost use Rattle.flat_form.specs.Flat.{key_items};
    ghost use Rattle.flat_form.specs.Bounded.{short_head, key_bounded, none_few};
    ghost use Rattle.flat_form.specs.SavableLaws.{key_savable};
    ghost use Rattle.flat_form.specs.Savable.{IsShortKey};

    ghost flat = { key_items };

    ghost savable = { IsShortKey };

    ghost head = { 2 };

    ghost short = { short_head 2 refl };

    ghost bounded = { key_bounded };

    ghost few = { none_few key_items };

    ghost spells = { key_savable };

    fn show_valid(&self) {}

    fn flatten(&self, alloc: Global, out: &mut Items) -> Result<(), AllocError> {
        self.dims.flatten(alloc, out)?;
        let slices = self.slices.duplicate(alloc)?;
        out.push(Item::Slices(slices))
    }

    fn build(alloc: Global, items: &Items, place: usize) -> Result<(MetricKey, usize), FlatError> {
        let (dims, middle) = build_one::<DimKey>(alloc, items, place)?;
        let (slices, next) = build_one::<Seq<Slice>>(alloc, items, middle)?;
        Ok((MetricKey { dims, slices }, next))
    }
}

impl<A: Flat + Drop, B: Flat + Drop> Flat for (A, B) {
    ghost use Rattle.flat_form.specs.Flat.{pair_items, IsValidPair};
    ghost use Rattle.flat_form.specs.Weight.{pair_entries, head_within, entries_within};
    ghost use Rattle.flat_form.specs.Bounded.{parts_short, pair_bounded, pair_few};
    ghost use Rattle.flat_form.specs.SavableLaws.{pair_savable};

    ghost flat = { pair_items A.flat B.flat };

    ghost valid = { IsValidPair A.valid B.valid };

    ghost savable = { IsValidPair A.savable B.savable };

    ghost head = { head_within (A.head + B.head) };

    ghost short = { parts_short (A.head + B.head) };

    ghost entries = { λ pair. entries_within (A.head + B.head)
        (length (pair_items A.flat B.flat pair)) (pair_entries A.entries B.entries pair) };

    ghost bounded = { pair_bounded A.flat B.flat A.valid B.valid A.head B.head A.entries B.entries
        A.bounded B.bounded };

    ghost few = { pair_few A.flat B.flat (A.head + B.head) A.entries B.entries A.few B.few };

    ghost spells = { pair_savable A.flat B.flat A.valid B.valid A.savable B.savable A.spells B.spells };

    fn show_valid(&self) {
        self.0.show_valid();
        self.1.show_valid();
    }

    fn flatten(&self, alloc: Global, out: &mut Items) -> Result<(), AllocError> {
        self.0.flatten(alloc, out)?;
        self.1.flatten(alloc, out)
    }

    fn build(alloc: Global, items: &Items, place: usize) -> Result<((A, B), usize), FlatError> {
        let (first, middle) = A::build(alloc, items, place)?;
        let (second, next) = B::build(alloc, items, middle)?;
        Ok(((first, second), next))
    }
}

// Each of these objects is valid.
fn show_all<T: Flat>(all: &[T])
    ensures { All T.valid all.now }
{
    for value in all {
        value.show_valid();
    }
}

// Adds the items of all, one after the other.
fn flatten_all<T: Flat>(all: &[T], alloc: Global, out: &mut Items) -> Result<(), AllocError>
    ensures added { OnOk result (out.new ≡ out.old ++ flat_map T.flat all.now) }
    ensures valid { OnOk result (All T.valid all.now) }
    ensures err { OnErr result (IsFront out.old out.new) }
{
    for value in all {
        value.flatten(alloc, out)?;
    }
    Ok(())
}

// So many values, one after the other.
fn build_all<T: Flat + Drop>(
    alloc: Global,
    items: &Items,
    place: usize,
    count: u64,
) -> Result<(Seq<T>, usize), FlatError>
    ensures { BuildsAll T.valid T.flat items.now place count result }
{
    let mut values = Seq::new(alloc);
    let mut next = place;
    for _turn in 0..count {
        let (value, after) = T::build(alloc, items, next)?;
        values.push(value)?;
        next = after;
    }
    Ok((values, next))
}

impl<T: Flat + Drop> Flat for Seq<T> {
    ghost use Rattle.flat_form.specs.Flat.{list_items};
    ghost use Rattle.flat_form.specs.Weight.{list_entries};
    ghost use Rattle.flat_form.specs.Bounded.{short_head, list_bounded, list_few};
    ghost use Rattle.flat_form.specs.SavableLaws.{list_savable};

    ghost flat = { list_items T.flat };

    ghost valid = { All T.valid };

    ghost savable = { All T.savable };

    ghost head = { 1 };

    ghost short = { short_head 1 refl };

    ghost entries = { list_entries T.flat };

    ghost bounded = { list_bounded T.flat T.valid };

    ghost few = { list_few T.flat };

    ghost spells = { list_savable T.flat T.valid T.savable T.spells };

    fn show_valid(&self) {
        show_all(self.as_slice());
    }

    fn flatten(&self, alloc: Global, out: &mut Items) -> Result<(), AllocError> {
        out.push(Item::Num(self.len() as u64))?;
        flatten_all(self.as_slice(), alloc, out)
    }

    fn build(alloc: Global, items: &Items, place: usize) -> Result<(Seq<T>, usize), FlatError> {
        let (count, middle) = u64::build(alloc, items, place)?;
        build_all(alloc, items, middle, count)
    }
}

impl<T: Flat + Drop> Flat for Option<T> {
    ghost use Rattle.flat_form.specs.Flat.{option_items, IsMissingOr};
    ghost use Rattle.flat_form.specs.Bounded.{short_head, option_entries, option_bounded, option_few};
    ghost use Rattle.flat_form.specs.SavableLaws.{option_savable};

    ghost flat = { option_items T.flat };

    ghost valid = { IsMissingOr T.valid };

    ghost savable = { IsMissingOr T.savable };

    ghost head = { 1 };

    ghost short = { short_head 1 refl };

    ghost entries = { option_entries T.flat };

    ghost bounded = { option_bounded T.flat T.valid };

    ghost few = { option_few T.flat };

    ghost spells = { option_savable T.flat T.valid T.savable T.spells };

    fn show_valid(&self) {
        if let Some(value) = self {
            value.show_valid();
        }
    }

    fn flatten(&self, alloc: Global, out: &mut Items) -> Result<(), AllocError> {
        match self {
            None => out.push(Item::Num(0)),
            Some(value) => {
                out.push(Item::Num(1))?;
                value.flatten(alloc, out)
            }
        }
    }

    fn build(alloc: Global, items: &Items, place: usize) -> Result<(Option<T>, usize), FlatError> {
        let (count, middle) = u64::build(alloc, items, place)?;
        match count {
            0 => Ok((None, middle)),
            1 => {
                let (value, next) = T::build(alloc, items, middle)?;
                Ok((Some(value), next))
            }
            _ => Err(FlatError::Bad),
        }
    }
}
