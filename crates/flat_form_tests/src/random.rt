//! Random items, the same in each run.
use atom_record::{Atom, AtomField, Bytes, DimKey, Leaf, Slice, Value};
use flat_form::{Item, Items};
use sd_base::Seq;
use std::alloc::{AllocError, Global};

/// A source of numbers.
#[derive(Drop)]
pub struct Dice {
    state: u64,
}

impl Dice {
    pub fn new() -> Dice {
        Dice { state: 1 }
    }

    fn number(&mut self) -> u64 {
        let state = self.state.wrapping_mul(6_364_136_223_846_793_005);
        self.state = state.wrapping_add(1_442_695_040_888_963_407);
        self.state >> 24
    }

    /// Up to eight items.
    pub fn items(&mut self, alloc: Global) -> Result<Items, AllocError> {
        let mut items = Items::new(alloc);
        for _ in 0..self.number() % 9 {
            items.push(self.item(alloc)?)?;
        }
        Ok(items)
    }

    fn item(&mut self, alloc: Global) -> Result<Item, AllocError> {
        match self.number() % 5 {
            0 => Ok(Item::Num(self.number())),
            1 => Ok(Item::Dims(self.key(alloc)?)),
            2 => Ok(Item::Slices(self.slices(alloc)?)),
            3 => Ok(Item::AtomItem(self.atom(alloc)?)),
            _ => Ok(Item::Chunk(self.bytes(alloc)?)),
        }
    }

    /// Up to 19 bytes.
    fn bytes(&mut self, alloc: Global) -> Result<Bytes, AllocError> {
        let mut bytes = Seq::new(alloc);
        for _ in 0..self.number() % 20 {
            bytes.push((self.number() % 256) as u8)?;
        }
        Ok(bytes)
    }

    fn value(&mut self, alloc: Global) -> Result<Value, AllocError> {
        match self.number() % 6 {
            0 => Ok(Value::Int((self.number() % 1000) as i32)),
            1 => Ok(Value::Long((self.number() % 1000) as i64)),
            2 => Ok(Value::Bool(self.number() % 2 == 0)),
            3 => Ok(Value::Str(self.bytes(alloc)?)),
            4 => Ok(Value::Raw(self.bytes(alloc)?)),
            _ => Ok(Value::Bits32((self.number() % 1000) as u32)),
        }
    }

    fn values(&mut self, alloc: Global) -> Result<Seq<Value>, AllocError> {
        let mut values = Seq::new(alloc);
        for _ in 0..self.number() % 4 {
            values.push(self.value(alloc)?)?;
        }
        Ok(values)
    }

    fn leaf(&mut self, alloc: Global) -> Result<Leaf, AllocError> {
        match self.number() % 3 {
            0 => Ok(Leaf::Missing),
            1 => Ok(Leaf::One(self.value(alloc)?)),
            _ => Ok(Leaf::Many(self.values(alloc)?)),
        }
    }

    /// A key of up to six leaves.
    fn key(&mut self, alloc: Global) -> Result<DimKey, AllocError> {
        let mut key = DimKey::new(alloc);
        for _ in 0..self.number() % 7 {
            key.push(self.leaf(alloc)?)?;
        }
        Ok(key)
    }

    fn slice(&mut self) -> Slice {
        let atom_id = (self.number() % 1000) as u32;
        if self.number() % 2 == 0 {
            let value = (self.number() % 1000) as i32;
            return Slice::Plain { atom_id, value };
        }
        let group = (self.number() % 1000) as i64;
        Slice::Group { atom_id, group }
    }

    fn slices(&mut self, alloc: Global) -> Result<Seq<Slice>, AllocError> {
        let mut slices = Seq::new(alloc);
        for _ in 0..self.number() % 4 {
            slices.push(self.slice())?;
        }
        Ok(slices)
    }

    /// An atom of up to five entries, with no fault.
    fn atom(&mut self, alloc: Global) -> Result<Atom, AllocError> {
        let mut fields = Seq::new(alloc);
        for place in 0..self.number() % 6 {
            fields.push(AtomField {
                field: place as u8 + 1,
                index: 0,
                sub: 0,
                flags: 0,
                value: self.value(alloc)?,
            })?;
        }
        Ok(Atom { id: 5, fields })
    }
}
