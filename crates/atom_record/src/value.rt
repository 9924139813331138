//! Values of atoms, and the keys that are made of them.
ghost use Rattle.std.specs.Prelude.{◌≡◌, IfOk};
ghost use Rattle.std.proofs.Common.{rules};

use crate::DimKey;
use sd_base::{Duplicate, Exact, Seq};
use std::alloc::{AllocError, Global};
use std::hash::{Hash, Hasher};

/// What a missing leaf feeds a hasher, which no truth does.
pub(crate) const MISSING: u8 = 2;

/// A string of bytes.
pub type Bytes = Seq<u8>;

/// What an entry of an atom holds.
#[derive(Debug, Drop, PartialEq, Eq)]
pub enum Value {
    /// A signed number of four bytes. Only such a value may be a state.
    Int(i32),
    /// A signed number of eight bytes.
    Long(i64),
    /// A truth.
    Bool(bool),
    /// A text. Its bytes are compared as they are, and need not be UTF-8.
    Str(Bytes),
    /// A string of bytes that is no text. It never equals a text.
    Raw(Bytes),
    /// A float as its four bytes, which are never read as a number.
    Bits32(u32),
}

/// What an atom has at one leaf of a set of fields.
#[derive(Drop, PartialEq, Eq)]
pub enum Leaf {
    /// The atom has no such entry.
    Missing,
    /// The one value that the atom has there.
    One(Value),
    /// The values at all positions of a repeated field, in order.
    Many(Seq<Value>),
}

/// The part of a key that comes from a state.
#[derive(Clone, Copy, PartialEq, Eq)]
pub enum Slice {
    /// The state's value.
    Plain { atom_id: u32, value: i32 },
    /// The group that lists the state's value.
    Group { atom_id: u32, group: i64 },
}

/// What a metric groups its rows by.
#[derive(Drop, PartialEq, Eq)]
pub struct MetricKey {
    /// The dimensions in what is counted.
    pub dims: DimKey,
    /// One slice for each state by which the metric is sliced.
    pub slices: Seq<Slice>,
}

impl Value {
    /// A copy of the value. It equals its source, and memory is all that it can want.
    pub fn clone_value(&self, alloc: Global) -> Result<Value, AllocError>
        ensures { IfOk result (λ copy. copy ≡ self.now) }
    {
        self.duplicate(alloc)
    }
}

impl MetricKey {
    /// A copy of the key. It equals its source, and memory is all that it can want.
    pub fn clone_key(&self, alloc: Global) -> Result<MetricKey, AllocError>
        ensures { IfOk result (λ copy. copy ≡ self.now) }
    {
        self.duplicate(alloc)
    }
}

impl Exact for Value {
    ghost exact = { λ x y. Prim.search rules };
}

impl Exact for Leaf {
    ghost use Rattle.atom_record.specs.Equal.{leaf_exact};

    ghost exact = { leaf_exact };
}

impl Exact for Slice {
    ghost exact = { λ x y. Prim.search rules };
}

impl Exact for MetricKey {
    ghost use Rattle.atom_record.specs.Equal.{metric_key_exact};

    ghost exact = { metric_key_exact };
}

impl Hash for Value {
    ghost use Rattle.atom_record.specs.Hashing.{value_fed, value_alike};

    ghost hash_input = { value_fed };

    ghost respects_eq = { value_alike.fed };

    #[inline(always)]
    fn hash<H: Hasher>(&self, state: &mut H) {
        match self {
            Value::Int(n) => state.write_i32(*n),
            Value::Long(n) => state.write_i64(*n),
            Value::Bool(b) => b.hash(state),
            Value::Str(text) => state.write(text.as_slice()),
            Value::Raw(bytes) => state.write(bytes.as_slice()),
            Value::Bits32(bits) => state.write_u32(*bits),
        }
    }
}

impl Hash for Leaf {
    ghost use Rattle.atom_record.specs.Hashing.{leaf_fed, leaf_alike};

    ghost hash_input = { leaf_fed };

    ghost respects_eq = { leaf_alike.fed };

    #[inline(always)]
    fn hash<H: Hasher>(&self, state: &mut H) {
        match self {
            Leaf::Missing => state.write_u8(MISSING),
            Leaf::One(value) => value.hash(state),
            Leaf::Many(values) => values.hash(state),
        }
    }
}

impl Hash for Slice {
    ghost use Rattle.atom_record.specs.KeyHashing.{slice_fed, slice_alike};

    ghost hash_input = { slice_fed };

    ghost respects_eq = { slice_alike.fed };

    fn hash<H: Hasher>(&self, state: &mut H) {
        match self {
            Slice::Plain { atom_id, value } => {
                state.write_u32(*atom_id);
                state.write_i32(*value);
            }
            Slice::Group { atom_id, group } => {
                state.write_u32(*atom_id);
                state.write_i64(*group);
            }
        }
    }
}

impl Hash for MetricKey {
    ghost use Rattle.atom_record.specs.KeyHashing.{metric_key_fed, metric_key_alike};

    ghost hash_input = { metric_key_fed };

    ghost respects_eq = { metric_key_alike.fed };

    fn hash<H: Hasher>(&self, state: &mut H) {
        self.dims.hash(state);
        Slice::hash_slice(self.slices.as_slice(), state);
    }
}

impl Duplicate for Value {
    /// A copy of the value with bytes of its own.
    fn duplicate(&self, alloc: Global) -> Result<Value, AllocError> {
        match self {
            Value::Int(n) => Ok(Value::Int(*n)),
            Value::Long(n) => Ok(Value::Long(*n)),
            Value::Bool(b) => Ok(Value::Bool(*b)),
            Value::Str(text) => Ok(Value::Str(text.duplicate(alloc)?)),
            Value::Raw(bytes) => Ok(Value::Raw(bytes.duplicate(alloc)?)),
            Value::Bits32(bits) => Ok(Value::Bits32(*bits)),
        }
    }
}

impl Duplicate for Leaf {
    /// A copy of the leaf with values of its own.
    fn duplicate(&self, alloc: Global) -> Result<Leaf, AllocError> {
        match self {
            Leaf::Missing => Ok(Leaf::Missing),
            Leaf::One(value) => Ok(Leaf::One(value.duplicate(alloc)?)),
            Leaf::Many(values) => Ok(Leaf::Many(values.duplicate(alloc)?)),
        }
    }
}

impl Duplicate for Slice {
    /// The slice again, since it holds numbers alone.
    fn duplicate(&self, _alloc: Global) -> Result<Slice, AllocError> {
        Ok(*self)
    }
}

impl Duplicate for MetricKey {
    /// A copy of the key with dimensions and slices of its own.
    fn duplicate(&self, alloc: Global) -> Result<MetricKey, AllocError> {
        let dims = self.dims.duplicate(alloc)?;
        let slices = self.slices.duplicate(alloc)?;
        Ok(MetricKey { dims, slices })
    }
}
