//! What a metric of values gets.

use atom_record::MetricKey;
use sd_base::Seq;

/// An integer that arrives, with its key.
#[derive(Drop, PartialEq)]
pub struct KeyedInt {
    pub key: MetricKey,
    pub value: i64,
}

/// What a pull told: the integers of its atoms in order, each with its atom's key, or that there is no snapshot.
#[derive(Drop, PartialEq)]
pub struct SnapInts {
    pub found: Option<Seq<KeyedInt>>,
}
