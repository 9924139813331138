//! What a row weighs among those that are kept.
use crate::{CountCell, Row};
use kept_rows::Weighed;

// A row weighs what its value does.
impl<V: Weighed> Weighed for Row<V> {
    ghost weigh = { λ row. V.weigh row.value };

    fn weight(&self) -> u64 {
        self.value.weight()
    }
}

impl Weighed for CountCell {
    ghost weigh = { λ cell. 1 };

    fn weight(&self) -> u64 {
        1
    }
}
