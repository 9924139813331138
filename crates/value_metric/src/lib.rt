//! What a metric of values keeps of its integers between two reports.
#![tactic(auto)]

mod books_flat;
mod key_sums;
mod keyed_int;
mod laws;
mod numbers;
mod pulled_flat;
mod pulled_value;
mod pushed_value;
mod read_ahead;
mod sums_flat;
mod value_books;

pub use keyed_int::{KeyedInt, SnapInts};
pub use laws::crossings_join;
pub use metric_producer::{Closed, Producer, ReadsEvents, Row};
pub use pulled_value::PulledValue;
pub use pushed_value::PushedValue;
pub use read_ahead::intervals_are_read_ahead;
