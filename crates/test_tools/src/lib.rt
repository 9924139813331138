//! What programs of tests are made of: tables of rows as text, bytes by words, and the rows that differ.
#![tactic(auto)]

mod encoder;
mod entries;
mod hex;
mod lets;
mod loops;
mod names;
mod numbers;
mod refusal;
mod rows;
mod table;
mod tester;
mod values;

pub use encoder::{Spelled, spell};
pub use hex::{push_hex, push_hex_text};
pub use lets::Lets;
pub use names::Names;
pub use numbers::{signed, unsigned};
pub use refusal::Refusal;
pub use rows::Row;
pub use table::{Table, told};
pub use tester::Tester;
