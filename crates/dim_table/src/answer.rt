//! What a table answers to one more key.

/// Where a key stands, or that there is no room for it.
#[derive(Clone, Copy, PartialEq, Eq)]
pub enum Admit {
    /// The place of the key's row, from 0.
    At(usize),
    /// The key is new and the table holds as many as it may.
    Full,
}
