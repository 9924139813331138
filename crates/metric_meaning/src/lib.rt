//! What one installed configuration reports, as definitions over its history: the steps that it has seen.
#![tactic(auto)]

mod balance;

pub use balance::books_balance;
