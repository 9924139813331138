//! What is saved of an instance, and how it is built again.

pub mod kinds;
pub mod lanes;
pub mod tables;
pub mod tracks;
