//! All rows were worked by hand.
mod builds;
mod pulls;
