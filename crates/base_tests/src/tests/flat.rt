//! Items, the flat form, clocks and tables. All rows were worked by hand.
mod clocks;
mod integers;
mod items;
mod samples;
mod tables;
mod values;
