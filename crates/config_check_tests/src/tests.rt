//! Configurations and their lines, by tables. All expected lines were worked by hand.
mod lines;
mod run;
mod sizes;
mod streams;
