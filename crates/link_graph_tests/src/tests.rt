//! What reaches what, and what comes twice. All answers were worked by hand.
mod large;
mod nodes;
mod repeats;
mod small;
