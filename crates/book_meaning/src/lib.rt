//! What the two books of the log mean: snapshots of recorded pulls, and states. Definitions alone.
#![tactic(auto)]
