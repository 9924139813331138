//! What each kind of metric makes of what arrives: definitions alone.
#![tactic(auto)]
