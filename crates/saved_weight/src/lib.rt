//! How long a saved session may be, by what is live and what it holds: definitions and laws alone.
#![tactic(auto)]
