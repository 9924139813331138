//! What a session means to each client: its own frames, what is live, and the replies, under any judge.
#![tactic(auto)]

mod ended;

pub use ended::ended_books_balance;
