//! The notes of a step, kept for a reader or visible only to contracts. Start with [`Notes`].
#![tactic(auto)]

mod notes;
mod tokens;
mod unkept;

pub use notes::Notes;
