//! Finds a certificate of a guarantee, or a key that breaks it. Start with [`search`].
#![tactic(auto)]

mod forms;
mod searching;
mod spelling;
mod states;
mod verdicts;

pub use searching::{search, search_by};
pub use verdicts::{UndecidedCause, Verdict};
