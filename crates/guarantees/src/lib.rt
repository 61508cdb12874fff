//! Guarantees: what the owner of a topology demands of it, and the files that state them.
//!
//! Start with [`Guarantee`] and [`read_guarantees`].
#![tactic(auto)]

mod promises;
mod reading;
mod stated;

pub use json_file::{FileCause, FileCause as Bad};
pub use promises::Guarantee;
pub use reading::read_guarantees;
