//! The queues, and the running connections with their channels: what each event does to them.
//!
//! Start at [`Core`]. A step is one of the model's (`Acts` of the model's `Step`): a caller sees the state as a record of lists
//! (`Kept`), and `broker_of` reads the model's state from it.
#![tactic(auto)]

mod acted;
mod commands;
mod cores;
mod counts;
mod delivering;
mod freeing;
mod giving;
mod picks;
mod refusals;

pub use acted::{Acted, Ends};
pub use cores::Core;
pub use counts::Counts;
pub use picks::{Pick, Taking};
