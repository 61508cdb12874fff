//! Runs lists of arrivals over any machine that takes single turns. Start at [`run_over`].
#![tactic(auto)]

mod delivered;
mod faults;
mod machine;
mod runs;
mod transcript;

pub use delivered::Delivered;
pub use faults::ReloadFault;
pub use machine::Machine;
pub use runs::run_over;
pub use transcript::{Shown, Transcript};
