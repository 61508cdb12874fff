//! Decides which sockets are asked for bytes in a round. Start with [`Turns`].
//!
//! No sockets here, only their indices: crate `sockets` tells what its sockets gave, and asks which are due.
#![tactic(auto)]

mod rings;
mod sets;
mod turns;
mod voices;

pub use turns::Turns;
pub use voices::Voice;
