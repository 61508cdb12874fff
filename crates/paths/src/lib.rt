//! Paths of names by which a message reaches a queue, its dead letters included, and what leads to a queue. Start with [`find_path`] and [`Leading`].
//!
//! A message is at an exchange or in a queue, under the key that it was sent with or one that a queue set. A path is searched breadth first
//! from the exchange up to the queue. To find what leads to a queue, each key that a queue sets is explored once ([`Deaths`]).
#![tactic(auto)]

mod along;
mod deaths;
mod explored;
mod exploring;
mod keyed;
mod leading;
mod locations;
mod onward;
mod reach;
mod rows;
mod searching;
mod visits;
mod walking;

pub use along::find_path_by;
pub use deaths::Deaths;
pub use explored::Explored;
pub use leading::Leading;
pub use reach::{Hop, reached, unmarked};
pub use searching::find_path;
pub use walking::is_path;
