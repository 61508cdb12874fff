//! The depot: all queues of a topology, and the number of publishes.
//!
//! Start at [`Depot`]. A caller sees it as its topology and, for each queue, the list of its entries (`specs/Store.antt`). A publish
//! is routed, makes all its allocations, and only then changes anything, so a publish is done whole or not at all.
#![tactic(auto)]

mod arrivals;
mod departures;
mod depots;
mod entering;
mod givings;
mod lags;
mod markers;
mod marking;
mod moving;
mod plans;
mod promising;
mod publishing;
mod purging;
mod queues;
mod rejecting;
mod settling;
mod signs;
mod taking;
mod tallies;
mod turns;

pub use depots::{Depot, Routed, ghost_indices_are_named};
pub use givings::Giving;
