//! A server: each accepted socket is a connection of a machine, whose bytes are read, fed and written back.
//!
//! Start at [`Server`] and [`serve`]. A server works in rounds over any [`Wire`]: one accept, a read of each connection that is neither paused
//! nor over, deliveries, a write of each that has output, and a close of those that are over with an empty output. The wire's ghost has its calls
//! with their answers, so the contracts say which arrivals at the machine the answers became.
#![tactic(auto)]

mod load;
mod offers;
mod peers;
mod quiet;
mod rounds;
mod servers;
mod slot_marks;
mod turns;
mod wire;

pub use peers::Peer;
pub use servers::{Server, ghost_new_is_served, serve};
pub use wire::{Accept, Read, Wire, Write};
