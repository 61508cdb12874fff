//! Sockets of the operating system, as a wire of crate `serving`. Start at [`Sockets`].
#![tactic(auto)]

mod answers;
mod counts;
mod rounds;
mod sockets;
mod watch;

pub use counts::Totals;
pub use sockets::Sockets;
