//! The engine: bytes of connections in, bytes out.
//!
//! Start at [`Engine`]. It has the broker, and for each connection its session, its stream and its output. A turn performs the next
//! command in a connection's bytes and appends the replies to its output; [`Engine::reload`] puts another topology in force between
//! turns. [`run`] performs a list of arrivals.
#![tactic(auto)]

mod connection;
mod connections;
mod engines;
mod indices;
mod machines;
mod performing;
mod pumping;
mod reading;
mod reserve;
mod setups;
mod turning;

pub use engines::{ConnId, Engine, Refused};
pub use machines::run;
pub use model::{Arrival, Note};
pub use notes::Notes;
pub use runs::{ReloadFault, Transcript};
pub use setups::Setup;
pub use turning::Turn;
