//! The running connections, each with its open channels: whether a channel is in confirm mode, whether a close was sent on it, and what it has
//! given out.
//!
//! Start at [`RunningConnections`] and [`Channel`]. A caller sees a `Channel` as a record of what is kept of it: among that the
//! delivery tags, the unacknowledged deliveries, and the consumers with their limits (`specs/Deliveries.antt`). A caller sees
//! `RunningConnections` as the connections by number, each with its limit, whether it is paused, and its channels (`specs/RunningConnections.antt`).
#![tactic(auto)]

mod channels;
mod connections;
mod consumers;
mod counted_consumers;
mod names;
mod pending;
mod running;
mod seats;
mod settled;
mod slots;
mod spans;
mod tags;
mod waking;

pub use channels::Channel;
pub use connections::{RunningConnections, ghost_lent_channels_are_put, ghost_moves_are_unseen};
pub use consumers::{ConsumeError, Consumer, ConsumerRefusal, Seat};
pub use model::Delivery as Outstanding;
pub use running::RunningConnection;
pub use settled::Settled;
pub use spans::Span;
pub use waking::Wakes;
