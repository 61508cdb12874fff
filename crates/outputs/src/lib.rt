//! The outputs of connections, and the encoding of what is sent.
//!
//! Start at [`Output`], the bytes that wait for one socket. It holds storage only while it has bytes; [`Spares`] keeps the storage of empty outputs.
//! [`put_sends`] appends whole frames to capacity that was reserved before, so no output ever ends within a frame.
#![tactic(auto)]

mod pool;
mod room;
mod scratch;
mod sending;
mod spare;
mod spares;

pub use frame::Buffer as Output;
pub use room::Room;
pub use scratch::Scratch;
pub use sending::put_sends;
pub use spares::Spares;
