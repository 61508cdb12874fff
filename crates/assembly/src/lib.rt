//! Assembles the commands of one connection from its bytes.
//!
//! A [`Stream`] is fed bytes in pieces of any size. It reads frames at their front, gathers the content of a publish for
//! each channel separately, and returns one whole command at a time: a method, or a publish with all of its content. The
//! first eight bytes of a new connection, the protocol header, come before all frames. Source: AMQP 0-9-1, section 4.2.6,
//! "Content Framing", and section 2.3.5, "Frame Details".
//! Start at [`Stream`].
#![tactic(auto)]

mod bodies;
mod contents;
mod dropping;
mod faults;
mod frames;
mod names;
mod publishes;
mod reading;
mod single;
mod streams;
mod taking;
mod unread;

pub use faults::Fault;
pub use model::Command;
pub use single::ghost_one_next;
pub use streams::Stream;
