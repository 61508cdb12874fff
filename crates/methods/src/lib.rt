//! Reads and writes the payloads of method frames.
//!
//! A payload is a class id (2 bytes), a method id (2 bytes) and the method's arguments, without anything between them.
//! Numbers are big-endian, a short string has its length in 1 byte in front, and consecutive bits share an octet, lowest bit
//! first. Source: AMQP 0-9-1, section 4.2.4, "Method Payloads", section 4.2.5, "Data Types", and its XML.
//! Start at [`read_method`] and [`write_method`].
#![tactic(auto)]

mod classes;
mod cursor;
mod laws;
mod lines;
mod pieces;
mod putting;
mod reading;
mod refusals;
mod writing;

pub use laws::ghost_one_method;
pub use model::Method;
pub use reading::read_method;
pub use refusals::{BadMethod, UnwrittenMethod};
pub use writing::{put_method, spelled_len, write_method};
