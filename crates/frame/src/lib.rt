//! Frames of AMQP 0-9-1: read from the front of a byte slice, appended to a vector or a [`Buffer`].
//!
//! A frame is a type (1 byte), a channel (2 bytes), the payload's size (4 bytes), the payload, and the end byte `CE`.
//! Numbers are big-endian. Source: AMQP 0-9-1, section 4.2.3, "General Frame Format".
//! Start at [`read_frame`] and [`write_frame`]. [`Buffer`] holds the bytes that have not been sent yet.
#![tactic(auto)]

mod buffers;
mod frames;
mod laws;
mod reading;
mod writing;

pub use buffers::Buffer;
pub use frames::{Frame, ReadFrame as Read};
pub use laws::ghost_one_frame;
pub use reading::read_frame;
pub use writing::{put_frame, write_frame};
