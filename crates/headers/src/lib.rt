//! Reads and writes the payloads of content headers.
//!
//! A payload is a class id (2 bytes, 60), a weight (2 bytes, 0), the body's size (8 bytes), flags (2 bytes), and the
//! properties that the flags name. Source: AMQP 0-9-1, section 4.2.6.1, "The Content Header".
//! Start at [`read_header`] and [`write_header`].
#![tactic(auto)]

mod contents;
mod fields;
mod laws;
mod measuring;
mod optional;
mod properties;
mod putting;
mod reading;
mod telling;
mod writing;

pub use contents::{BadHeader, Header, UnwrittenHeader};
pub use laws::{ghost_one_header, ghost_syntax_errors};
pub use model::{Content, Properties};
pub use reading::{read_header, read_size};
pub use telling::{fields_of, headers_of};
pub use writing::{put_header, spelled_len, write_header};
