//! What scenarios of the program share: definitions, what a client writes and should get, closed streams and counted sockets.
//!
//! Start with the constants of `clients`.
#![tactic(auto)]

mod brokers;
mod clients;
mod closed;
pub mod files;
mod watched;
mod wires;

pub use brokers::DEFINITIONS;
pub use clients::{
    ACKED, GET_EMPTY, MESSAGE, OPENED, OPENING, PUBLISH, expect_opened_and_acked, joined,
    opening_and_publish,
};
pub use closed::Closed;
pub use scenario_outcomes::{Unmet, expect, expect_bytes, expect_number, value_of};
pub use watched::Watched;
pub use wires::memory_client;
