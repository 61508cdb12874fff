//! A wire in memory that logs its calls, and a wire of which one call fails. Start at [`MemoryWire`].
#![tactic(auto)]

mod clients;
mod failing;
mod logs;
mod wires;

pub use clients::Client;
pub use failing::{Failing, FailingCall};
pub use logs::{Log, Logged};
pub use wires::{MemoryWire, serve_in_memory};
