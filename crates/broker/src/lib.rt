//! The broker: queues, running connections and their channels, and what each event does to them.
//!
//! Start at [`Broker`]. What an event does is done by `Core` of crate `commands`; the broker adds the order in which consumers are
//! served.
#![tactic(auto)]

mod brokers;
mod rounds;
mod turns;
mod waiting;

pub use brokers::Broker;
pub use commands::Pick;
pub use model::Event;
pub use replies::Step;
pub use waiting::ghost_nobody_waits;
