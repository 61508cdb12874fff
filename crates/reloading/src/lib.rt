//! The obstacle to a reload, by which another topology and other guarantees are put in force while messages are in queues. Start at [`obstacle`].
#![tactic(auto)]

mod breaches;
mod danger;
mod dangers;
mod judging;
mod live_queues;
mod narrowing;
mod orphaned;
mod passed;

pub use judging::obstacle;
pub use live_queues::LiveQueues;
