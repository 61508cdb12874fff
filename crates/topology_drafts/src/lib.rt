//! Checks a topology before it is built, and looks up exchanges and queues by name.
//!
//! Start with [`judge`]; [`BadTopology`] has the reasons.
#![tactic(auto)]

mod bad;
mod checks;
mod directory;
mod drafts;

pub use bad::BadTopology;
pub use directory::{Directory, Named, Names};
pub use drafts::{Draft, judge};
