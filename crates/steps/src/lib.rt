//! Scenarios as lines of files: calls of an engine, clients served in memory and clients served over sockets, each with the expected answer.
//! A new scenario needs no proof.
//!
//! Start with [`run_file`], which `cases` calls. The head of each file in `crates/cases/data/scenarios` says how its lines are written.
#![tactic(auto)]

mod called;
mod engines;
mod machines;
mod names;
mod peers;
mod running;
mod setups;
mod wires;
mod worlds;

pub use running::run_file;
pub use setups::Disk;
