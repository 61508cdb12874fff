//! The command line: what the program is asked to do.
//!
//! Start with [`command`], which returns an [`Asked`]. clap parses the words; this crate defines the commands and their
//! arguments.
#![tactic(auto)]

mod asked;
mod reading;

pub use asked::Asked;
pub use reading::command;
