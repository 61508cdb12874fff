//! Reads definitions files: a topology and its users, in JSON as RabbitMQ exports it.
//!
//! Start with [`read_definitions`].
#![tactic(auto)]

mod causes;
mod definitions;
mod document;
mod judging;
mod names;
mod shape;
mod stating;

pub use definitions::{Definitions, Users, read_definitions};
pub use json_file::{FileCause, FileCause as Bad};
