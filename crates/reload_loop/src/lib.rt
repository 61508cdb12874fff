//! The program with sockets: it serves, and looks at its files between rounds to put in force what they state. Also the files and
//! the sockets of the machine. Start at [`program_with_sockets`].
#![tactic(auto)]

mod clock;
mod disk;
mod found;
mod lines;
mod looking;
mod program;
mod reporting;
mod serving_on;
mod snapshots;
mod system;

pub use clock::{Clock, MachineClock};
pub use disk::Disk;
pub use program::program_with_sockets;
pub use serving_on::serve_and_reload;
pub use snapshots::{Names, Reading, Snapshot};
pub use system::System;
