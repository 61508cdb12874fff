//! Cases as lines of files: what is asked of a reader, a writer or a route, and the expected answer. A new line needs no proof.
//!
//! A line is `KIND ASKED -> WANTED`. Empty lines and lines that begin with `#` are ignored. The head of each file in `data` says what its
//! lines ask. Start with `running`.
#![tactic(auto)]

mod counts;
mod parts;
mod running;
mod wire;

use std::io;
use std::process::ExitCode;

fn main(rt: HostRuntime) -> io::Result<ExitCode> {
    running::run(&rt)
}
