//! Scenarios of sockets of the system, without a server: which sockets the system is asked about, and when; how long a rest lasts; and which
//! sockets are ended. `cases` runs them: start at [`run_all`].
#![tactic(auto)]

mod crowds;
mod listening;
mod passing;
mod reads;
mod scenarios;
mod scenes;
mod shares;
mod steps;
mod times;
mod tries;
mod writes;

use scenario_outcomes::Sums;
use scenarios::SCENARIOS;
use std::io;
use steps::play;

/// Runs these scenarios, and prints a line for each.
pub fn run_all(sums: &mut Sums, rt: &HostRuntime) -> io::Result<()> {
    let alloc = rt.alloc();
    let outcome = shares::each_client_is_read_soon(alloc);
    sums.record(rt, "each_client_is_read_soon", outcome)?;
    for scenario in SCENARIOS {
        sums.record(rt, scenario.name, play(rt, alloc, scenario))?;
    }
    Ok(())
}
