//! Runs the scenarios, after the cases.

use crate::disk::Folder;
use scenario_outcomes::Sums;
use std::io;
use steps::Disk;

/// The file of the scenarios that are lines.
const SCENARIOS: &str = "scenarios.lines";

/// Runs all scenarios, prints a line for each and one with their sums, and returns whether none failed.
pub(crate) fn all_hold(folder: Folder<'_>) -> io::Result<bool> {
    let rt = folder.rt;
    let mut sums = Sums::default();
    let disk = Disk {
        rt,
        folder: folder.path,
    };
    steps::run_file(&mut sums, disk, SCENARIOS)?;
    socket_scenarios::run_all(&mut sums, rt)?;
    program_scenarios::run_all(&mut sums, rt)?;
    println!(rt; "{} scenarios, {} failed", sums.scenarios, sums.failed)?;
    Ok(sums.failed == 0)
}
