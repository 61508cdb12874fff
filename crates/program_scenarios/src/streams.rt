//! The program over streams that take no byte.

use crate::disk::ScenarioDisk;
use scenario_parts::{Closed, Unmet, expect, expect_number};
use server::program;
use std::alloc::Global;

/// The words that ask for a replay of the script.
const REPLAY: [&str; 3] = ["warren", "replay", "script"];

/// Checks that an output that takes no byte of what a script prints leads to status 4.
pub(crate) fn output_that_is_not_taken_has_status_four(alloc: Global) -> Result<(), Unmet> {
    let mut disk = ScenarioDisk { script: b"ready 1" };
    let mut err: Vec<u8> = Vec::new(alloc);
    let status = program(alloc, REPLAY.as_slice(), &mut disk, &mut Closed, &mut err);
    expect_number("the status", u64::from(status), 4)?;
    expect("there is no complaint", err.is_empty())
}

/// Checks that an error stream that takes no byte of why a script is refused leads to status 4.
pub(crate) fn a_complaint_that_is_not_taken_has_status_four(alloc: Global) -> Result<(), Unmet> {
    let mut disk = ScenarioDisk { script: b"begin" };
    let mut out: Vec<u8> = Vec::new(alloc);
    let status = program(alloc, REPLAY.as_slice(), &mut disk, &mut out, &mut Closed);
    expect_number("the status", u64::from(status), 4)?;
    expect("there is no output", out.is_empty())
}
