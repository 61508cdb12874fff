//! Moments that a scenario waits for.

use crate::expectations::{Unmet, expect, value_of};
use std::time::{Duration, Instant};

/// Returns the moment `time` milliseconds from now.
pub fn earliest_end(rt: &HostRuntime, time: u64) -> Result<Instant, Unmet> {
    let now = value_of("Instant::now", Instant::now(rt))?;
    now.checked_add(Duration::from_millis(time))
        .ok_or(Unmet::Call("checked_add"))
}

/// Checks that `moment` has passed: a socket for which `farewell` was called must not be ended before it.
pub fn expect_past(rt: &HostRuntime, moment: Instant) -> Result<(), Unmet> {
    let now = value_of("Instant::now", Instant::now(rt))?;
    expect(
        "a socket is not ended before its time after `farewell`",
        now >= moment,
    )
}
