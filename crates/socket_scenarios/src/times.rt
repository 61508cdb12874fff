//! Moments that steps set and wait for, and how long sockets rest, by the clock. Start with [`Time`].

use crate::scenes::Scene;
use scenario_outcomes::{Unmet, earliest_end, expect, expect_past, value_of};
use serving::Wire as _;
use sockets::Sockets;
use std::time::{Duration, Instant};

/// The milliseconds within which a socket has to be welcomed, and that it may stay after its farewell.
pub(crate) const TIME: u64 = 200;

/// What is timed. Other work on the machine can only make a rest longer: so the shortest is looked at.
#[derive(Clone, Copy, Drop)]
pub(crate) enum Time {
    /// A moment is set, [`TIME`] milliseconds from now.
    Begins,
    /// That moment is past.
    IsPast,
    /// The sockets rest, and how long they do is remembered if it is the shortest rest.
    Rests,
    /// The shortest rest has at least this many milliseconds.
    AtLeast(u64, &'static str),
    /// The shortest rest has at most this many milliseconds.
    AtMost(u64, &'static str),
}

/// Sets a moment, [`TIME`] milliseconds from now.
fn begin(scene: &mut Scene) -> Result<(), Unmet> {
    scene.moment = Some(earliest_end(&scene.rt, TIME)?);
    Ok(())
}

/// Checks that the moment that was set is past.
fn expect_over(scene: &Scene) -> Result<(), Unmet> {
    match scene.moment {
        Some(moment) => expect_past(&scene.rt, moment),
        None => Err(Unmet::Claim("a moment was set")),
    }
}

/// Returns whether the moment that was set is past.
pub(crate) fn is_past(scene: &Scene) -> bool {
    expect_over(scene).is_ok()
}

/// Returns how long a rest lasts.
fn rest_time(sockets: &mut Sockets, clock: &HostRuntime) -> Result<Duration, Unmet> {
    let began = value_of("Instant::now", Instant::now(clock))?;
    sockets.rest();
    value_of("Instant::elapsed", began.elapsed(clock))
}

/// Rests, and remembers how long if it is the shortest rest.
fn time_rest(scene: &mut Scene) -> Result<(), Unmet> {
    let lasted = rest_time(&mut scene.sockets, &scene.rt)?;
    scene.shortest = scene.shortest.min(lasted);
    Ok(())
}

/// Sets a moment, times a rest, or checks how long the shortest lasted.
pub(crate) fn take(scene: &mut Scene, time: Time) -> Result<(), Unmet> {
    match time {
        Time::Begins => begin(scene),
        Time::IsPast => expect_over(scene),
        Time::Rests => time_rest(scene),
        Time::AtLeast(least, claim) => {
            expect(claim, scene.shortest >= Duration::from_millis(least))
        }
        Time::AtMost(most, claim) => expect(claim, scene.shortest <= Duration::from_millis(most)),
    }
}
