//! Limits how long a socket may stay while its connection is not running.

ghost use Rattle.std.specs.Prelude.{◌≡◌, ◌≤◌, ◌+◌, ◌↔◌, Some, None, true, false, IfSome};
ghost use Rattle.std.specs.Time.{instant_nanos};
ghost use Rattle.std.specs.Duration.{as_nanos};

use std::rt::HostRuntime;
use std::time::{Duration, Instant};

/// The clock by which sockets are ended, and its time in this round.
#[derive(Clone, Copy, Drop)]
pub(crate) struct Watch {
    /// Without a clock no socket is ended.
    clock: Option<HostRuntime>,
    patience: Duration,
    time: Option<Instant>,
    /// No socket whose time is not over is ended before this; `None` if the time of no such socket is limited.
    first: Option<Instant>,
}

/// Returns the earlier of two times, of which each may be missing.
fn earlier(a: Option<Instant>, b: Option<Instant>) -> Option<Instant>
    ensures first { IfSome a (λ x. IfSome result (λ e. instant_nanos e ≤ instant_nanos x)) }
    ensures second { IfSome b (λ x. IfSome result (λ e. instant_nanos e ≤ instant_nanos x)) }
    ensures none { result ≡ None → (a ≡ None) × (b ≡ None) }
{
    match (a, b) {
        (Some(a), Some(b)) if a.checked_duration_since(b).is_some() => Some(b),
        (Some(a), _) => Some(a),
        (None, b) => b,
    }
}

impl Watch {
    /// Makes a watch without a clock: no socket is ended.
    pub(crate) fn none() -> Watch
        ensures { result.clock ≡ None }
    {
        Watch {
            clock: None,
            patience: Duration::ZERO,
            time: None,
            first: None,
        }
    }

    /// Makes a watch that gives each socket `patience` by `clock`.
    pub(crate) fn new(clock: HostRuntime, patience: Duration) -> Watch
        ensures clock { result.clock ≡ Some clock }
        ensures patience { result.patience ≡ patience }
    {
        Watch {
            clock: Some(clock),
            patience,
            time: None,
            first: None,
        }
    }

    /// Reads the clock, once a round.
    pub(crate) fn look(&mut self)
        ensures { self.old.clock ≡ None → self.new.time ≡ None }
    {
        self.time = match &self.clock {
            Some(clock) => Instant::now(clock).ok(),
            None => None,
        };
    }

    /// Returns when a socket is ended that is accepted in this round, or for which `farewell` is called in it; `None` if the clock has no time.
    pub(crate) fn ends(&self) -> Option<Instant>
        ensures timeless { self.now.time ≡ None → result ≡ None }
        ensures time { IfSome self.now.time (λ time. IfSome result (λ ends. instant_nanos ends ≡ instant_nanos time + as_nanos self.now.patience)) }
    {
        self.time?.checked_add(self.patience)
    }

    /// Learns that a socket is ended at `ends`, unless that is `None`.
    pub(crate) fn expect(&mut self, ends: Option<Instant>)
        ensures ends { IfSome ends (λ e. IfSome self.new.first (λ f. instant_nanos f ≤ instant_nanos e)) }
        ensures others { IfSome self.old.first (λ e. IfSome self.new.first (λ f. instant_nanos f ≤ instant_nanos e)) }
        ensures none { self.new.first ≡ None → (self.old.first ≡ None) × (ends ≡ None) }
        ensures time { self.new.time ≡ self.old.time }
    {
        self.first = earlier(self.first, ends);
    }

    /// Returns whether the time of a socket may have come that [`Watch::expect`] was called for, and forgets all of them then.
    pub(crate) fn looks(&mut self) -> bool
        ensures time { IfSome self.old.time (λ time. IfSome self.old.first (λ f. (result ≡ true) ↔ (instant_nanos f ≤ instant_nanos time))) }
        ensures none { result ≡ true → self.new.first ≡ None }
        ensures not { result ≡ false → self.new.first ≡ self.old.first }
    {
        if !self.is_over(self.first) {
            return false;
        }
        self.first = None;
        true
    }

    /// Returns whether the time `ends` of a socket has come. It has not if `ends` is `None` (the socket was welcomed), or if the clock has no time.
    pub(crate) fn is_over(&self, ends: Option<Instant>) -> bool
        ensures welcomed { ends ≡ None → result ≡ false }
        ensures timeless { self.now.time ≡ None → result ≡ false }
        ensures time { IfSome self.now.time (λ time. IfSome ends (λ e. (result ≡ true) ↔ (instant_nanos e ≤ instant_nanos time))) }
    {
        match (self.time, ends) {
            (Some(time), Some(ends)) => time.checked_duration_since(ends).is_some(),
            _ => false,
        }
    }
}
