//! The clock by which refusals are reported again.

ghost use Rattle.std.specs.Prelude.{⊤};

use std::time::Instant;

/// A clock, read once at each look.
pub trait Clock {
    ghost use Rattle.std.specs.Prelude.{ℕ};

    // the times that it may give
    ghost may: { ℕ → Type 0 };

    /// Returns the whole seconds since a moment that never changes.
    fn seconds(&mut self) -> u64
        ensures { may result };
}

/// The clock of the machine.
#[derive(Clone, Copy, Drop)]
pub struct MachineClock<'a> {
    rt: &'a HostRuntime,
    began: Option<Instant>,
}

impl<'a> MachineClock<'a> {
    /// Starts a clock at 0 seconds. If the time of the machine can't be read it stays there.
    pub fn start(rt: &'a HostRuntime) -> MachineClock<'a> {
        MachineClock {
            rt,
            began: Instant::now(rt).ok(),
        }
    }
}

impl Clock for MachineClock<'_> {
    ghost may = { λ _. ⊤ };

    fn seconds(&mut self) -> u64 {
        match self.began {
            Some(began) => match began.elapsed(self.rt) {
                Ok(passed) => passed.as_secs(),
                Err(_) => 0,
            },
            None => 0,
        }
    }
}
