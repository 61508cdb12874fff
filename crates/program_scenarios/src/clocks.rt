//! A clock that goes on at each look.

ghost use Rattle.std.specs.Prelude.{⊤};

use reload_loop::Clock;

/// A clock that goes on by the same number of seconds each time it is read.
#[derive(Drop)]
pub(crate) struct Ticking {
    step: u64,
    time: u64,
}

impl Ticking {
    /// Makes a clock that goes on by `step` seconds, and has 0 first.
    pub(crate) fn by(step: u64) -> Ticking {
        Ticking { step, time: 0 }
    }
}

impl Clock for Ticking {
    ghost may = { λ _. ⊤ };

    fn seconds(&mut self) -> u64 {
        let time = self.time;
        self.time = time.saturating_add(self.step);
        time
    }
}
