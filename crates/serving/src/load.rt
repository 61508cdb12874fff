//! How much output waits for the connections to which a round has delivered.

ghost use Rattle.std.specs.Prelude.{◌≡◌, ◌≤◌, ◌++◌, ℕ, drop, length, replicate, slice_index_or, slice_set, sum, true};
ghost use Rattle.serving.specs.Rounds.{enough_output};

use std::alloc::{AllocError, Global};
use std::marker::Model;

/// The number of bytes of output at which the deliveries of a round end.
const ENOUGH: usize = 4_194_304;

/// The output that waits for connections to which a round has delivered, by slot.
#[derive(Drop)]
pub(crate) struct Load {
    /// The length of each output after the last delivery; 0 for a slot to which none was made in this round.
    waiting: Vec<usize>,
    /// The sum of these, or less.
    total: usize,
    /// The slot behind the last one to which a delivery was made in this round; 0 if none was made.
    end: usize,
}

impl Model for Load {
    ghost use Rattle.std.specs.Prelude.{ℕ, List};
    ghost use Rattle.serving.specs.Load.{IsLoad};

    ghost Value = { List ℕ };

    ghost view = { λ l. l.waiting.items };

    ghost invariant = { λ l. IsLoad l.waiting.items l.total l.end };
}

/// Clears the first `end` numbers.
fn clear(numbers: &mut [usize], end: usize)
    requires { end ≤ length numbers.old }
    ensures { numbers.new ≡ replicate end 0 ++ drop end numbers.old }
{
    numbers[..end].fill(0);
}

impl Load {
    /// Makes a load without output, for `slots` slots. Fails only if an allocation fails.
    pub(crate) fn new(alloc: Global, slots: usize) -> Result<Load, AllocError> {
        Ok(Load {
            waiting: vec![in alloc; 0; slots]?,
            total: 0,
            end: 0,
        })
    }

    /// Begins a round: no delivery was made yet.
    pub(crate) fn begin(&mut self)
        ensures { (i : ℕ) → slice_index_or self.new i 0 ≡ 0 }
    {
        clear(self.waiting.as_mut_slice(), self.end);
        self.total = 0;
        self.end = 0;
    }

    /// Records that `length` bytes wait for the connection of `slot`, to which a delivery was made.
    pub(crate) fn note(&mut self, slot: usize, length: usize)
        ensures { self.new ≡ slice_set self.old slot length }
    {
        if slot < self.waiting.len() {
            let others = self.total.saturating_sub(self.waiting[slot]);
            self.total = others.saturating_add(length);
            self.waiting[slot] = length;
            self.end = self.end.max(slot + 1);
        }
    }

    /// Returns whether 4 MiB or more wait.
    pub(crate) fn is_enough(&self) -> bool
        ensures { result ≡ true → enough_output ≤ sum self.now }
    {
        self.total >= ENOUGH
    }
}
