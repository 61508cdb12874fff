//! Sets of sockets, by index.

ghost use Rattle.std.specs.Prelude.{◌≡◌, ◌<◌, ◌≤◌, ℕ, IfOk, IfSome, IfNone, cond, true, false};
ghost use Rattle.marks.specs.Sets.{Differs, IsNextMark, bit_of};

use marks::{Flat, IndexSet, Over};
use std::alloc::{AllocError, Global};
use std::marker::Model;

/// The number of indices for sockets.
pub(crate) const PLACES: usize = 4096;

/// A set of sockets, by index. The next one is found without looking at each.
pub(crate) struct SocketSet {
    members: Over<Flat>,
}

/// Not derived: a derived drop is expanded, and proved again, in each function that drops the value.
impl Drop for SocketSet {
    fn drop(self) {
        let SocketSet { members: _ } = self;
    }
}

impl Model for SocketSet {
    ghost use Rattle.std.specs.Prelude.{ℕ, List, length, ◌≤◌};

    ghost Value = { List ℕ };

    ghost view = { λ s. s.members };

    ghost invariant = { λ s. 64 ≤ length s.members };
}

impl SocketSet {
    /// Makes an empty set. Fails only if an allocation fails.
    pub(crate) fn new(alloc: Global) -> Result<SocketSet, AllocError>
        ensures { IfOk result (λ s. (i : ℕ) → bit_of s i ≡ 0) }
    {
        let mut members = <Over<Flat>>::empty(alloc);
        members.grow(PLACES)?;
        Ok(SocketSet { members })
    }

    /// Adds `index` if `is_in`, otherwise removes it. Does nothing if `index` is 4,096 or more.
    pub(crate) fn put(&mut self, index: usize, is_in: bool)
        ensures { index < 4096 → Differs (bit_of self.old) (bit_of self.new) index (cond is_in 1 0) }
    {
        if index >= PLACES {
            return;
        }
        if is_in {
            self.members.set(index);
        } else {
            self.members.clear(index);
        }
    }

    /// Returns whether `index` is in the set.
    pub(crate) fn contains(&self, index: usize) -> bool
        ensures contained { result ≡ true → bit_of self.now index ≡ 1 }
        ensures missing { result ≡ false → bit_of self.now index ≡ 1 → ⊥ }
    {
        self.next(index) == Some(index)
    }

    /// Returns the first member at or after `from`, or `None`.
    pub(crate) fn next(&self, from: usize) -> Option<usize>
        ensures some { IfSome result (λ i. IsNextMark (bit_of self.now) from i) }
        ensures none { IfNone result ((k : ℕ) → from ≤ k → bit_of self.now k ≡ 0) }
    {
        self.members.next(from)
    }
}
