//! Sockets that are asked in turn.

ghost use Rattle.std.specs.Prelude.{◌≡◌, ◌<◌, ℕ, IfOk, IfSome, IfNone, cond, true};
ghost use Rattle.marks.specs.Sets.{Differs, bit_of};
ghost use Rattle.turns.specs.Rings.{IsNextInTurn};

use crate::sets::{PLACES, SocketSet};
use std::alloc::{AllocError, Global};

/// Sockets that are asked in turn: between two turns of one, each other that stays has one.
pub(crate) struct Ring {
    members: SocketSet,
    /// The one that had its turn last.
    last: usize,
    ghost within: { last < 4096 },
}

/// Not derived, as that of [`SocketSet`].
impl Drop for Ring {
    fn drop(self) {
        let Ring {
            members: _,
            last: _,
        } = self;
    }
}

impl Ring {
    /// Makes an empty ring. Fails only if an allocation fails.
    pub(crate) fn new(alloc: Global) -> Result<Ring, AllocError>
        ensures { IfOk result (λ r. (i : ℕ) → bit_of r.members i ≡ 0) }
    {
        Ok(Ring {
            members: SocketSet::new(alloc)?,
            last: 0,
        })
    }

    /// Adds `index` if `is_in`, otherwise removes it. Does nothing if `index` is 4,096 or more.
    pub(crate) fn put(&mut self, index: usize, is_in: bool)
        ensures { index < 4096 → Differs (bit_of self.old.members) (bit_of self.new.members) index (cond is_in 1 0) }
    {
        self.members.put(index, is_in);
    }

    /// Returns whether the ring has no member.
    pub(crate) fn is_empty(&self) -> bool
        ensures { result ≡ true → (k : ℕ) → bit_of self.now.members k ≡ 0 }
    {
        self.members.next(0).is_none()
    }

    /// Returns the member whose turn it is, and gives it its turn; `None` if the ring is empty.
    pub(crate) fn next(&mut self) -> Option<usize>
        ensures members { self.new.members ≡ self.old.members }
        ensures some { IfSome result (λ index. IsNextInTurn (bit_of self.old.members) self.old.last index) }
        ensures last { IfSome result (λ index. index < 4096 → self.new.last ≡ index) }
        ensures none { IfNone result ((k : ℕ) → bit_of self.old.members k ≡ 0) }
    {
        let index = self.following()?;
        if index < PLACES {
            self.last = index;
        }
        Some(index)
    }

    /// Returns the member whose turn it is.
    fn following(&self) -> Option<usize>
        ensures some { IfSome result (λ index. IsNextInTurn (bit_of self.now.members) self.now.last index) }
        ensures none { IfNone result ((k : ℕ) → bit_of self.now.members k ≡ 0) }
    {
        match self.members.next(self.last + 1) {
            Some(index) => Some(index),
            None => self.members.next(0),
        }
    }

    /// Adds the next `most` members in turn to `picked`, or all if there are fewer.
    pub(crate) fn pick(&mut self, picked: &mut SocketSet, most: u32)
        ensures members { self.new.members ≡ self.old.members }
    {
        for _ in 0..most {
            match self.next() {
                Some(index) if !picked.contains(index) => picked.put(index, true),
                _ => return,
            }
        }
    }
}
