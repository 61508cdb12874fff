//! The set of indices with a ready message: of the slots of a block, or of the blocks of a queue. Start with [`Signs`].

ghost use Rattle.std.specs.Prelude.{◌≡◌};

use marks::{Flat, IndexSet, Over};
use std::alloc::{AllocError, Global};
use std::marker::Model;

/// A bit for each index. Among up to 4,096 indices the first member is found by reading two words.
type Marks = Over<Flat>;

/// The set of indices with a ready message.
#[derive(Drop)]
pub(crate) struct Signs {
    ready: Marks,
    /// The number of indices that have a bit.
    places: usize,
}

impl Model for Signs {
    ghost use Rattle.std.specs.Prelude.{◌≤◌, ◌*◌, length};
    ghost use Rattle.queue.specs.Slots.{SlotBits};

    ghost Value = { SlotBits };

    ghost view = { λ s. record { ready = s.ready; places = s.places } };

    ghost invariant = { λ s. s.places ≤ length s.ready * 64 };
}

impl Signs {
    ghost use Rattle.std.specs.Prelude.{◌≡◌, ◌<◌, ◌≤◌, ℕ, OnOk, OnErr, IfSome, IfNone};
    ghost use Rattle.marks.specs.Sets.{bit_of, IsNextMark};
    ghost use Rattle.queue.specs.Slots.{SameBits, BitTurned};

    /// Returns an empty set without any bits. Never allocates.
    pub(crate) fn empty(alloc: Global) -> Signs
        ensures ready { (k : ℕ) → bit_of result.ready k ≡ 0 }
        ensures places { result.places ≡ 0 }
    {
        Signs {
            ready: <Over<Flat>>::empty(alloc),
            places: 0,
        }
    }

    /// Grows the set so that each index below `places` has a bit. The members don't change. Fails only if an allocation fails.
    pub(crate) fn grow(&mut self, places: usize) -> Result<(), AllocError>
        ensures same { SameBits self.old self.new }
        ensures room { OnOk result (self.new.places ≡ places) }
        ensures kept { OnErr result (self.new.places ≡ self.old.places) }
    {
        self.ready.grow(places)?;
        self.places = places;
        Ok(())
    }

    /// Returns the number of indices that have a bit.
    pub(crate) fn places(&self) -> usize
        ensures { result ≡ self.now.places }
    {
        self.places
    }

    /// Returns the first index with a ready message.
    pub(crate) fn first_ready(&self) -> Option<usize>
        ensures some { IfSome result (λ place. IsNextMark (bit_of self.now.ready) 0 place) }
        ensures none { IfNone result ((k : ℕ) → bit_of self.now.ready k ≡ 0) }
    {
        self.ready.first()
    }

    /// Adds `index`, an index at which a message is ready.
    pub(crate) fn set_ready(&mut self, index: usize)
        requires { index < self.old.places }
        ensures { BitTurned self.old self.new index 1 }
    {
        self.ready.set(index);
    }

    /// Removes `index`, an index at which no message is ready.
    pub(crate) fn clear(&mut self, index: usize)
        requires { index < self.old.places }
        ensures { BitTurned self.old self.new index 0 }
    {
        self.ready.clear(index);
    }
}
