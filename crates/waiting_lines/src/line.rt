//! The line.

ghost use Rattle.std.specs.Prelude.{◌≡◌, ◌<◌, ◌≤◌, ◌+◌, ◌*◌, ◌++◌, ◌∷◌, [], ℕ, List, true, IfSome, IfNone, OnOk, OnErr};
ghost use Rattle.std.specs.Prelude.{length, min, drop, filter, vec_capacity};
ghost use Rattle.marks.specs.Sets.{bit_of};
ghost use Rattle.waiting_lines.specs.Order.{Member, Queue, order_from, all_awake, items_of, AllAsleep, FallsAsleep, GoesLast, IsAt, IsKept, IsNextAwake};
ghost use Rattle.waiting_lines.specs.Order.{Loses, Wakes};

use crate::places::{
    PlaceMarks, Tests, count_kept, find, last_place, next_awake, next_without, place_of, retain,
    set_left,
};
use marks::{Flat, IndexSet, Over};
use std::alloc::{AllocError, Global};
use std::marker::Model;

/// Members who take turns. Each is awake or sleeps.
#[derive(Drop)]
pub struct Line<T: Drop> {
    items: Vec<T>,
    /// A bit for each member, 1 if it is awake.
    awake: PlaceMarks,
    /// The index of the member whose turn is first.
    next: usize,
}

impl<T: Drop> Model for Line<T> {
    ghost Value = { Queue T };

    ghost view = { λ l. record { order = order_from l.next (bit_of l.awake) l.items.items; capacity = min (vec_capacity l.items) (length l.awake * 64) } };

    ghost invariant = { λ l. IsKept l.next (length l.items.items) (length l.awake * 64) (bit_of l.awake) };
}

impl<T: Drop> Line<T> {
    /// Makes a line without members. Never allocates.
    pub fn new(alloc: Global) -> Line<T>
        ensures { result.order ≡ [] }
    {
        Line {
            items: Vec::new(alloc),
            awake: <Over<Flat>>::empty(alloc),
            next: 0,
        }
    }

    /// Returns the number of members.
    pub fn len(&self) -> usize
        ensures { result ≡ length self.now.order }
    {
        self.items.len()
    }

    /// Reserves capacity for one more member. Fails only if an allocation fails, which occurs only if there is none yet.
    pub fn reserve(&mut self) -> Result<(), AllocError>
        ensures room { OnOk result (length self.new.order < self.new.capacity) }
        ensures same { self.new.order ≡ self.old.order }
        ensures kept { self.old.capacity ≤ self.new.capacity }
        ensures full { OnErr result (self.old.capacity ≤ length self.old.order) }
    {
        self.awake.grow(self.items.len() + 1)?;
        self.items.reserve(1)
    }

    /// Adds `item`, awake. Its turn is last. Returns a guess at its index, for `leave` and `wake`. Never allocates.
    pub fn join(&mut self, item: T) -> usize
        requires { length self.old.order < self.old.capacity }
        ensures { self.new ≡ record self.old { order = self.old.order ++ record { item = item; awake = true } ∷ [] } }
    {
        let place = last_place(self.next, self.items.len());
        let _ = self.items.insert(place, item);
        self.awake.insert(place);
        self.next = place + 1;
        place
    }

    /// Removes a member whose item passes `test`, if there is one. Looks at the index `guess` first, and then around it. Never allocates.
    pub fn leave<K: Tests<T>>(&mut self, test: &K, guess: usize)
        ensures order { Loses (K.passes test.now) self.old.order self.new.order }
        ensures capacity { self.new.capacity ≡ self.old.capacity }
    {
        if let Some(place) = find(&self.items, test, guess) {
            self.items.remove(place);
            self.awake.remove(place);
            self.next = next_without(self.next, place);
        }
    }

    /// Removes all members whose items don't pass `keeper`, in one pass. Those that are left keep their order, and all are awake. Never allocates.
    pub fn sweep<K: Tests<T>>(&mut self, keeper: &K)
        ensures order { self.new.order ≡ all_awake (filter (K.passes keeper.now) (items_of self.old.order)) }
        ensures capacity { self.new.capacity ≡ self.old.capacity }
    {
        let count = self.items.len();
        let front = count_kept(self.items.split_at(self.next).0, keeper);
        retain(&mut self.items, keeper);
        set_left(&mut self.awake, self.items.len(), count);
        self.next = front;
    }

    /// Wakes a member whose item passes `test`, if there is one. Looks at the index `guess` first, and then around it, and returns the index at which it
    /// was found, as a guess for the next time. No order changes. Never allocates.
    pub fn wake<K: Tests<T>>(&mut self, test: &K, guess: usize) -> usize
        ensures order { Wakes (K.passes test.now) self.old.order self.new.order }
        ensures capacity { self.new.capacity ≡ self.old.capacity }
    {
        match find(&self.items, test, guess) {
            Some(place) => {
                self.awake.set(place);
                place
            }
            None => guess,
        }
    }

    /// Returns how many turns come before that of the first member, after at least `from` others, that is awake. Returns `None` exactly if none is.
    pub fn next_awake(&self, from: usize) -> Option<usize>
        ensures some { IfSome result (λ i. IsNextAwake self.now.order from i) }
        ensures none { IfNone result (AllAsleep (drop from self.now.order)) }
    {
        next_awake(&self.awake, self.next, self.items.len(), from)
    }

    /// Returns the member whose turn is after those of `i` others.
    pub fn item_at(&self, i: usize) -> T
    where
        T: Copy,
        requires { i < length self.now.order }
        ensures { (m : Member T) (front back : List (Member T)) → IsAt self.now.order i m front back → result ≡ m.item }
    {
        self.items[place_of(self.next, self.items.len(), i)]
    }

    /// Puts the member to sleep whose turn is after those of `i` others. No order changes.
    pub fn rest_at(&mut self, i: usize)
        requires { i < length self.old.order }
        ensures order { FallsAsleep i self.old.order self.new.order }
        ensures capacity { self.new.capacity ≡ self.old.capacity }
    {
        let place = place_of(self.next, self.items.len(), i);
        self.awake.clear(place);
    }

    /// Serves the member whose turn is after those of `i` others: it goes last, with those before it.
    pub fn turn(&mut self, i: usize)
        requires { i < length self.old.order }
        ensures order { GoesLast i self.old.order self.new.order }
        ensures capacity { self.new.capacity ≡ self.old.capacity }
    {
        self.next = place_of(self.next, self.items.len(), i) + 1;
    }
}
