//! A queue over one vector of entries.

use crate::lists;
use crate::stores::Store;
use crate::walks::Walk;
use model::{Entry, Holder, Mark, Message};
use std::alloc::{AllocError, Global};
use std::marker::Model;

/// A queue that keeps its messages in one vector. Each call goes over all of it, which makes it the one to read first.
#[derive(Drop)]
pub struct Listed {
    entries: Vec<Entry>,
    /// The promised room: the number of pushes that need no allocation.
    room: usize,
}

impl Model for Listed {
    ghost use Rattle.std.specs.Prelude.{◌+◌, ◌≤◌, vec_len, vec_capacity};
    ghost use Rattle.queue.specs.Line.{Line};

    ghost Value = { Line };

    ghost view = { λ l. record { entries = l.entries.items; room = l.room } };

    ghost invariant = { λ l. vec_len l.entries + l.room ≤ vec_capacity l.entries };
}

impl Store for Listed {
    ghost line = { λ line. line };

    fn new(alloc: Global) -> Listed {
        Listed {
            entries: Vec::new(alloc),
            room: 0,
        }
    }

    fn reserve(&mut self, more: usize) -> Result<(), AllocError> {
        if more <= self.room {
            return Ok(());
        }
        self.entries.reserve(more)?;
        self.room = more;
        Ok(())
    }

    fn room(&self) -> usize {
        self.room
    }

    fn give_back(&mut self) {
        self.room = 0;
    }

    fn push(&mut self, message: Message) {
        self.entries.push_reserved(Entry {
            message,
            mark: Mark::Ready,
        });
        self.room -= 1;
    }

    fn ready(&self) -> usize {
        lists::ready_count(&self.entries)
    }

    fn ready_bytes(&self) -> u128 {
        lists::ready_bytes(&self.entries)
    }

    fn first_ready(&self) -> Option<&Entry> {
        lists::first_ready(&self.entries)
    }

    /// Returns 0 if a message is held now: arrivals have no numbers here.
    fn hold(&mut self, holder: Holder) -> Option<u64> {
        lists::hold_first(&mut self.entries, holder).then_some(0)
    }

    fn take_first(&mut self) -> Option<Entry> {
        lists::take_first(&mut self.entries)
    }

    fn held(&self, holder: &Holder, arrival: u64) -> Option<&Entry> {
        let _ = arrival;
        lists::first_held(&self.entries, holder)
    }

    fn release(&mut self, holder: &Holder, arrival: u64) -> bool {
        let _ = arrival;
        lists::release(&mut self.entries, holder)
    }

    fn remove(&mut self, holder: &Holder, arrival: u64) -> Option<Entry> {
        let _ = arrival;
        lists::remove(&mut self.entries, holder)
    }

    fn purge(&mut self, numbers: &mut Vec<u64>) {
        lists::purge(&mut self.entries, numbers);
    }

    fn mark_reloaded(&mut self) {
        lists::mark_reloaded(&mut self.entries);
    }

    fn walk(&self) -> Walk<'_> {
        Walk::of_entries(&self.entries)
    }
}
