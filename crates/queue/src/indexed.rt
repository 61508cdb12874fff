//! The queue that the broker runs on: blocks of slots, with a mark for each block that has a ready message. Start with
//! [`Indexed`].

ghost use Rattle.std.specs.Prelude.{◌≡◌, ◌+◌, ◌≤◌, ◌++◌, map, filter, not, vec_len, vec_capacity};
ghost use Rattle.model.specs.Broker.{is_ready};
ghost use Rattle.queue.specs.Line.{ready_count};
ghost use Rattle.model.specs.Entries.{number_of};

use crate::blocks::{
    Chain, Spot, free_at, give_back_spare, hold_at, mark_reloaded_in, push_last, remove_at, settle,
    sign, take_at,
};
use crate::signs::Signs;
use crate::stores::Store;
use crate::walks::Walk;
use model::{Entry, Holder, Message};
use std::alloc::{AllocError, Global};
use std::marker::Model;

/// A queue that finds messages by marks and arrival numbers.
///
/// Messages are in blocks. `push` appends to the last block, or, if that is full, to a spare one that `reserve` has started, so
/// no call moves more messages than one block has. Two neighbours are joined if their messages fit into the first, and an empty block at
/// the front is freed. The number of ready messages and the bytes of their bodies are counted along.
#[derive(Drop)]
pub struct Indexed {
    chain: Chain,
    ready_count: usize,
    /// The bytes of the bodies of the ready messages. 128 bits suffice for any number of bodies of any length.
    ready_bytes: u128,
    /// The number of messages, ready and held.
    live: usize,
    /// The promised room: the number of pushes that need no allocation.
    room: usize,
    /// The number of messages pushed so far.
    arrived: u64,
}

impl Model for Indexed {
    ghost use Rattle.queue.specs.Line.{Line};
    ghost use Rattle.queue.specs.Blocks.{parts, joined, IsIndexed};

    ghost Value = { Line };

    ghost view = { λ q. record { entries = joined (parts q.chain.blocks.items); room = q.room } };

    ghost invariant = { λ q. IsIndexed q.chain.blocks q.chain.spares q.chain.signs q.ready_count q.live q.ready_bytes q.room };
}

impl Store for Indexed {
    ghost line = { λ line. line };

    fn new(alloc: Global) -> Indexed {
        Indexed {
            chain: Chain {
                alloc,
                blocks: Vec::new(alloc),
                spares: Vec::new(alloc),
                signs: Signs::empty(alloc),
            },
            ready_count: 0,
            ready_bytes: 0,
            live: 0,
            room: 0,
            arrived: 0,
        }
    }

    /// Grows the last block while it has fewer than 1,024 slots, and starts spare blocks for the rest.
    fn reserve(&mut self, more: usize) -> Result<(), AllocError> {
        if more <= self.room {
            return Ok(());
        }
        if more > usize::MAX - self.live {
            return Err(AllocError);
        }
        self.chain.make_room(self.arrived, self.room, more)?;
        self.room = more;
        Ok(())
    }

    fn room(&self) -> usize {
        self.room
    }

    fn give_back(&mut self) {
        if self.room == 0 {
            return;
        }
        self.room = 0;
        self.chain.keep_room(0);
    }

    fn push(&mut self, message: Message) {
        self.ready_count += 1;
        self.ready_bytes += message.content().body.len() as u128;
        self.live += 1;
        self.room -= 1;
        self.chain.open_spare(self.arrived);
        let place = push_last(&mut self.chain.blocks, self.arrived, message);
        self.chain.signs.set_ready(place);
        self.arrived = self.arrived.wrapping_add(1);
    }

    fn ready(&self) -> usize {
        self.ready_count
    }

    fn ready_bytes(&self) -> u128 {
        self.ready_bytes
    }

    fn first_ready(&self) -> Option<&Entry> {
        match self.chain.signs.first_ready() {
            Some(place) => self.chain.first_ready_at(place),
            None => None,
        }
    }

    /// Returns the number of the held message's arrival, by which binary search finds it again.
    fn hold(&mut self, holder: Holder) -> Option<u64> {
        match self.chain.signs.first_ready() {
            None => None,
            Some(place) => {
                self.ready_count -= 1;
                self.ready_bytes -= self.chain.ready_bytes_at(place) as u128;
                let arrival = hold_at(&mut self.chain.blocks, place, holder);
                sign(&self.chain.blocks, &mut self.chain.signs, place);
                arrival
            }
        }
    }

    fn take_first(&mut self) -> Option<Entry> {
        match self.chain.signs.first_ready() {
            None => None,
            Some(place) => {
                self.ready_count -= 1;
                self.ready_bytes -= self.chain.ready_bytes_at(place) as u128;
                self.live -= 1;
                let entry = take_at(&mut self.chain.blocks, place);
                sign(&self.chain.blocks, &mut self.chain.signs, place);
                settle(
                    &mut self.chain.blocks,
                    &mut self.chain.signs,
                    place,
                    self.chain.alloc,
                );
                give_back_spare(&mut self.chain.blocks, self.room, self.chain.alloc);
                entry
            }
        }
    }

    fn held(&self, holder: &Holder, arrival: u64) -> Option<&Entry> {
        match self.chain.spot_held(holder, arrival) {
            Some(spot) => self.chain.held_at(spot.block, holder, spot.slot),
            None => None,
        }
    }

    fn release(&mut self, holder: &Holder, arrival: u64) -> bool {
        match self.chain.spot_held(holder, arrival) {
            None => false,
            Some(Spot { block, slot }) => {
                self.ready_count += 1;
                self.ready_bytes += self.chain.held_bytes_at(block, holder, slot) as u128;
                free_at(&mut self.chain.blocks, block, holder, slot);
                sign(&self.chain.blocks, &mut self.chain.signs, block);
                true
            }
        }
    }

    fn remove(&mut self, holder: &Holder, arrival: u64) -> Option<Entry> {
        match self.chain.spot_held(holder, arrival) {
            None => None,
            Some(Spot { block, slot }) => {
                self.live -= 1;
                let entry = remove_at(&mut self.chain.blocks, block, holder, slot);
                sign(&self.chain.blocks, &mut self.chain.signs, block);
                settle(
                    &mut self.chain.blocks,
                    &mut self.chain.signs,
                    block,
                    self.chain.alloc,
                );
                give_back_spare(&mut self.chain.blocks, self.room, self.chain.alloc);
                entry
            }
        }
    }

    /// Takes a step for each ready message, and none for a held one.
    fn purge(&mut self, numbers: &mut Vec<u64>) {
        purge_in(self, numbers);
    }

    /// Takes a step for each slot.
    fn mark_reloaded(&mut self) {
        mark_reloaded_in(&mut self.chain.blocks);
    }

    fn walk(&self) -> Walk<'_> {
        Walk::of_blocks(&self.chain.blocks)
    }
}

/// Removes the ready messages one after another.
fn purge_in(queue: &mut Indexed, numbers: &mut Vec<u64>)
    requires { vec_len numbers.old + ready_count queue.old.entries ≤ vec_capacity numbers.old }
    ensures entries { queue.new.entries ≡ filter (λ e. not (is_ready e)) queue.old.entries }
    ensures numbers { numbers.new.items ≡ numbers.old.items ++ map number_of (filter is_ready queue.old.entries) }
    ensures capacity { vec_capacity numbers.new ≡ vec_capacity numbers.old }
    ensures room { queue.new.room ≡ queue.old.room }
{
    while let Some(entry) = queue.take_first() {
        numbers.push_reserved(entry.message.number());
    }
}
