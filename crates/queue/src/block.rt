//! A block: slots in the order of arrival, with a mark for each that has a ready message. Start with [`Block`].

ghost use Rattle.std.specs.Prelude.{◌≡◌, ◌+◌, ◌<◌, ◌≤◌, ℕ, IfSome, IfNone, OnOk, vec_len, vec_capacity};
ghost use Rattle.queue.specs.Slots.{SameBits};

use crate::signs::Signs;
use crate::slots::{
    Slot, append, close_many_gaps, entry_at, free_at, hold_at, index_held, index_of_arrival,
    mark_reloaded_in, move_in, take_at,
};
use model::{Entry, Holder, Mark, Message};
use std::alloc::{AllocError, Global};
use std::marker::Model;

/// The most slots of a block.
pub(crate) const BLOCK_SLOTS: usize = 1024;

/// The fewest slots that a block grows to.
const FIRST_SLOTS: usize = 4;

/// Returns twice `slots`, at most 1,024; or 4 if `slots` is less than 4.
fn twice(slots: usize) -> usize
    ensures { result ≤ 1024 }
{
    if slots < FIRST_SLOTS {
        FIRST_SLOTS
    } else if slots < BLOCK_SLOTS / 2 {
        slots * 2
    } else {
        BLOCK_SLOTS
    }
}

/// Returns how many slots to add to `slots` for `more` messages: `more` if `capacity` suffices, otherwise at least `more`, and as many as
/// double the capacity, up to 1,024. Returns `None` if `slots + more` exceeds both the capacity and 1,024.
fn growth(slots: usize, capacity: usize, more: usize) -> Option<usize>
    requires { slots ≤ capacity }
    // If slots are added they are enough, at most 1,024 in all unless the capacity is greater, and only `more` if the capacity suffices.
    ensures enough { IfSome result (λ grown. more ≤ grown) }
    ensures few { IfSome result (λ grown. capacity ≤ 1024 → slots + grown ≤ 1024) }
    ensures same { IfSome result (λ grown. slots + more ≤ capacity → grown ≡ more) }
    // None are added only if `more` exceed both 1,024 slots and the capacity.
    ensures past { IfNone result (1024 < slots + more) }
    ensures wide { IfNone result (capacity < slots + more) }
{
    if more <= capacity - slots {
        return Some(more);
    }
    if slots > BLOCK_SLOTS || more > BLOCK_SLOTS - slots {
        return None;
    }
    Some(more.max(twice(capacity).saturating_sub(slots)))
}

/// Reserves capacity for `more` further slots, each with its bit, unless there is enough.
fn grow(slots: &mut Vec<Slot>, signs: &mut Signs, more: usize) -> Result<(), AllocError>
    requires { vec_capacity slots.old ≤ signs.old.places }
    // The frame, also after a failure: the slots and their bits are unchanged.
    ensures items { slots.new.items ≡ slots.old.items }
    ensures len { vec_len slots.new ≡ vec_len slots.old }
    ensures bits { SameBits signs.old signs.new }
    // The capacity is enough on success, with a bit for each slot; it never shrinks, and if it grows, then at most to what is needed.
    ensures places { vec_capacity slots.new ≤ signs.new.places }
    ensures kept { vec_capacity slots.old ≤ vec_capacity slots.new }
    ensures room { OnOk result (vec_len slots.new + more ≤ vec_capacity slots.new) }
    ensures same { vec_len slots.old + more ≤ vec_capacity slots.old → vec_capacity slots.new ≡ vec_capacity slots.old }
    ensures few { (most : ℕ) → vec_capacity slots.old ≤ most → vec_len slots.old + more ≤ most → vec_capacity slots.new ≤ most }
{
    if more <= slots.capacity() - slots.len() {
        return Ok(());
    }
    if more > usize::MAX - slots.len() {
        return Err(AllocError);
    }
    signs.grow(slots.len() + more)?;
    slots.reserve_exact(more)
}

/// A run of messages in the order of arrival, ready or held.
///
/// Each is in a slot, which stays empty after the message is removed; `reserve` closes such gaps. A mark for each slot says
/// whether its message is ready, so that the first ready message is found without a scan.
#[derive(Drop)]
pub(crate) struct Block {
    slots: Vec<Slot>,
    signs: Signs,
    /// The number of messages.
    live: usize,
    /// The number of the earliest arrival that may be in this block.
    first: u64,
}

impl Model for Block {
    ghost use Rattle.std.specs.Prelude.{◌-◌, vec_len, vec_capacity};
    ghost use Rattle.queue.specs.Blocks.{Stretch};
    ghost use Rattle.queue.specs.Slots.{contents, somes, IsBlock};

    ghost Value = { Stretch };

    ghost view = { λ b. record { entries = somes (contents b.slots.items); room = vec_capacity b.slots - vec_len b.slots; slots = vec_capacity b.slots } };

    ghost invariant = { λ b. IsBlock b.slots b.signs b.live };
}

impl Block {
    ghost use Rattle.std.specs.Prelude.{◌≡◌, ◌+◌, ◌*◌, ◌<◌, ◌≤◌, ◌∷◌, ◌++◌, [], ℕ, true, false, length};
    ghost use Rattle.std.specs.Prelude.{IfOk, OnErr, None, find, filter, not, is_some, option_map};
    ghost use Rattle.model.specs.Broker.{is_ready};
    ghost use Rattle.model.specs.Entries.{is_under, is_held_as, held_as, change_first, without_first};
    ghost use Rattle.model.specs.declared.messages.Mark.TheVariants.{Ready};
    ghost use Rattle.model.specs.declared.messages.Holder.{Holder as Tag};
    ghost use Rattle.queue.specs.Blocks.{is_in_use, survived_block, IsFilled, IsShort, IsTooMuch, HasSlots, NeedBoth};
    ghost use Rattle.queue.specs.Line.{requeued};
    ghost use Rattle.queue.specs.Slots.{contents, somes, tally};

    /// Returns an empty block with `places` slots, for arrivals with the number `first` or later ones. Fails only if an
    /// allocation fails.
    pub(crate) fn new(alloc: Global, first: u64, places: usize) -> Result<Block, AllocError>
        ensures entries { IfOk result (λ block. block.entries ≡ []) }
        ensures room { IfOk result (λ block. block.room ≡ places) }
        ensures slots { IfOk result (λ block. block.slots ≡ places) }
    {
        let mut slots = Vec::new(alloc);
        let mut signs = Signs::empty(alloc);
        grow(&mut slots, &mut signs, places)?;
        Ok(Block {
            slots,
            signs,
            live: 0,
            first,
        })
    }

    /// The number of the earliest arrival that may be in this block.
    pub(crate) fn first(&self) -> u64 {
        self.first
    }

    /// Sets the number of the earliest arrival that may be in this block.
    pub(crate) fn begin(&mut self, first: u64)
        ensures { self.new ≡ self.old }
    {
        self.first = first;
    }

    /// Returns how many pushes need no allocation.
    pub(crate) fn room(&self) -> usize
        ensures { result ≡ self.now.room }
    {
        self.slots.capacity() - self.slots.len()
    }

    /// The number of messages.
    pub(crate) fn live(&self) -> usize
        ensures { result ≡ length self.now.entries }
    {
        self.live
    }

    /// Returns whether the slots suffice for the messages of this block and of `other`.
    pub(crate) fn fits(&self, other: &Block) -> bool
        ensures in_one { result ≡ true → length self.now.entries + length other.now.entries ≤ self.now.slots }
        ensures too_full { result ≡ false → NeedBoth self.now other.now }
    {
        other.live() <= self.slots.capacity() - self.live
    }

    /// Makes room for `more` messages if they fit into the slots that the block has or may have, and returns whether they do.
    /// Closes gaps if at least half of the used slots are empty, and grows if that is not enough. Fails only if an allocation fails.
    pub(crate) fn reserve(&mut self, more: usize) -> Result<bool, AllocError>
        // The frame, also after a failure: the messages stay, and the room never shrinks.
        ensures entries { self.new.entries ≡ self.old.entries }
        ensures kept { self.old.room ≤ self.new.room }
        // With `true` the room is there; `false` comes only if they are too much for a block, and a failure only if there was too little room.
        ensures room { IfOk result (λ fits. fits ≡ true → more ≤ self.new.room) }
        ensures fits { IfOk result (λ fits. fits ≡ false → IsTooMuch more self.old) }
        ensures full { OnErr result (self.old.room < more) }
        // The number of slots stays if it is enough already, and never grows past 1,024.
        ensures same { HasSlots more self.old → self.new.slots ≡ self.old.slots }
        ensures slots { self.old.slots ≤ 1024 → self.new.slots ≤ 1024 }
    {
        if more <= self.slots.capacity() - self.slots.len() {
            return Ok(true);
        }
        close_many_gaps(&mut self.slots, &mut self.signs, self.live);
        match growth(self.slots.len(), self.slots.capacity(), more) {
            None => Ok(false),
            Some(grown) => {
                grow(&mut self.slots, &mut self.signs, grown)?;
                Ok(true)
            }
        }
    }

    /// Appends `message` as ready, with the arrival number `arrival`. There is room for it.
    pub(crate) fn push(&mut self, arrival: u64, message: Message)
        requires { 0 < self.old.room }
        ensures entries { self.new.entries ≡ self.old.entries ++ record { message = message; mark = Ready } ∷ [] }
        ensures room { self.new.room + 1 ≡ self.old.room }
        ensures slots { self.new.slots ≡ self.old.slots }
    {
        self.signs.set_ready(self.slots.len());
        append(
            &mut self.slots,
            arrival,
            Entry {
                message,
                mark: Mark::Ready,
            },
        );
        self.live += 1;
    }

    /// Appends the entries of `others`. There are slots for them.
    pub(crate) fn take_in(&mut self, others: Vec<Slot>)
        requires fits { length self.old.entries + length (somes (contents others.items)) ≤ self.old.slots }
        requires distinct { (holder : Tag) → tally (is_held_as holder) (self.old.entries ++ somes (contents others.items)) ≤ 1 }
        ensures entries { self.new.entries ≡ self.old.entries ++ somes (contents others.items) }
        ensures slots { self.new.slots ≡ self.old.slots }
    {
        self.live += move_in(&mut self.slots, &mut self.signs, others);
    }

    /// Returns the slots, in the order of arrival.
    pub(crate) fn into_slots(self) -> Vec<Slot>
        ensures { somes (contents result.items) ≡ self.entries }
    {
        self.slots
    }

    /// Returns whether the block has messages, or room for some.
    pub(crate) fn is_in_use(&self) -> bool
        ensures { result ≡ is_in_use self.now }
    {
        self.live > 0 || self.room() > 0
    }

    /// Returns whether the block has all 1,024 slots.
    pub(crate) fn is_whole(&self) -> bool
        ensures { result ≡ false → IsShort self.now }
    {
        self.slots.capacity() >= BLOCK_SLOTS
    }

    /// Frees the slots and their bits if the block has no message. The slots are freed last: the system takes memory back when a large
    /// piece is freed.
    pub(crate) fn give_back(&mut self, alloc: Global)
        ensures entries { self.new.entries ≡ self.old.entries }
        ensures slots { self.new.slots ≤ self.old.slots }
        ensures filled { IsFilled self.new }
    {
        if self.live == 0 {
            self.signs = Signs::empty(alloc);
            self.slots = Vec::new(alloc);
        }
    }

    /// Returns whether a message is ready.
    pub(crate) fn has_ready(&self) -> bool
        ensures { result ≡ is_some (find is_ready self.now.entries) }
    {
        match self.signs.first_ready() {
            Some(_) => true,
            None => false,
        }
    }

    /// Returns the first ready message, if any.
    pub(crate) fn first_ready(&self) -> Option<&Entry>
        ensures { option_map (λ e. e.now) result ≡ find is_ready self.now.entries }
    {
        match self.signs.first_ready() {
            Some(place) => entry_at(&self.slots, place),
            None => None,
        }
    }

    /// Marks the first ready message, if any, as held by `holder`, which holds no message yet. Returns the number of its arrival.
    pub(crate) fn hold(&mut self, holder: Holder) -> Option<u64>
        requires { find (is_held_as holder) self.old.entries ≡ None }
        ensures reported { is_some result ≡ is_some (find is_ready self.old.entries) }
        ensures entries { self.new.entries ≡ change_first is_ready (held_as holder) self.old.entries }
        ensures room { self.new.room ≡ self.old.room }
        ensures slots { self.new.slots ≡ self.old.slots }
    {
        match self.signs.first_ready() {
            None => None,
            Some(place) => {
                self.signs.clear(place);
                Some(hold_at(&mut self.slots, place, holder))
            }
        }
    }

    /// Removes and returns the first ready message, if any.
    pub(crate) fn take_first(&mut self) -> Option<Entry>
        ensures taken { result ≡ find is_ready self.old.entries }
        ensures entries { self.new.entries ≡ without_first is_ready self.old.entries }
        ensures room { self.new.room ≡ self.old.room }
        ensures slots { self.new.slots ≡ self.old.slots }
    {
        match self.signs.first_ready() {
            None => None,
            Some(place) => {
                self.signs.clear(place);
                self.live -= 1;
                take_at(&mut self.slots, place)
            }
        }
    }

    /// Returns the index of the slot whose message is held by `holder`. Searches all slots only if `arrival` is not its arrival number.
    pub(crate) fn slot_held(&self, holder: &Holder, arrival: u64) -> Option<usize>
        ensures { is_some result ≡ is_some (find (is_held_as holder.now) self.now.entries) }
    {
        index_held(&self.slots, holder, index_of_arrival(&self.slots, arrival))
    }

    /// Returns the message held by `holder`. Takes constant time if it is in the slot `near`; so do `release` and `remove`.
    pub(crate) fn held(&self, holder: &Holder, near: usize) -> Option<&Entry>
        ensures { option_map (λ e. e.now) result ≡ find (is_held_as holder.now) self.now.entries }
    {
        match index_held(&self.slots, holder, near) {
            Some(place) => entry_at(&self.slots, place),
            None => None,
        }
    }

    /// Makes the message held by `holder` ready again, in its place and marked as redelivered. Returns whether there is one.
    pub(crate) fn release(&mut self, holder: &Holder, near: usize) -> bool
        ensures reported { result ≡ is_some (find (is_held_as holder.now) self.old.entries) }
        ensures entries { self.new.entries ≡ requeued (is_under holder.now) self.old.entries }
        ensures room { self.new.room ≡ self.old.room }
        ensures slots { self.new.slots ≡ self.old.slots }
    {
        match index_held(&self.slots, holder, near) {
            None => false,
            Some(place) => {
                free_at(&mut self.slots, place);
                self.signs.set_ready(place);
                true
            }
        }
    }

    /// Removes and returns the message held by `holder`, if any.
    pub(crate) fn remove(&mut self, holder: &Holder, near: usize) -> Option<Entry>
        ensures taken { result ≡ find (is_held_as holder.now) self.old.entries }
        ensures entries { self.new.entries ≡ filter (λ e. not (is_held_as holder.now e)) self.old.entries }
        ensures room { self.new.room ≡ self.old.room }
        ensures slots { self.new.slots ≡ self.old.slots }
    {
        match index_held(&self.slots, holder, near) {
            None => None,
            Some(place) => {
                self.signs.clear(place);
                self.live -= 1;
                take_at(&mut self.slots, place)
            }
        }
    }

    /// Marks each message, ready or held, as one that a reload found here.
    pub(crate) fn mark_reloaded(&mut self)
        ensures { self.new ≡ survived_block self.old }
    {
        mark_reloaded_in(&mut self.slots);
    }

    /// Returns the slots, in the order of arrival.
    pub(crate) fn slots(&self) -> &[Slot]
        ensures { somes (contents result.now) ≡ self.now.entries }
    {
        &self.slots
    }
}
