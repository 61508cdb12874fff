//! The calls of a queue over a list of blocks.

ghost use Rattle.std.specs.Prelude.{◌≡◌, ◌+◌, ◌*◌, ◌<◌, ◌≤◌, ◌++◌, ◌∷◌, [], ℕ, true, false, length, map, find, is_some, vec_len, vec_capacity};
ghost use Rattle.std.specs.Prelude.{option_map, max, IfSome, IfNone, IfOk, OnOk, OnErr, None};
ghost use Rattle.model.specs.Broker.{is_ready, body_bytes};
ghost use Rattle.model.specs.Entries.{is_under, is_held_as, held_as, change_first, without_first};
ghost use Rattle.model.specs.declared.messages.Mark.TheVariants.{Ready};
ghost use Rattle.marks.specs.Sets.{bit_of};
ghost use Rattle.queue.specs.Line.{requeued};
ghost use Rattle.queue.specs.Slots.{num, tally, BitTurned, IsNoLonger, KeepsSize};
ghost use Rattle.queue.specs.Blocks.{parts, part_at, part_changed, without_held, joined, last_room, some_pass, size_of, survived_block, AreBlocksSigned};
ghost use Rattle.queue.specs.Blocks.{AreFilled, AreFilledBut, AreMarked, AreWhole, HaveGrown, HoldAsMany, KeepBounds, KeepBoundsBut, StayFilled, IsSpent};
ghost use Rattle.queue.specs.Blocks.{IsNotSpent, IsHeld, NeedBothAt, FitInOne, IsPair, AreNeeded, AreJoined, AreHeldOnce, LastFits, LastHasTooMuch};
ghost use Rattle.queue.specs.Blocks.{LastHasSlots, LastIsShort, KeepSlots, block_at};

use crate::block::{BLOCK_SLOTS, Block};
use crate::signs::Signs;
use model::{Entry, Holder, Message};
use std::alloc::{AllocError, Global};

/// Returns the index of the slot, in the block at index `place`, whose message is held by `holder`, if there is one.
fn slot_held_at(blocks: &[Block], place: usize, holder: &Holder, arrival: u64) -> Option<usize>
    ensures { is_some result ≡ some_pass (is_held_as holder.now) (part_at blocks.now place) }
{
    if place >= blocks.len() {
        return None;
    }
    blocks[place].slot_held(holder, arrival)
}

/// Returns the index of the last block in which the arrival number `arrival` may be.
fn block_of_arrival(blocks: &[Block], arrival: u64) -> usize {
    blocks
        .partition_point(|block| block.first() <= arrival)
        .saturating_sub(1)
}

/// The place of a held message.
#[derive(Drop)]
pub(crate) struct Spot {
    /// The index of its block.
    pub(crate) block: usize,
    /// The index of its slot in the block.
    pub(crate) slot: usize,
}

/// Searches the blocks for the message held by `holder`.
fn search(blocks: &[Block], holder: &Holder, arrival: u64) -> Option<Spot>
    ensures some { IfSome result (λ s. some_pass (is_held_as holder.now) (part_at blocks.now s.block) ≡ true) }
    ensures none { IfNone result ((k : ℕ) → find (is_held_as holder.now) (part_at blocks.now k) ≡ None) }
{
    for block in 0..blocks.len() {
        if let Some(slot) = slot_held_at(blocks, block, holder, arrival) {
            return Some(Spot { block, slot });
        }
    }
    None
}

/// Marks the first ready message of the block at `index` as held by `holder`, which holds no message there yet. Returns the
/// number of its arrival.
pub(crate) fn hold_at(blocks: &mut Vec<Block>, index: usize, holder: Holder) -> Option<u64>
    requires within { index < vec_len blocks.old }
    requires distinct { find (is_held_as holder) (part_at blocks.old.items index) ≡ None }
    // A number is returned exactly if a message is ready, and only the first that is ready changes.
    ensures reported { is_some result ≡ some_pass is_ready (part_at blocks.old.items index) }
    ensures parts { parts blocks.new.items ≡ part_changed (change_first is_ready (held_as holder)) blocks.old.items index }
    ensures bounds { KeepBounds blocks.old blocks.new }
{
    blocks[index].hold(holder)
}

/// Makes the message of the block at `index` that is held by `holder` ready again, and marks it as redelivered. Takes constant time if it
/// is in the slot `near`; so do the other functions with a `near`.
pub(crate) fn free_at(blocks: &mut Vec<Block>, index: usize, holder: &Holder, near: usize)
    requires { index < vec_len blocks.old }
    ensures parts { parts blocks.new.items ≡ part_changed (requeued (is_under holder.now)) blocks.old.items index }
    ensures bounds { KeepBounds blocks.old blocks.new }
{
    blocks[index].release(holder, near);
}

/// Removes and returns the first ready message of the block at `index`.
pub(crate) fn take_at(blocks: &mut Vec<Block>, index: usize) -> Option<Entry>
    requires within { index < vec_len blocks.old }
    requires some { some_pass is_ready (part_at blocks.old.items index) ≡ true }
    ensures taken { result ≡ find is_ready (part_at blocks.old.items index) }
    ensures parts { parts blocks.new.items ≡ part_changed (without_first is_ready) blocks.old.items index }
    // The bounds on slots hold but for this block, which [`settle`] may free or join.
    ensures bounds { KeepBoundsBut index blocks.old blocks.new }
{
    blocks[index].take_first()
}

/// Removes and returns the message of the block at `index` that is held by `holder`.
pub(crate) fn remove_at(
    blocks: &mut Vec<Block>,
    index: usize,
    holder: &Holder,
    near: usize,
) -> Option<Entry>
    // What the caller knows: this block has exactly one message of the holder.
    requires within { index < vec_len blocks.old }
    requires some { some_pass (is_held_as holder.now) (part_at blocks.old.items index) ≡ true }
    requires once { tally (is_held_as holder.now) (part_at blocks.old.items index) ≤ 1 }
    ensures taken { result ≡ find (is_held_as holder.now) (part_at blocks.old.items index) }
    ensures parts { parts blocks.new.items ≡ part_changed (without_held holder.now) blocks.old.items index }
    // The bounds on slots hold but for this block, which [`settle`] may free or join.
    ensures bounds { KeepBoundsBut index blocks.old blocks.new }
{
    blocks[index].remove(holder, near)
}

/// Frees the last block if it has 1,024 slots and no message, and no room is promised.
pub(crate) fn give_back_spare(blocks: &mut Vec<Block>, room: usize, alloc: Global)
    // The frame: messages and the list's size stay, so does the last block's room if room is promised, and the bounds on slots still hold.
    ensures parts { parts blocks.new.items ≡ parts blocks.old.items }
    ensures room { 0 < room → last_room blocks.new.items ≡ last_room blocks.old.items }
    ensures size { KeepsSize blocks.old blocks.new }
    ensures filled { StayFilled blocks.old.items blocks.new.items }
    // If no room is promised, the last block now has a message or fewer than 1,024 slots.
    ensures spare { room ≡ 0 → LastIsShort blocks.new.items }
{
    if room > 0 || blocks.is_empty() {
        return;
    }
    let last = blocks.len() - 1;
    if blocks[last].is_whole() {
        blocks[last].give_back(alloc);
    }
}

/// Marks each message of the blocks as one that a reload found here.
pub(crate) fn mark_reloaded_in(blocks: &mut [Block])
    ensures { blocks.new ≡ map survived_block blocks.old }
{
    for block in blocks.iter_mut() {
        block.mark_reloaded();
    }
}

/// Returns how many pushes into the last block need no allocation.
fn room_of(blocks: &[Block]) -> usize
    ensures { result ≡ last_room blocks.now }
{
    if blocks.is_empty() {
        return 0;
    }
    blocks[blocks.len() - 1].room()
}

/// Makes room for `more` messages in the last block if they fit into it, and returns whether they do. Fails only if an allocation
/// fails.
fn reserve_last(blocks: &mut Vec<Block>, more: usize) -> Result<bool, AllocError>
    // Also after a failure, messages and the list's size stay, and the room never shrinks; with `true` it suffices.
    ensures parts { parts blocks.new.items ≡ parts blocks.old.items }
    ensures kept { last_room blocks.old.items ≤ last_room blocks.new.items }
    ensures room { IfOk result (λ fits. fits ≡ true → more ≤ last_room blocks.new.items) }
    ensures size { KeepsSize blocks.old blocks.new }
    // `false` comes only if they are too much for the block, and a failure only if there was too little room.
    ensures fits { IfOk result (λ fits. fits ≡ false → LastHasTooMuch more blocks.old.items) }
    ensures full { OnErr result (last_room blocks.old.items < more) }
    // The slots stay if there are enough, and within their bounds.
    ensures same { LastHasSlots more blocks.old.items → KeepSlots blocks.old.items blocks.new.items }
    ensures filled { AreFilled 1024 blocks.old.items → AreFilled 1024 blocks.new.items }
{
    if blocks.is_empty() {
        return Ok(false);
    }
    let last = blocks.len() - 1;
    blocks[last].reserve(more)
}

/// Appends `message` to the last block as ready, with the arrival number `arrival`. Returns the index of the block.
pub(crate) fn push_last(blocks: &mut Vec<Block>, arrival: u64, message: Message) -> usize
    requires { 0 < last_room blocks.old.items }
    // The message is the last entry of the last block, which has room for one less.
    ensures place { result + 1 ≡ vec_len blocks.old }
    ensures parts { parts blocks.new.items ≡ part_changed (λ es. es ++ record { message = message; mark = Ready } ∷ []) blocks.old.items result }
    ensures room { last_room blocks.new.items + 1 ≡ last_room blocks.old.items }
    // The frame: the list's size stays, and the bounds on slots still hold.
    ensures size { KeepsSize blocks.old blocks.new }
    ensures filled { StayFilled blocks.old.items blocks.new.items }
    ensures short { LastIsShort blocks.new.items }
{
    let last = blocks.len() - 1;
    blocks[last].push(arrival, message);
    last
}

/// Returns whether the block at index `place` has a ready message.
fn has_ready_at(blocks: &[Block], place: usize) -> bool
    ensures { result ≡ some_pass is_ready (part_at blocks.now place) }
{
    if place >= blocks.len() {
        return false;
    }
    blocks[place].has_ready()
}

/// Sets the bit of the block at `index` to whether it has a ready message.
pub(crate) fn sign(blocks: &[Block], signs: &mut Signs, index: usize)
    requires { index < signs.old.places }
    ensures { BitTurned signs.old signs.new index (num (some_pass is_ready (part_at blocks.now index))) }
{
    if has_ready_at(blocks, index) {
        signs.set_ready(index);
    } else {
        signs.clear(index);
    }
}

/// Sets each bit below `places` to whether its block has a ready message.
fn sign_all(blocks: &[Block], signs: &mut Signs, places: usize)
    requires within { places ≤ signs.old.places }
    requires blocks { length blocks.now ≤ places }
    requires ready { (k : ℕ) → places ≤ k → bit_of signs.old.ready k ≡ 0 }
    ensures signed { AreBlocksSigned (parts blocks.now) signs.new }
    ensures places { signs.new.places ≡ signs.old.places }
{
    for place in 0..places {
        sign(blocks, signs, place);
    }
}

/// Returns whether neither the block at index `place` nor the one before it has a message.
fn is_spent(blocks: &[Block], place: usize) -> bool
    requires { place < length blocks.now }
    ensures spent { result ≡ true → IsSpent place blocks.now }
    ensures has_messages { result ≡ false → IsNotSpent place blocks.now }
{
    blocks[place].live() == 0 && (place == 0 || blocks[place - 1].live() == 0)
}

/// Frees the block at index `place`, which isn't the last, if neither it nor the one before it has a message.
fn give_back_at(blocks: &mut Vec<Block>, place: usize, alloc: Global)
    requires within { place + 1 < vec_len blocks.old }
    requires spent { IsSpent place blocks.old.items }
    // Only slots are freed: the block stays in the list, empty, and the bounds on slots hold again.
    ensures parts { parts blocks.new.items ≡ parts blocks.old.items }
    ensures room { last_room blocks.new.items ≡ last_room blocks.old.items }
    ensures size { KeepsSize blocks.old blocks.new }
    ensures filled { (most : ℕ) → AreFilledBut place most blocks.old.items → AreFilled most blocks.new.items }
{
    blocks[place].give_back(alloc);
}

/// Returns whether the block at index `place` has messages, and slots for those of the next, too.
fn fits_at(blocks: &[Block], place: usize) -> bool
    requires { place + 1 < length blocks.now }
    ensures in_one { result ≡ true → FitInOne (block_at blocks.now place) (block_at blocks.now (place + 1)) }
    ensures too_full { result ≡ false → IsHeld (block_at blocks.now place) → NeedBothAt blocks.now place }
{
    blocks[place].live() > 0 && blocks[place].fits(&blocks[place + 1])
}

/// Returns the index of a block whose slots suffice for its own messages and the next block's: the block before index `place`, or the
/// block at `place` unless the next is the last.
fn pair_at(blocks: &[Block], place: usize) -> Option<usize>
    requires { place + 1 < length blocks.now }
    ensures some { IfSome result (λ first. IsPair place first blocks.now) }
    ensures none { IfNone result (AreNeeded place blocks.now) }
{
    if place > 0 && fits_at(blocks, place - 1) {
        return Some(place - 1);
    }
    if place + 2 < blocks.len() && fits_at(blocks, place) {
        return Some(place);
    }
    None
}

/// Moves the messages of the next block into the block at index `place`, which has slots for them, and removes the next.
fn join_at(blocks: &mut Vec<Block>, place: usize)
    // What the caller knows: the first block has messages and slots for those of both, and no holder has two messages.
    requires within { place + 1 < vec_len blocks.old }
    requires fit { FitInOne (block_at blocks.old.items place) (block_at blocks.old.items (place + 1)) }
    requires distinct { AreHeldOnce blocks.old.items }
    // The list is shorter by one block, and all messages stay in their order; the last block's room stays unless that block was joined.
    ensures joined { AreJoined place blocks.old.items blocks.new.items }
    ensures entries { joined (parts blocks.new.items) ≡ joined (parts blocks.old.items) }
    ensures room { place + 2 < vec_len blocks.old → last_room blocks.new.items ≡ last_room blocks.old.items }
    ensures len { vec_len blocks.new + 1 ≡ vec_len blocks.old }
    ensures capacity { vec_capacity blocks.new ≡ vec_capacity blocks.old }
{
    let next = blocks.remove(place + 1);
    blocks[place].take_in(next.into_slots());
}

/// Joins the block at index `place` with a neighbour if the first of the two has slots for the messages of both. A message was removed
/// from the block before.
fn join_near(blocks: &mut Vec<Block>, signs: &mut Signs, place: usize)
    // What the caller knows: it isn't the last block, it or the one before has messages, and no holder has two messages.
    requires within { place + 1 < vec_len blocks.old }
    requires left { IsNotSpent place blocks.old.items }
    requires marked { AreMarked blocks.old signs.old }
    requires distinct { AreHeldOnce blocks.old.items }
    // The list is no longer than before.
    ensures marked { AreMarked blocks.new signs.new }
    ensures len { vec_len blocks.new ≤ vec_len blocks.old }
    ensures signs { signs.new.places ≡ signs.old.places }
    // All messages stay in their order, so does the last block's room, and the bounds on slots hold again.
    ensures entries { joined (parts blocks.new.items) ≡ joined (parts blocks.old.items) }
    ensures room { last_room blocks.new.items ≡ last_room blocks.old.items }
    ensures filled { (most : ℕ) → AreFilledBut place most blocks.old.items → AreFilled most blocks.new.items }
{
    match pair_at(blocks, place) {
        None => {}
        Some(first) => {
            let places = blocks.len();
            join_at(blocks, first);
            sign_all(blocks, signs, places);
        }
    }
}

/// Keeps the number of slots low after a message was removed from the block at `index`: frees the block if neither it nor the one
/// before it has a message, otherwise joins it with a neighbour if the two fit into one. The last block stays as it is.
pub(crate) fn settle(blocks: &mut Vec<Block>, signs: &mut Signs, index: usize, alloc: Global)
    requires within { index < vec_len blocks.old }
    requires marked { AreMarked blocks.old signs.old }
    requires distinct { AreHeldOnce blocks.old.items }
    // The list is no longer than before.
    ensures marked { AreMarked blocks.new signs.new }
    ensures len { vec_len blocks.new ≤ vec_len blocks.old }
    ensures signs { signs.new.places ≡ signs.old.places }
    // All messages stay in their order, so does the last block's room, and the bounds on slots hold again.
    ensures entries { joined (parts blocks.new.items) ≡ joined (parts blocks.old.items) }
    ensures room { last_room blocks.new.items ≡ last_room blocks.old.items }
    ensures filled { (most : ℕ) → AreFilledBut index most blocks.old.items → AreFilled most blocks.new.items }
{
    if index + 1 >= blocks.len() {
        return;
    }
    if is_spent(blocks, index) {
        give_back_at(blocks, index, alloc);
    } else {
        join_near(blocks, signs, index);
    }
}

/// Removes the blocks that have neither messages nor room, such as freed ones.
fn drop_given_back(blocks: &mut Vec<Block>)
    ensures size { IsNoLonger blocks.old blocks.new }
    ensures grown { HaveGrown blocks.old.items blocks.new.items }
{
    blocks.retain(|block| block.is_in_use());
}

/// Makes room in the list for `more` blocks, with a bit for each. If the list has to grow, freed blocks are removed first, and the list
/// at least doubles. Fails only if an allocation fails.
fn make_places(blocks: &mut Vec<Block>, signs: &mut Signs, more: usize) -> Result<(), AllocError>
    requires marked { AreMarked blocks.old signs.old }
    // The frame, also after a failure.
    ensures marked { AreMarked blocks.new signs.new }
    ensures grown { HaveGrown blocks.old.items blocks.new.items }
    // On success there are bits for `more` further blocks, and never for fewer than before.
    ensures room { OnOk result (vec_len blocks.new + more ≤ signs.new.places) }
    ensures held { HoldAsMany blocks.old signs.old blocks.new signs.new }
{
    let places = blocks.len();
    if more <= signs.places() - places {
        return Ok(());
    }
    drop_given_back(blocks);
    sign_all(blocks, signs, places);
    blocks.reserve_exact(more.max(blocks.len() + 1))?;
    signs.grow(blocks.capacity())
}

/// Appends `block`, which is empty. The block that was the last is then freed, or joined with the one before it, as [`settle`] does.
fn append_block(blocks: &mut Vec<Block>, signs: &mut Signs, block: Block, alloc: Global)
    // What the caller knows: there is a bit for the new block, and no holder has two messages.
    requires marked { AreMarked blocks.old signs.old }
    requires distinct { AreHeldOnce blocks.old.items }
    requires held { vec_len blocks.old < signs.old.places }
    requires empty { block.entries ≡ [] }
    // All messages stay in their order, and the last block has the room of `block`.
    ensures marked { AreMarked blocks.new signs.new }
    ensures entries { joined (parts blocks.new.items) ≡ joined (parts blocks.old.items) }
    ensures room { last_room blocks.new.items ≡ block.room }
    // The list is longer by one block at most, with as many bits; the bounds on slots still hold if `block` is within them.
    ensures len { vec_len blocks.new ≤ vec_len blocks.old + 1 }
    ensures signs { signs.new.places ≡ signs.old.places }
    ensures filled { (most : ℕ) → block.slots ≤ most → AreFilled most blocks.old.items → AreFilled most blocks.new.items }
{
    let before = blocks.len().saturating_sub(1);
    blocks.push_reserved(block);
    settle(blocks, signs, before, alloc);
}

/// Returns how many spare blocks it takes to have room for `room` messages, of which the last block has room for `last`.
fn spares_for(room: usize, last: usize) -> usize
    ensures enough { room ≤ last + result * 1024 }
    ensures few { 0 < result → last + result * 1024 < room + 1024 }
{
    let missing = room.saturating_sub(last);
    let whole = missing / BLOCK_SLOTS;
    if missing % BLOCK_SLOTS > 0 {
        whole + 1
    } else {
        whole
    }
}

/// Starts spare blocks of 1,024 slots until there are `count`. If an allocation fails, those that were started stay.
fn fill_spares(spares: &mut Vec<Block>, count: usize, alloc: Global) -> Result<(), AllocError>
    requires whole { AreWhole spares.old.items }
    ensures whole { AreWhole spares.new.items }
    ensures enough { OnOk result (count ≤ vec_len spares.new) }
    ensures least { vec_len spares.old ≤ vec_len spares.new }
    ensures most { vec_len spares.new ≤ max count (vec_len spares.old) }
{
    'filling: while spares.len() < count {
        let block = Block::new(alloc, 0, BLOCK_SLOTS)?;
        if spares.push(block).is_err() {
            return Err(AllocError);
        }
    }
    Ok(())
}

/// Frees the spare blocks that the promised room doesn't need.
fn drop_spares(blocks: &[Block], spares: &mut Vec<Block>, room: usize)
    requires there { room ≤ last_room blocks.now + vec_len spares.old * 1024 }
    requires whole { AreWhole spares.old.items }
    // The promised room is still there, and with one spare block less it wouldn't be; none is added.
    ensures there { room ≤ last_room blocks.now + vec_len spares.new * 1024 }
    ensures needed { 0 < vec_len spares.new → last_room blocks.now + vec_len spares.new * 1024 < room + 1024 }
    ensures whole { AreWhole spares.new.items }
    ensures few { vec_len spares.new ≤ vec_len spares.old }
{
    spares.truncate(spares_for(room, room_of(blocks)));
}

/// A list of blocks, with a bit for each that says whether it has a ready message, and spare blocks.
#[derive(Drop)]
pub(crate) struct Chain {
    pub(crate) alloc: Global,
    pub(crate) blocks: Vec<Block>,
    /// Spare blocks, for promised room that the last of `blocks` doesn't have.
    pub(crate) spares: Vec<Block>,
    pub(crate) signs: Signs,
}

impl Chain {
    ghost use Rattle.std.specs.Prelude.{◌≡◌, ◌+◌, ◌*◌, ◌<◌, ◌≤◌, ℕ, true, find, option_map, vec_len, IfNone, IfSome, None, OnErr, OnOk};
    ghost use Rattle.model.specs.Broker.{is_ready, body_bytes};
    ghost use Rattle.model.specs.Entries.{is_held_as};
    ghost use Rattle.queue.specs.Blocks.{parts, part_at, joined, last_room, size_of, some_pass, AreFilled, AreHeldOnce, AreKept, HasRoom, HaveGrown};
    ghost use Rattle.queue.specs.Blocks.{KeepSlots, LastFits, LastHasSlots, StayFilled};

    /// Returns the first ready message of the block at `index`.
    pub(crate) fn first_ready_at(&self, index: usize) -> Option<&Entry>
        ensures { option_map (λ e. e.now) result ≡ find is_ready (part_at self.now.blocks.items index) }
    {
        if index >= self.blocks.len() {
            return None;
        }
        self.blocks[index].first_ready()
    }

    /// Returns the length in bytes of the body of the first ready message of the block at `index`, or 0 if none is ready.
    pub(crate) fn ready_bytes_at(&self, index: usize) -> usize
        ensures { result ≡ size_of body_bytes (find is_ready (part_at self.now.blocks.items index)) }
    {
        match self.first_ready_at(index) {
            Some(entry) => entry.message.content().body.len(),
            None => 0,
        }
    }

    /// Returns the place of the message held by `holder`. Searches all blocks only if `arrival` is not the number of its arrival.
    pub(crate) fn spot_held(&self, holder: &Holder, arrival: u64) -> Option<Spot>
        ensures some { IfSome result (λ s. some_pass (is_held_as holder.now) (part_at self.now.blocks.items s.block) ≡ true) }
        ensures none { IfNone result ((k : ℕ) → find (is_held_as holder.now) (part_at self.now.blocks.items k) ≡ None) }
    {
        let block = block_of_arrival(&self.blocks, arrival);
        if let Some(slot) = slot_held_at(&self.blocks, block, holder, arrival) {
            return Some(Spot { block, slot });
        }
        search(&self.blocks, holder, arrival)
    }

    /// Returns the message of the block at `index` that is held by `holder`.
    pub(crate) fn held_at(&self, index: usize, holder: &Holder, near: usize) -> Option<&Entry>
        ensures { option_map (λ e. e.now) result ≡ find (is_held_as holder.now) (part_at self.now.blocks.items index) }
    {
        if index >= self.blocks.len() {
            return None;
        }
        self.blocks[index].held(holder, near)
    }

    /// Returns the length in bytes of the body of the message of the block at `index` that is held by `holder`, or 0 if there is none.
    pub(crate) fn held_bytes_at(&self, index: usize, holder: &Holder, near: usize) -> usize
        ensures { result ≡ size_of body_bytes (find (is_held_as holder.now) (part_at self.now.blocks.items index)) }
    {
        match self.held_at(index, holder, near) {
            Some(entry) => entry.message.content().body.len(),
            None => 0,
        }
    }

    /// If there is no block, appends one without slots, for arrivals with the number `first` or later ones, and makes room in the list for
    /// the spare blocks beside it. Fails only if an allocation fails.
    fn start_first(&mut self, first: u64) -> Result<(), AllocError>
        requires kept { AreKept self.old.blocks self.old.signs self.old.spares }
        requires distinct { AreHeldOnce self.old.blocks.items }
        // The frame, also after a failure.
        ensures kept { AreKept self.new.blocks self.new.signs self.new.spares }
        ensures grown { HaveGrown self.old.blocks.items self.new.blocks.items }
        ensures same { self.new.spares ≡ self.old.spares }
    {
        if !self.blocks.is_empty() {
            return Ok(());
        }
        make_places(&mut self.blocks, &mut self.signs, self.spares.len() + 1)?;
        let block = Block::new(self.alloc, first, 0)?;
        append_block(&mut self.blocks, &mut self.signs, block, self.alloc);
        Ok(())
    }

    /// Starts as many spare blocks as `more` messages need beside the room of the last block. Fails only if an allocation fails.
    fn add_spares(&mut self, more: usize) -> Result<(), AllocError>
        requires { AreKept self.old.blocks self.old.signs self.old.spares }
        // The frame, also after a failure; no spare block is lost.
        ensures kept { AreKept self.new.blocks self.new.signs self.new.spares }
        ensures grown { HaveGrown self.old.blocks.items self.new.blocks.items }
        ensures least { vec_len self.old.spares ≤ vec_len self.new.spares }
        // On success there is room for `more`.
        ensures room { OnOk result (more ≤ last_room self.new.blocks.items + vec_len self.new.spares * 1024) }
    {
        let count = spares_for(more, room_of(&self.blocks));
        make_places(&mut self.blocks, &mut self.signs, count)?;
        fill_spares(&mut self.spares, count, self.alloc)
    }

    /// Makes room for `more` messages: grows the last block while it has fewer than 1,024 slots, and starts spare blocks otherwise.
    fn grow_last(&mut self, more: usize) -> Result<(), AllocError>
        requires { AreKept self.old.blocks self.old.signs self.old.spares }
        // The frame, also after a failure; no spare block is lost.
        ensures kept { AreKept self.new.blocks self.new.signs self.new.spares }
        ensures grown { HaveGrown self.old.blocks.items self.new.blocks.items }
        ensures least { vec_len self.old.spares ≤ vec_len self.new.spares }
        // On success there is room for `more`.
        ensures room { OnOk result (more ≤ last_room self.new.blocks.items + vec_len self.new.spares * 1024) }
        // No spare block is started if the last block can have the messages, and no block gets more slots if it has enough.
        ensures few { LastFits more self.old.blocks.items → vec_len self.new.spares ≡ vec_len self.old.spares }
        ensures same { LastHasSlots more self.old.blocks.items → KeepSlots self.old.blocks.items self.new.blocks.items }
    {
        if reserve_last(&mut self.blocks, more)? {
            return Ok(());
        }
        self.add_spares(more)
    }

    /// Makes room for `more` messages unless there is enough. If there is no block, the first is started for arrivals with the number
    /// `first` or later ones. Fails only if an allocation fails.
    fn grow_room(&mut self, first: u64, more: usize) -> Result<(), AllocError>
        requires kept { AreKept self.old.blocks self.old.signs self.old.spares }
        requires distinct { AreHeldOnce self.old.blocks.items }
        // The frame, also after a failure; no spare block is lost.
        ensures kept { AreKept self.new.blocks self.new.signs self.new.spares }
        ensures grown { HaveGrown self.old.blocks.items self.new.blocks.items }
        ensures least { vec_len self.old.spares ≤ vec_len self.new.spares }
        // On success there is room for `more`.
        ensures room { OnOk result (more ≤ last_room self.new.blocks.items + vec_len self.new.spares * 1024) }
    {
        if more <= room_of(&self.blocks) {
            return Ok(());
        }
        self.start_first(first)?;
        self.grow_last(more)
    }

    /// Frees what the promised room doesn't need: spare blocks, and, if no room is promised, the 1,024 slots of an empty last block.
    pub(crate) fn keep_room(&mut self, room: usize)
        requires there { room ≤ last_room self.old.blocks.items + vec_len self.old.spares * 1024 }
        requires kept { AreKept self.old.blocks self.old.signs self.old.spares }
        // The frame: messages stay, and the bounds on slots still hold.
        ensures kept { AreKept self.new.blocks self.new.signs self.new.spares }
        ensures parts { parts self.new.blocks.items ≡ parts self.old.blocks.items }
        ensures filled { StayFilled self.old.blocks.items self.new.blocks.items }
        ensures room { HasRoom room self.new.blocks.items (vec_len self.new.spares) }
    {
        drop_spares(&self.blocks, &mut self.spares, room);
        give_back_spare(&mut self.blocks, room, self.alloc);
    }

    /// Raises the promised room from `room` to `more`, and frees spare blocks that this doesn't need. A first block is started for arrivals
    /// with the number `first` or later ones. Fails only if an allocation fails; there is still room for `room` messages then.
    pub(crate) fn make_room(
        &mut self,
        first: u64,
        room: usize,
        more: usize,
    ) -> Result<(), AllocError>
        requires kept { AreKept self.old.blocks self.old.signs self.old.spares }
        requires distinct { AreHeldOnce self.old.blocks.items }
        requires there { room ≤ last_room self.old.blocks.items + vec_len self.old.spares * 1024 }
        // The frame, also after a failure: all messages stay in their order, and the bounds on slots still hold.
        ensures kept { AreKept self.new.blocks self.new.signs self.new.spares }
        ensures entries { joined (parts self.new.blocks.items) ≡ joined (parts self.old.blocks.items) }
        ensures filled { AreFilled 1024 self.old.blocks.items → AreFilled 1024 self.new.blocks.items }
        ensures made { OnOk result (HasRoom more self.new.blocks.items (vec_len self.new.spares)) }
        ensures left { OnErr result (HasRoom room self.new.blocks.items (vec_len self.new.spares)) }
    {
        match self.grow_room(first, more) {
            Err(_) => {
                self.keep_room(room);
                Err(AllocError)
            }
            Ok(()) => {
                self.keep_room(more);
                Ok(())
            }
        }
    }

    /// Appends a spare block if the last block has no room. The new block is for arrivals with the number `first` or later ones.
    pub(crate) fn open_spare(&mut self, first: u64)
        requires kept { AreKept self.old.blocks self.old.signs self.old.spares }
        requires distinct { AreHeldOnce self.old.blocks.items }
        requires room { 0 < last_room self.old.blocks.items + vec_len self.old.spares * 1024 }
        // The frame: all messages stay in their order, and the bounds on slots still hold.
        ensures kept { AreKept self.new.blocks self.new.signs self.new.spares }
        ensures entries { joined (parts self.new.blocks.items) ≡ joined (parts self.old.blocks.items) }
        ensures filled { AreFilled 1024 self.old.blocks.items → AreFilled 1024 self.new.blocks.items }
        // The last block has room; in all there is as much as before, for a block comes from the spare ones.
        ensures room { 0 < last_room self.new.blocks.items }
        ensures sum { last_room self.new.blocks.items + vec_len self.new.spares * 1024 ≡ last_room self.old.blocks.items + vec_len self.old.spares * 1024 }
        ensures few { vec_len self.new.spares ≤ vec_len self.old.spares }
    {
        if room_of(&self.blocks) > 0 {
            return;
        }
        if let Some(spare) = self.spares.pop() {
            let mut block = spare;
            block.begin(first);
            append_block(&mut self.blocks, &mut self.signs, block, self.alloc);
        }
    }
}
