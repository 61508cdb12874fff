//! Slots in the order of arrival, and which of them are ready.

ghost use Rattle.std.specs.Prelude.{◌≡◌, ◌+◌, ◌*◌, ◌<◌, ◌≤◌, ◌++◌, ◌∷◌, [], ℕ, false, true, length, map, vec_len, vec_capacity, slice_set};
ghost use Rattle.std.specs.Prelude.{option_map, IfSome, IfNone, Some, None};
ghost use Rattle.model.specs.Broker.{is_ready};
ghost use Rattle.model.specs.Entries.{is_held_as, held_as, freed_now};
ghost use Rattle.model.specs.Reloading.{survived_now};
ghost use Rattle.marks.specs.Sets.{bit_of};
ghost use Rattle.queue.specs.Slots.{contents, somes, slot_has, slot_at, slot_changed, changed, num, AreSigned, BitTurned, IsNoLonger, KeepsSize};

use crate::entries::{free, hold, is_free, is_held_under, mark_survived};
use crate::signs::Signs;
use model::{Entry, Holder};

/// A slot of a block: the number of an arrival, and the entry that arrived, until it is removed.
#[derive(Drop)]
pub(crate) struct Slot {
    pub(crate) arrival: u64,
    pub(crate) entry: Option<Entry>,
}

/// Makes the entry, if any, ready again, and marks it as redelivered.
fn free_here(entry: &mut Option<Entry>)
    ensures { entry.new ≡ changed freed_now entry.old }
{
    if let Some(entry) = entry {
        free(entry);
    }
}

/// Marks the entry, if any, as held by `holder`.
fn hold_here(entry: &mut Option<Entry>, holder: Holder)
    ensures { entry.new ≡ changed (held_as holder) entry.old }
{
    if let Some(entry) = entry {
        hold(entry, holder);
    }
}

/// Marks the entry, if any, as one that a reload found here.
fn mark_survived_here(entry: &mut Option<Entry>)
    ensures { entry.new ≡ changed survived_now entry.old }
{
    if let Some(entry) = entry {
        mark_survived(entry);
    }
}

/// Returns the entry at `index`, if the slot is not empty.
pub(crate) fn entry_at(slots: &[Slot], index: usize) -> Option<&Entry>
    ensures { option_map (λ e. e.now) result ≡ slot_at slots.now index }
{
    if index >= slots.len() {
        return None;
    }
    slots[index].entry.as_ref()
}

/// Returns whether the entry at index `place` is held by `holder`.
fn is_held_at(slots: &[Slot], place: usize, holder: &Holder) -> bool
    ensures { result ≡ slot_has (is_held_as holder.now) (slot_at slots.now place) }
{
    match entry_at(slots, place) {
        Some(entry) => is_held_under(entry, holder),
        None => false,
    }
}

/// Returns the number of the arrival at index `place`.
fn arrival_at(slots: &[Slot], place: usize) -> u64
    requires { place < length slots.now }
{
    slots[place].arrival
}

/// Returns the index of the first arrival with the number `arrival` or a later one.
pub(crate) fn index_of_arrival(slots: &[Slot], arrival: u64) -> usize {
    slots.partition_point(|slot| slot.arrival < arrival)
}

/// Returns the first index of an entry held by `holder`, if any.
fn search(slots: &[Slot], holder: &Holder) -> Option<usize>
    ensures some { IfSome result (λ i. slot_has (is_held_as holder.now) (slot_at slots.now i) ≡ true) }
    ensures none { IfNone result ((k : ℕ) → slot_has (is_held_as holder.now) (slot_at slots.now k) ≡ false) }
{
    for place in 0..slots.len() {
        if is_held_at(slots, place, holder) {
            return Some(place);
        }
    }
    None
}

/// Returns the index of the entry held by `holder`, if any. Takes constant time if the entry is at index `near`.
pub(crate) fn index_held(slots: &[Slot], holder: &Holder, near: usize) -> Option<usize>
    ensures some { IfSome result (λ i. slot_has (is_held_as holder.now) (slot_at slots.now i) ≡ true) }
    ensures none { IfNone result ((k : ℕ) → slot_has (is_held_as holder.now) (slot_at slots.now k) ≡ false) }
{
    if is_held_at(slots, near, holder) {
        return Some(near);
    }
    search(slots, holder)
}

/// Marks the entry at `index` as held by `holder`. Returns the number of its arrival.
pub(crate) fn hold_at(slots: &mut Vec<Slot>, index: usize, holder: Holder) -> u64
    requires { index < vec_len slots.old }
    ensures contents { contents slots.new.items ≡ slot_changed (held_as holder) slots.old.items index }
    ensures size { KeepsSize slots.old slots.new }
{
    hold_here(&mut slots[index].entry, holder);
    arrival_at(slots, index)
}

/// Makes the entry at `index`, if any, ready again, and marks it as redelivered.
pub(crate) fn free_at(slots: &mut Vec<Slot>, index: usize)
    requires { index < vec_len slots.old }
    ensures contents { contents slots.new.items ≡ slot_changed freed_now slots.old.items index }
    ensures size { KeepsSize slots.old slots.new }
{
    free_here(&mut slots[index].entry);
}

/// Marks each entry as one that a reload found here.
pub(crate) fn mark_reloaded_in(slots: &mut [Slot])
    ensures { contents slots.new ≡ map (changed survived_now) (contents slots.old) }
{
    for slot in slots.iter_mut() {
        mark_survived_here(&mut slot.entry);
    }
}

/// Empties the slot at `index`, and returns its entry.
pub(crate) fn take_at(slots: &mut Vec<Slot>, index: usize) -> Option<Entry>
    requires { index < vec_len slots.old }
    ensures taken { result ≡ slot_at slots.old.items index }
    ensures contents { contents slots.new.items ≡ slice_set (contents slots.old.items) index None }
    ensures size { KeepsSize slots.old slots.new }
{
    slots[index].entry.take()
}

/// Appends a slot with `entry`.
pub(crate) fn append(slots: &mut Vec<Slot>, arrival: u64, entry: Entry)
    requires { vec_len slots.old < vec_capacity slots.old }
    ensures contents { contents slots.new.items ≡ contents slots.old.items ++ Some entry ∷ [] }
    ensures len { vec_len slots.new ≡ vec_len slots.old + 1 }
    ensures capacity { vec_capacity slots.new ≡ vec_capacity slots.old }
{
    slots.push_reserved(Slot {
        arrival,
        entry: Some(entry),
    });
}

/// Appends `others` to `slots`, which have capacity for them.
fn move_all(slots: &mut Vec<Slot>, others: Vec<Slot>)
    requires { vec_len slots.old + vec_len others ≤ vec_capacity slots.old }
    ensures items { slots.new.items ≡ slots.old.items ++ others.items }
    ensures capacity { vec_capacity slots.new ≡ vec_capacity slots.old }
{
    for slot in others {
        slots.push_reserved(slot);
    }
}

/// Removes the empty slots.
fn drop_empty(slots: &mut Vec<Slot>)
    ensures entries { somes (contents slots.new.items) ≡ somes (contents slots.old.items) }
    ensures closed { vec_len slots.new ≡ length (somes (contents slots.old.items)) }
    ensures size { IsNoLonger slots.old slots.new }
{
    slots.retain(|slot| slot.entry.is_some());
}

/// Sets the bit of index `place` to whether its slot has a ready message.
fn sign(slots: &[Slot], signs: &mut Signs, place: usize)
    requires { place < signs.old.places }
    ensures { BitTurned signs.old signs.new place (num (slot_has is_ready (slot_at slots.now place))) }
{
    match entry_at(slots, place) {
        None => signs.clear(place),
        Some(entry) => {
            if is_free(entry) {
                signs.set_ready(place);
            } else {
                signs.clear(place);
            }
        }
    }
}

/// Sets each bit below `places` to whether its slot has a ready message.
fn sign_all(slots: &[Slot], signs: &mut Signs, places: usize)
    requires within { places ≤ signs.old.places }
    requires slots { length slots.now ≤ places }
    requires ready { (k : ℕ) → places ≤ k → bit_of signs.old.ready k ≡ 0 }
    ensures signed { AreSigned (contents slots.now) signs.new }
    ensures places { signs.new.places ≡ signs.old.places }
{
    for place in 0..places {
        sign(slots, signs, place);
    }
}

/// Removes the empty slots, and sets the bits of the rest.
fn close_gaps(slots: &mut Vec<Slot>, signs: &mut Signs)
    // What the caller knows: each slot has a bit, which says whether its message is ready.
    requires within { vec_len slots.old ≤ signs.old.places }
    requires signed { AreSigned (contents slots.old.items) signs.old }
    // The entries stay in their order, each in one of the slots that are left, and the bits are right for these.
    ensures signed { AreSigned (contents slots.new.items) signs.new }
    ensures entries { somes (contents slots.new.items) ≡ somes (contents slots.old.items) }
    ensures closed { vec_len slots.new ≡ length (somes (contents slots.old.items)) }
    // The frame: the capacity of `slots` and the number of bits stay.
    ensures capacity { vec_capacity slots.new ≡ vec_capacity slots.old }
    ensures places { signs.new.places ≡ signs.old.places }
{
    let places = slots.len();
    drop_empty(slots);
    sign_all(slots, signs, places);
}

/// Removes the empty slots if they are at least half of `slots`. `live` is the number of those with an entry.
pub(crate) fn close_many_gaps(slots: &mut Vec<Slot>, signs: &mut Signs, live: usize)
    // What the caller knows: each slot has a bit, which says whether its message is ready, and `live` is right.
    requires within { vec_len slots.old ≤ signs.old.places }
    requires signed { AreSigned (contents slots.old.items) signs.old }
    requires live { live ≡ length (somes (contents slots.old.items)) }
    // The entries stay in their order, in at most twice as many slots, and the bits are right for these.
    ensures signed { AreSigned (contents slots.new.items) signs.new }
    ensures entries { somes (contents slots.new.items) ≡ somes (contents slots.old.items) }
    ensures len { vec_len slots.new ≤ vec_len slots.old }
    ensures few { vec_len slots.new ≤ live * 2 }
    // The frame: the capacity of `slots` and the number of bits stay.
    ensures capacity { vec_capacity slots.new ≡ vec_capacity slots.old }
    ensures places { signs.new.places ≡ signs.old.places }
{
    if live > slots.len() / 2 {
        return;
    }
    close_gaps(slots, signs);
}

/// Removes the empty slots, appends the entries of `others`, and sets the bits. `slots` has capacity for all entries. Returns the number of
/// entries appended.
pub(crate) fn move_in(slots: &mut Vec<Slot>, signs: &mut Signs, others: Vec<Slot>) -> usize
    // What the caller knows: there is capacity for all entries, with a bit for each slot, and the bits are right.
    requires within { vec_capacity slots.old ≤ signs.old.places }
    requires signed { AreSigned (contents slots.old.items) signs.old }
    requires room { length (somes (contents slots.old.items)) + length (somes (contents others.items)) ≤ vec_capacity slots.old }
    // The entries of `others` come behind those of `slots`, all in their order, and the bits are right.
    ensures signed { AreSigned (contents slots.new.items) signs.new }
    ensures entries { somes (contents slots.new.items) ≡ somes (contents slots.old.items) ++ somes (contents others.items) }
    ensures count { result ≡ length (somes (contents others.items)) }
    // The frame: the capacity of `slots` and the number of bits stay.
    ensures capacity { vec_capacity slots.new ≡ vec_capacity slots.old }
    ensures places { signs.new.places ≡ signs.old.places }
{
    let places = slots.len();
    let mut others = others;
    drop_empty(slots);
    drop_empty(&mut others);
    let count = others.len();
    move_all(slots, others);
    sign_all(slots, signs, places.max(slots.len()));
    count
}
