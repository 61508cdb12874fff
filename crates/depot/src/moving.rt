//! Moves the queues of one topology to those of another.

ghost use Rattle.std.specs.Prelude.{◌≡◌, ◌+◌, ◌*◌, ◌<◌, ◌≤◌, ℕ, [], length, drop, map, slice_set, slice_index_or, IfOk};
ghost use Rattle.model.specs.Topology.{queue_names};
ghost use Rattle.model.specs.Reloading.{survived_now};
ghost use Rattle.depot.specs.Store.{entries_of};
ghost use Rattle.depot.specs.Signs.{AreSignedBut};
ghost use Rattle.depot.specs.Moving.{AreMoved, IsMoved, taken};

use crate::queues::Queue;
use crate::signs::QueueSigns;
use exchange_graph::Topology;
use queue::Store;
use std::alloc::{AllocError, Global};
use std::mem::swap;

/// Returns the index of the queue `name` in `topology`, or the index past the end if there is none.
fn place_in(topology: &Topology, name: &[u8]) -> usize
    ensures { IsMoved (queue_names topology.now.queues) name.now result }
{
    match topology.queue_at(name) {
        Some(place) => place,
        None => topology.queues().len(),
    }
}

/// Returns, for each queue of `old`, the index of the queue with its name in `new`, or the index past the end if there is none. Looks each name up
/// once. Fails only if an allocation fails.
pub(crate) fn indices_in(
    alloc: Global,
    old: &Topology,
    new: &Topology,
) -> Result<Vec<usize>, AllocError>
    ensures { IfOk result (λ places. AreMoved (queue_names old.now.queues) (queue_names new.now.queues) places.items) }
{
    let mut places = Vec::new(alloc);
    for queue in old.queues() {
        places.push(place_in(new, queue.name.as_bytes()))?;
    }
    Ok(places)
}

/// Marks the entries of the queue of `old` at `from` as ones that a reload found there, and swaps that queue with the one at index `place`.
fn exchange_at(queues: &mut [Queue], place: usize, old: &mut [Queue], from: usize)
    requires place { place < length queues.old }
    requires from { from < length old.old }
    // The queue is at its new index, and the queues of `old` after it are unchanged.
    ensures entries { entries_of queues.new ≡ slice_set (entries_of queues.old) place (map survived_now (slice_index_or (entries_of old.old) from [])) }
    ensures len { length queues.new ≡ length queues.old }
    ensures rest { drop (from + 1) (entries_of old.new) ≡ drop (from + 1) (entries_of old.old) }
    ensures old_len { length old.new ≡ length old.old }
{
    old[from].mark_reloaded();
    swap(&mut queues[place], &mut old[from]);
}

/// If there is a queue at index `place`, swaps it as [`exchange_at`] does, and updates its bit.
fn exchange(
    queues: &mut [Queue],
    signs: &mut QueueSigns,
    place: usize,
    old: &mut [Queue],
    from: usize,
)
    requires from { from < length old.old }
    requires room { length queues.old ≤ length signs.old * 64 }
    // The queue is at its new index, the bits are right, and later queues are unchanged.
    ensures entries { entries_of queues.new ≡ slice_set (entries_of queues.old) place (map survived_now (slice_index_or (entries_of old.old) from [])) }
    ensures signed { (lent : ℕ) → AreSignedBut lent (entries_of queues.old) signs.old → AreSignedBut lent (entries_of queues.new) signs.new }
    ensures room { length signs.new ≡ length signs.old }
    ensures len { length queues.new ≡ length queues.old }
    ensures rest { drop (from + 1) (entries_of old.new) ≡ drop (from + 1) (entries_of old.old) }
    ensures old_len { length old.new ≡ length old.old }
{
    if place < queues.len() {
        exchange_at(queues, place, old, from);
        signs.sign(place, &queues[place]);
    }
}

/// Moves each queue of `old` to the index that `places` has for it. Never allocates.
pub(crate) fn take_over_in(
    queues: &mut [Queue],
    signs: &mut QueueSigns,
    old: &mut [Queue],
    places: &[usize],
)
    requires len { length places.now ≡ length old.old }
    requires room { length queues.old ≤ length signs.old * 64 }
    ensures entries { entries_of queues.new ≡ taken places.now (entries_of old.old) (entries_of queues.old) }
    ensures signed { (lent : ℕ) → AreSignedBut lent (entries_of queues.old) signs.old → AreSignedBut lent (entries_of queues.new) signs.new }
    ensures len { length queues.new ≡ length queues.old }
{
    for (from, place) in places.iter().enumerate() {
        exchange(queues, signs, *place, old, from);
    }
}
