//! Which queues have a ready message.

ghost use Rattle.std.specs.Prelude.{◌≡◌, ℕ, ◌<◌, ◌≤◌, ◌*◌, length, cond, IfOk};
ghost use Rattle.marks.specs.Sets.{bit_of, Differs};
ghost use Rattle.depot.specs.Signs.{ready_bit};

use crate::queues::Queue;
use marks::{Flat, IndexSet, Over};
use queue::Store;
use std::alloc::{AllocError, Global};
use std::marker::Model;

/// A bit for each queue.
type QueueMarks = Over<Flat>;

/// The set of the indices of queues with a ready message.
#[derive(Drop)]
pub(crate) struct QueueSigns {
    ready: QueueMarks,
}

impl Model for QueueSigns {
    ghost use Rattle.std.specs.Prelude.{List, ℕ};

    ghost Value = { List ℕ };

    ghost view = { λ s. s.ready };
}

/// Returns whether `queue` has a ready message.
pub(crate) fn has_ready(queue: &Queue) -> bool
    ensures { cond result 1 0 ≡ ready_bit queue.now.entries }
{
    queue.ready() != 0
}

/// Adds index `place` to the set if `is_in`, otherwise removes it.
fn put(marks: &mut QueueMarks, place: usize, is_in: bool)
    requires { place < length marks.old * 64 }
    ensures bit { Differs (bit_of marks.old) (bit_of marks.new) place (cond is_in 1 0) }
    ensures len { length marks.new ≡ length marks.old }
{
    if is_in {
        marks.set(place);
    } else {
        marks.clear(place);
    }
}

/// Returns an empty set with a bit for each index below `places`. Fails only if an allocation fails.
fn room_for(alloc: Global, places: usize) -> Result<QueueMarks, AllocError>
    ensures bits { IfOk result (λ marks. (k : ℕ) → bit_of marks k ≡ 0) }
    ensures room { IfOk result (λ marks. places ≤ length marks * 64) }
{
    let mut marks = <Over<Flat>>::empty(alloc);
    marks.grow(places)?;
    Ok(marks)
}

impl QueueSigns {
    ghost use Rattle.std.specs.Prelude.{◌≡◌, [], ◌<◌, ◌*◌, length, replicate, IfOk};
    ghost use Rattle.marks.specs.Sets.{bit_of, Differs};
    ghost use Rattle.depot.specs.Signs.{ready_bit, AreSignedBut, ReturnsNext};

    /// Makes the set for `queues` empty queues. Fails only if an allocation fails.
    pub(crate) fn new(alloc: Global, queues: usize) -> Result<QueueSigns, AllocError>
        ensures { IfOk result (λ signs. AreSignedBut 0 (replicate queues []) signs) }
    {
        let ready = room_for(alloc, queues)?;
        Ok(QueueSigns { ready })
    }

    /// Sets the bit of `index` to whether `queue` has a ready message. Never allocates.
    pub(crate) fn sign(&mut self, index: usize, queue: &Queue)
        requires { index < length self.old * 64 }
        ensures bit { Differs (bit_of self.old) (bit_of self.new) index (ready_bit queue.now.entries) }
        ensures len { length self.new ≡ length self.old }
    {
        put(&mut self.ready, index, has_ready(queue));
    }

    /// Returns the first index of the set at or after `from`.
    pub(crate) fn next_ready(&self, from: usize) -> Option<usize>
        ensures { ReturnsNext (bit_of self.now) from result }
    {
        self.ready.next(from)
    }
}
