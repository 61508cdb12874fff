//! The queues of a topology, and which of them have a ready message.

ghost use Rattle.std.specs.Prelude.{◌≡◌, [], replicate, IfOk};
ghost use Rattle.depot.specs.Store.{entries_of};
ghost use Rattle.depot.specs.Signs.{AreSignedBut, ReturnsNext, ready_places};

use crate::lags::Lags;
use crate::moving::take_over_in;
use crate::signs::{QueueSigns, has_ready};
use queue::{Indexed, Store, Walk};
use std::alloc::{AllocError, Global};
use std::marker::Model;

/// The implementation of each queue. Any other `Store` behaves the same.
pub(crate) type Queue = Indexed;

/// The queues of a topology, in the order of the definitions. `signs` says which of them have a ready message, so that the next such queue is
/// found without a scan. The sign of the queue that was borrowed last (`lent`) may be out of date, and is set when another is borrowed.
#[derive(Drop)]
pub(crate) struct Queues {
    queues: Vec<Queue>,
    signs: QueueSigns,
    lent: usize,
    lags: Lags,
}

impl Model for Queues {
    ghost use Rattle.std.specs.Prelude.{List};
    ghost use Rattle.queue.specs.Line.{Line};
    ghost use Rattle.depot.specs.Store.{entries_of};
    ghost use Rattle.depot.specs.Signs.{AreSignedBut};

    ghost Value = { List Line };

    ghost view = { λ q. q.queues.items };

    ghost invariant = { λ q. AreSignedBut q.lent (entries_of q.queues.items) q.signs };
}

/// Returns `count` empty queues. Fails only if an allocation fails.
fn empty_queues(alloc: Global, count: usize) -> Result<Vec<Queue>, AllocError>
    ensures { IfOk result (λ queues. entries_of queues.items ≡ replicate count []) }
{
    let mut queues = Vec::new(alloc);
    for _ in 0..count {
        queues.push(Queue::new(alloc))?;
    }
    Ok(queues)
}

/// Sets the sign of the queue borrowed last (`lent`), unless it is the one at index `place`, which is borrowed next. Never allocates.
fn move_loan(queues: &[Queue], signs: &mut QueueSigns, lent: usize, place: usize)
    requires { AreSignedBut lent (entries_of queues.now) signs.old }
    ensures { AreSignedBut place (entries_of queues.now) signs.new }
{
    if lent == place || lent >= queues.len() {
        return;
    }
    signs.sign(lent, &queues[lent]);
}

/// Returns the index of the first queue at or after `from` with a ready message, or `None`. Uses `signs`, except for the queue borrowed last (`lent`).
fn next_in(queues: &[Queue], signs: &QueueSigns, lent: usize, from: usize) -> Option<usize>
    requires { AreSignedBut lent (entries_of queues.now) signs.now }
    ensures { ReturnsNext (ready_places (entries_of queues.now)) from result }
{
    let next = signs.next_ready(from);
    if lent < from || lent >= queues.len() {
        return next;
    }
    let is_ready = has_ready(&queues[lent]);
    let Some(place) = next else {
        return if is_ready { Some(lent) } else { None };
    };
    if place < lent {
        return next;
    }
    if is_ready {
        return Some(lent);
    }
    if place == lent {
        return signs.next_ready(lent + 1);
    }
    next
}

impl Queues {
    ghost use Rattle.std.specs.Prelude.{
      ◌≡◌,
      ◌<◌,
      [],
      length,
      replicate,
      IfOk,
      slice_index_or,
    };
    ghost use Rattle.std.specs.Borrow.{sem};
    ghost use Rattle.depot.specs.Store.{entries_of};
    ghost use Rattle.depot.specs.Signs.{ready_places, ReturnsNext};
    ghost use Rattle.depot.specs.Turns.{no_line};
    ghost use Rattle.depot.specs.Moving.{taken};
    ghost use Rattle.depot.specs.Lends.{LendsQueue};

    /// Makes `count` empty queues. Fails only if an allocation fails.
    pub(crate) fn new(alloc: Global, count: usize) -> Result<Queues, AllocError>
        ensures { IfOk result (λ queues. entries_of queues ≡ replicate count []) }
    {
        let queues = empty_queues(alloc, count)?;
        let signs = QueueSigns::new(alloc, count)?;
        let lags = Lags::new(alloc, count)?;
        Ok(Queues {
            queues,
            signs,
            lent: 0,
            lags,
        })
    }

    /// Returns the queue at `index`.
    pub(crate) fn queue(&self, index: usize) -> &Queue
        requires { index < length self.now }
        ensures { result.now.entries ≡ slice_index_or (entries_of self.now) index [] }
    {
        &self.queues[index]
    }

    /// Borrows the queue at `index` mutably. Never allocates.
    pub(crate) fn queue_mut(&mut self, index: usize) -> &mut Queue
        requires { index < length self.old }
        ensures* writes_back { sem 𝓛 (LendsQueue self.entry index result) }
        ensures value { result.now ≡ slice_index_or self.old index no_line }
    {
        move_loan(&self.queues, &mut self.signs, self.lent, index);
        self.lent = index;
        &mut self.queues[index]
    }

    /// Returns an iterator over the entries of the queue at `index`, in the order of arrival; empty if there is no such queue.
    pub(crate) fn walk(&self, index: usize) -> Walk<'_>
        ensures { result ≡ slice_index_or (entries_of self.now) index [] }
    {
        match self.queues.get(index) {
            Some(queue) => queue.walk(),
            None => Walk::empty(),
        }
    }

    /// Returns the index of the first queue at or after `from` with a ready message.
    pub(crate) fn next_ready(&self, from: usize) -> Option<usize>
        ensures { ReturnsNext (ready_places (entries_of self.now)) from result }
    {
        next_in(&self.queues, &self.signs, self.lent, from)
    }

    /// Counts a published message for the queue at `index` if that queue lags, unless `is_refused` there ([`Lags::come`]).
    pub(crate) fn count_coming(&mut self, index: usize, is_refused: bool)
        ensures { self.new ≡ self.old }
    {
        self.lags.come(index, is_refused);
    }

    /// Records that a message was taken from the queue at `index`, which left `ready` messages ready there.
    pub(crate) fn count_taking(&mut self, index: usize, ready: usize)
        ensures { self.new ≡ self.old }
    {
        self.lags.take(index, ready);
    }

    /// Returns how many messages have entered queues that lagged.
    pub(crate) fn lagged(&self) -> u64 {
        self.lags.count()
    }

    /// Moves each queue of `old` to the index that `indices` has for it, if there is one, each entry marked as one that a reload found there. Never
    /// allocates.
    pub(crate) fn take_over(&mut self, old: Queues, indices: &[usize])
        requires { length indices.now ≡ length old }
        ensures entries { entries_of self.new ≡ taken indices.now (entries_of old) (entries_of self.old) }
        ensures len { length self.new ≡ length self.old }
    {
        let Queues {
            queues: mut left,
            signs: _,
            lent: _,
            lags: _,
        } = old;
        take_over_in(&mut self.queues, &mut self.signs, &mut left, indices);
    }
}
