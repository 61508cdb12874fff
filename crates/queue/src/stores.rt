//! The calls of a queue, whichever way it keeps its entries. Start with [`Store`].

ghost use Rattle.std.specs.Prelude.{◌≡◌, ◌+◌, ◌<◌, ◌≤◌, ◌∷◌, ◌++◌, ◌||◌, []};
ghost use Rattle.std.specs.Prelude.{OnOk, OnErr, None, find, filter, map, max, not, is_some, option_map, vec_len, vec_capacity};
ghost use Rattle.model.specs.Broker.{is_at, is_past, is_ready, ready_bytes};
ghost use Rattle.model.specs.Entries.{is_under, is_held_as, held_as, change_first, without_first, number_of};
ghost use Rattle.model.specs.Reloading.{survived_now};
ghost use Rattle.model.specs.declared.messages.Mark.TheVariants.{Ready};
ghost use Rattle.queue.specs.Line.{Line, ready_count, requeued};

use crate::limits;
use crate::walks::Walk;
use model::{Entry, Holder, Message};
use std::alloc::{AllocError, Global};

/// A queue of messages, ready or held, in the order of arrival. `reserve` promises room, which `push` spends and `give_back`
/// returns. No other call allocates.
pub trait Store: Drop {
    /// The entries in arrival order, and the number of pushes that need no allocation.
    ghost line: { Self → Line };

    /// Returns an empty queue. Never allocates.
    fn new(alloc: Global) -> Self
        ensures entries { (line result).entries ≡ [] }
        ensures room { (line result).room ≡ 0 };

    /// Makes room for `more` pushes in all. Fails only if there is less room and an allocation fails; nothing has changed then.
    fn reserve(&mut self, more: usize) -> Result<(), AllocError>
        ensures entries { (line self.new).entries ≡ (line self.old).entries }
        ensures kept { (line self.old).room ≤ (line self.new).room }
        ensures room { OnOk result (more ≤ (line self.new).room) }
        // the room grows to `more` at most
        ensures few { (line self.new).room ≤ max (line self.old).room more }
        ensures same { OnErr result ((line self.new).room ≡ (line self.old).room) }
        ensures full { OnErr result ((line self.old).room < more) };

    /// Returns the number of pushes that need no allocation.
    fn room(&self) -> usize
        ensures { result ≡ (line self.now).room };

    /// Gives back the room that was promised and not spent. Never allocates.
    fn give_back(&mut self)
        ensures entries { (line self.new).entries ≡ (line self.old).entries }
        ensures room { (line self.new).room ≡ 0 };

    /// Appends `message` as ready. Spends room for one message, which `reserve` has promised. Never allocates.
    fn push(&mut self, message: Message)
        requires { 0 < (line self.old).room }
        ensures entries { (line self.new).entries ≡ (line self.old).entries ++ record { message = message; mark = Ready } ∷ [] }
        ensures room { (line self.new).room + 1 ≡ (line self.old).room };

    /// Returns the number of ready messages.
    fn ready(&self) -> usize
        ensures { result ≡ ready_count (line self.now).entries };

    /// Returns the number of bytes of the ready messages' bodies.
    fn ready_bytes(&self) -> u128
        ensures { result ≡ ready_bytes (line self.now).entries };

    /// Returns whether a limit refuses one more message with a body of `size` bytes: `limit` is the most ready messages, `byte_limit` the
    /// most bytes of their bodies, and `None` is no limit. Source: RabbitMQ, "Queue Length Limit", reject-publish.
    fn is_full(&self, limit: Option<u32>, byte_limit: Option<u32>, size: usize) -> bool
        ensures { result ≡ (is_at limit (ready_count (line self.now).entries) || is_past byte_limit (ready_bytes (line self.now).entries + size)) }
    {
        limits::is_at(limit, self.ready()) || limits::is_past(byte_limit, self.ready_bytes(), size)
    }

    /// Returns the first ready message.
    fn first_ready(&self) -> Option<&Entry>
        ensures { option_map (λ e. e.now) result ≡ find is_ready (line self.now).entries };

    /// Marks the first ready message, if any, as held by `holder`, which holds no message yet. Returns the number of its arrival, a hint
    /// with which later calls find it faster, or 0 if arrivals are not numbered. Never allocates.
    fn hold(&mut self, holder: Holder) -> Option<u64>
        requires { find (is_held_as holder) (line self.old).entries ≡ None }
        ensures reported { is_some result ≡ is_some (find is_ready (line self.old).entries) }
        ensures entries { (line self.new).entries ≡ change_first is_ready (held_as holder) (line self.old).entries }
        ensures room { (line self.new).room ≡ (line self.old).room };

    /// Removes and returns the first ready message, if any. Never allocates.
    fn take_first(&mut self) -> Option<Entry>
        ensures taken { result ≡ find is_ready (line self.old).entries }
        ensures entries { (line self.new).entries ≡ without_first is_ready (line self.old).entries }
        ensures room { (line self.new).room ≡ (line self.old).room };

    /// Returns the message held by `holder`. `arrival` only makes the search faster.
    fn held(&self, holder: &Holder, arrival: u64) -> Option<&Entry>
        ensures { option_map (λ e. e.now) result ≡ find (is_held_as holder.now) (line self.now).entries };

    /// Makes the message held by `holder` ready again, in its place and marked as redelivered. Returns whether there is one.
    /// Never allocates.
    fn release(&mut self, holder: &Holder, arrival: u64) -> bool
        ensures reported { result ≡ is_some (find (is_held_as holder.now) (line self.old).entries) }
        ensures entries { (line self.new).entries ≡ requeued (is_under holder.now) (line self.old).entries }
        ensures room { (line self.new).room ≡ (line self.old).room };

    /// Removes and returns the message held by `holder`, if any. Never allocates.
    fn remove(&mut self, holder: &Holder, arrival: u64) -> Option<Entry>
        ensures taken { result ≡ find (is_held_as holder.now) (line self.old).entries }
        ensures entries { (line self.new).entries ≡ filter (λ e. not (is_held_as holder.now e)) (line self.old).entries }
        ensures room { (line self.new).room ≡ (line self.old).room };

    /// Removes the ready messages, and appends their publish numbers to `numbers` in the order of arrival. `numbers` has capacity
    /// for them. Never allocates.
    fn purge(&mut self, numbers: &mut Vec<u64>)
        requires { vec_len numbers.old + ready_count (line self.old).entries ≤ vec_capacity numbers.old }
        ensures entries { (line self.new).entries ≡ filter (λ e. not (is_ready e)) (line self.old).entries }
        ensures numbers { numbers.new.items ≡ numbers.old.items ++ map number_of (filter is_ready (line self.old).entries) }
        ensures capacity { vec_capacity numbers.new ≡ vec_capacity numbers.old }
        ensures room { (line self.new).room ≡ (line self.old).room };

    /// Marks each message, ready or held, as one that a reload found here. Never allocates.
    fn mark_reloaded(&mut self)
        ensures entries { (line self.new).entries ≡ map survived_now (line self.old).entries }
        ensures room { (line self.new).room ≡ (line self.old).room };

    /// Returns an iterator over the entries, ready and held, in the order of arrival.
    fn walk(&self) -> Walk<'_>
        ensures { result ≡ (line self.now).entries };
}
