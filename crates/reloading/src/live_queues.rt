//! What a reload looks at.

ghost use Rattle.std.specs.Prelude.{◌≡◌, ℕ, List, Bool};

use queue::Walk;

/// What is in queues and whether consumers take from them, by the indices of the queues.
pub trait LiveQueues {
    ghost use Rattle.model.specs.declared.messages.Entry.{Entry as Waiting};

    // the entries of the queue at this index
    ghost entries: { Self → ℕ → List Waiting };

    // a consumer takes from the queue at this index
    ghost consumed: { Self → ℕ → Bool };

    /// Returns an iterator over the entries of the queue at index `queue`, ready and held, in the order of arrival.
    fn walk(&self, queue: usize) -> Walk<'_>
        ensures { result ≡ entries self.now queue };

    /// Returns whether a consumer takes from the queue at index `queue`.
    fn is_consumed(&self, queue: usize) -> bool
        ensures { result ≡ consumed self.now queue };
}
