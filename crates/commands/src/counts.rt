//! How many consumers each queue has, as the caller of a core knows it.

/// Knows how many consumers each queue has.
pub trait Counts {
    ghost use Rattle.std.specs.Prelude.{ℕ};

    /// What is returned for the queue at this index.
    ghost is_count: { Self → ℕ → ℕ → Type 0 };

    /// Returns how many consumers take from the queue at index `queue`, which exists.
    fn count(&self, queue: usize) -> usize
        ensures { is_count self.now queue result };
}
