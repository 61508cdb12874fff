//! Estimates which queues' consumers lag behind.

use std::alloc::{AllocError, Global};

/// A queue lags if more messages than this are ready behind one that was taken from it. A round delivers as many.
const MANY: usize = 256;

/// For each message that is taken from a lagging queue, this many of the next messages to enter it are counted. As no others are, a queue whose
/// consumers read only now and then slows nobody.
const COUNTED: u32 = 4;

/// The most messages entering a queue that are counted after its consumers have stopped taking.
const MOST_COUNTED: u32 = 1_024;

/// Estimates, for each queue, how far its consumers lag behind: `left` has, by index, how many of the next messages to enter the queue are
/// counted; `count` is how many were counted in all. A hint for reading from publishers more slowly: correctness does not depend on it.
#[derive(Drop)]
pub(crate) struct Lags {
    left: Vec<u32>,
    count: u64,
}

impl Lags {
    /// Makes an estimate for `queues` queues, of which none lags. Fails only if an allocation fails.
    pub(crate) fn new(alloc: Global, queues: usize) -> Result<Lags, AllocError> {
        let left = vec![in alloc; 0; queues]?;
        Ok(Lags { left, count: 0 })
    }

    /// Records that a message was taken from the queue at `index`, which left `ready` messages ready there.
    pub(crate) fn take(&mut self, index: usize, ready: usize) {
        if index < self.left.len() {
            self.left[index] = if ready > MANY {
                self.left[index].saturating_add(COUNTED).min(MOST_COUNTED)
            } else {
                0
            };
        }
    }

    /// Counts a published message for the queue at `index` if that queue lags, unless `is_refused` there. A dead letter isn't counted: it comes from
    /// a consumer's rejection, and must not slow the reading from that consumer.
    pub(crate) fn come(&mut self, index: usize, is_refused: bool) {
        if !is_refused && index < self.left.len() && self.left[index] > 0 {
            self.left[index] -= 1;
            self.count = self.count.wrapping_add(1);
        }
    }

    /// Returns how many messages have entered queues that lagged.
    pub(crate) fn count(&self) -> u64 {
        self.count
    }
}
