//! Buffers that routing uses and keeps.

use crate::ends::End;
use std::alloc::Global;

/// The marks and ends that routing uses.
/// Their content doesn't matter between two routes; they are kept so that routes one after another need no allocation for them. The marks
/// never grow past the topology's queues and exchanges, the ends never past twice those that lead on from one exchange (four at least).
#[derive(Drop)]
pub struct Scratch {
    /// A mark for each exchange that was met.
    pub seen: Vec<bool>,
    /// A mark for each queue that was met.
    pub found: Vec<bool>,
    /// A mark for each exchange that is done.
    pub done: Vec<bool>,
    /// The next steps from one exchange.
    pub ends: Vec<End>,
}

impl Scratch {
    /// Returns empty buffers. Never allocates.
    pub fn new(alloc: Global) -> Scratch {
        Scratch {
            seen: Vec::new(alloc),
            found: Vec::new(alloc),
            done: Vec::new(alloc),
            ends: Vec::new(alloc),
        }
    }
}
