//! Remembers the likely index of each connection.

use crate::connection::Connection;
use std::alloc::{AllocError, Global};

/// The number of remembered indices. Connections whose numbers are equal modulo this share one.
const REMEMBERED: usize = 4_096;

/// Remembers the index that a connection had when it was last added or moved. A hint: another connection may have overwritten
/// it, and correctness doesn't depend on it.
#[derive(Drop)]
pub(crate) struct Indices {
    indices: Vec<u16>,
}

impl Indices {
    /// Returns an empty memory. Fails only if an allocation fails.
    pub(crate) fn new(alloc: Global) -> Result<Indices, AllocError> {
        Ok(Indices {
            indices: vec![in alloc; 0; REMEMBERED]?,
        })
    }

    /// Remembers that connection `number` is at `index`.
    pub(crate) fn learn(&mut self, number: u64, index: usize) {
        let at = number as usize % REMEMBERED;
        if at < self.indices.len() {
            self.indices[at] = (index % 65_536) as u16;
        }
    }

    /// Remembers the indices of all connections from `index` on.
    pub(crate) fn learn_from(&mut self, connections: &[Connection], index: usize) {
        for at in index..connections.len() {
            self.learn(connections[at].number, at);
        }
    }

    /// Returns the index at which connection `number` is likely to be.
    pub(crate) fn guess(&self, number: u64) -> usize {
        let at = number as usize % REMEMBERED;
        if at < self.indices.len() {
            self.indices[at] as usize
        } else {
            0
        }
    }
}
