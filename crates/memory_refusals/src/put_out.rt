//! Remembers the outputs of connections, to compare them. Start with [`Outputs`].

use engine::Engine;
use std::alloc::{AllocError, Global};

/// A copy of the outputs of the connections 1, 2, .., and which of them are over.
#[derive(Drop)]
pub struct Outputs {
    bytes: Vec<u8>,
    connections: Vec<OutputEnd>,
}

/// A connection: the end index of its bytes, and whether it is over.
#[derive(Clone, Copy, Drop)]
struct OutputEnd {
    end: usize,
    is_over: bool,
}

impl Outputs {
    /// Returns a copy of the outputs of no connections. Never allocates.
    pub fn new(alloc: Global) -> Outputs {
        Outputs {
            bytes: Vec::new(alloc),
            connections: Vec::new(alloc),
        }
    }

    /// Copies the outputs of the engine's first `opened` connections. Fails only if an allocation fails.
    fn read(&mut self, engine: &Engine, opened: u64) -> Result<(), AllocError> {
        self.bytes.clear();
        self.connections.clear();
        for before in 0..opened {
            let c = before.saturating_add(1);
            self.bytes.extend_from_slice(engine.output(c))?;
            self.connections.push(OutputEnd {
                end: self.bytes.len(),
                is_over: engine.is_over(c),
            })?;
        }
        Ok(())
    }

    /// Copies the outputs of the connections 1 to `opened` ([`Outputs::read`]). Retries once if an allocation fails.
    pub fn look(&mut self, engine: &Engine, opened: u64) -> Result<(), AllocError> {
        match self.read(engine, opened) {
            Ok(()) => Ok(()),
            Err(_) => self.read(engine, opened),
        }
    }

    /// Returns whether the engine's outputs are still the same, byte for byte.
    pub fn are_unchanged(&self, engine: &Engine) -> bool {
        let mut start = 0;
        let mut c = 0u64;
        for output_end in &self.connections {
            c = c.saturating_add(1);
            let bytes = self.bytes.get(start..output_end.end).unwrap_or(&[]);
            if engine.output(c) != bytes || engine.is_over(c) != output_end.is_over {
                return false;
            }
            start = output_end.end;
        }
        true
    }
}
