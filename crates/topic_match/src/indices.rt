//! A list of indices of patterns.

use std::alloc::{AllocError, Global};
use std::marker::Model;

/// Indices of patterns.
#[derive(Drop)]
pub struct Indices {
    list: Vec<usize>,
}

impl Model for Indices {
    ghost use Rattle.std.specs.Prelude.{List, ℕ};

    ghost Value = { List ℕ };

    ghost view = { λ p. p.list.items };
}

impl Indices {
    ghost use Rattle.std.specs.Prelude.{◌≡◌, ◌++◌, ◌∷◌, [], OnOk};

    /// Returns an empty list. Never allocates.
    pub fn none(alloc: Global) -> Indices
        ensures { result ≡ [] }
    {
        Indices {
            list: Vec::new(alloc),
        }
    }

    /// Appends `index`. Fails only if an allocation fails.
    pub fn add(&mut self, index: usize) -> Result<(), AllocError>
        ensures { OnOk result (self.new ≡ self.old ++ index ∷ []) }
    {
        self.list.push(index)?;
        Ok(())
    }

    pub fn as_slice(&self) -> &[usize]
        ensures { result.now ≡ self.now }
    {
        self.list.as_slice()
    }
}
