//! A list of patterns, each once, in the order in which they were added.

ghost use Rattle.std.specs.Prelude.{◌≡◌, [], OnOk};
ghost use Rattle.model.specs.Tracking.{appended_if_new, same_tracked};

use crate::keys::Keys;
use model::{ExchangeKind, Text};
use std::alloc::{AllocError, Global};
use std::marker::Model;
use word_automata::Tracked;

/// A list of patterns, each once, with a set of their texts.
#[derive(Drop)]
pub struct Patterns {
    list: Vec<Tracked>,
    keys: Keys,
}

impl Model for Patterns {
    ghost use Rattle.std.specs.Prelude.{List};
    ghost use Rattle.model.specs.Tracking.{Tracked};
    ghost use Rattle.state_routes.specs.Keys.{AreKeysOf};

    ghost Value = { List Tracked };

    ghost view = { λ p. p.list.items };

    ghost invariant = { λ p. AreKeysOf p.keys p.list.items };
}

impl Patterns {
    /// Returns an empty list. Never allocates.
    #[tactic(auto, using(crate::proofs::Keying::none_known))]
    pub fn none(alloc: Global) -> Patterns
        ensures { result ≡ [] }
    {
        Patterns {
            list: Vec::new(alloc),
            keys: Keys::none(alloc),
        }
    }

    /// Appends a pattern, unless the list has it. Fails only if an allocation fails.
    pub fn add(&mut self, alloc: Global, kind: ExchangeKind, text: &Text) -> Result<(), AllocError>
        ensures { OnOk result (self.new ≡ appended_if_new same_tracked self.old (record { kind = kind; text = text.now })) }
    {
        if self.keys.has(kind, text.as_bytes()) {
            return Ok(());
        }
        let pattern = Tracked::new(alloc, kind, text.clone()?)?;
        self.list.reserve(1)?;
        self.keys.put(alloc, kind, text.as_bytes())?;
        self.list.push_reserved(pattern);
        Ok(())
    }

    /// Returns the patterns, in order.
    pub fn into_list(self) -> Vec<Tracked>
        ensures { result.items ≡ self }
    {
        let Patterns { list, keys: _ } = self;
        list
    }
}
