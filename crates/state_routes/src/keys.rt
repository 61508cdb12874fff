//! Sets of patterns, looked up by their texts.

ghost use Rattle.std.specs.Prelude.{◌≡◌, ◌++◌, ◌∷◌, [], Decides, OnErr, OnOk};
ghost use Rattle.model.specs.Topology.{IsIn};
ghost use Rattle.state_routes.specs.Keys.{texts_by, with_text};

use model::ExchangeKind;
use std::alloc::{AllocError, Global};
use std::marker::Model;
use topology_drafts::Names;

/// A set of patterns, by the kind of exchange that compares them.
#[derive(Drop)]
pub struct Keys {
    direct: Names,
    fanout: Names,
    topic: Names,
}

impl Model for Keys {
    ghost use Rattle.state_routes.specs.Keys.{ByKind};

    ghost Value = { ByKind };

    ghost view = { λ k. record { direct = k.direct; fanout = k.fanout; topic = k.topic } };
}

/// Appends `text`, which is not in `names` yet. Fails only if an allocation fails; nothing has changed then.
fn put(names: &mut Names, alloc: Global, text: &[u8]) -> Result<(), AllocError>
    requires { IsIn text.now names.old → ⊥ }
    ensures ok { OnOk result (names.new ≡ names.old ++ text.now ∷ []) }
    ensures err { OnErr result (names.new ≡ names.old) }
{
    names.enter(alloc, text)?;
    Ok(())
}

impl Keys {
    /// Returns an empty set. Never allocates.
    pub fn none(alloc: Global) -> Keys
        ensures { result ≡ record { direct = []; fanout = []; topic = [] } }
    {
        Keys {
            direct: Names::none(alloc),
            fanout: Names::none(alloc),
            topic: Names::none(alloc),
        }
    }

    /// Returns whether the pattern is in the set.
    pub fn has(&self, kind: ExchangeKind, text: &[u8]) -> bool
        ensures { Decides result (IsIn text.now (texts_by self.now kind)) }
    {
        match kind {
            ExchangeKind::Direct => self.direct.has(text),
            ExchangeKind::Fanout => self.fanout.has(text),
            ExchangeKind::Topic => self.topic.has(text),
        }
    }

    /// Adds a pattern that is not in the set. Fails only if an allocation fails; nothing has changed then.
    pub fn put(&mut self, alloc: Global, kind: ExchangeKind, text: &[u8]) -> Result<(), AllocError>
        requires { IsIn text.now (texts_by self.old kind) → ⊥ }
        ensures ok { OnOk result (self.new ≡ with_text self.old kind text.now) }
        ensures err { OnErr result (self.new ≡ self.old) }
    {
        match kind {
            ExchangeKind::Direct => put(&mut self.direct, alloc, text),
            ExchangeKind::Fanout => put(&mut self.fanout, alloc, text),
            ExchangeKind::Topic => put(&mut self.topic, alloc, text),
        }
    }

    /// Adds a pattern, unless it is in the set. Fails only if an allocation fails.
    #[tactic(auto, using(crate::proofs::Keying::is_among))]
    pub fn enter(
        &mut self,
        alloc: Global,
        kind: ExchangeKind,
        text: &[u8],
    ) -> Result<(), AllocError>
        ensures { OnOk result (IsIn text.now (texts_by self.new kind)) }
    {
        if self.has(kind, text) {
            return Ok(());
        }
        self.put(alloc, kind, text)?;
        Ok(())
    }
}
