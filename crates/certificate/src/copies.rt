//! Copies topologies and guarantees. The copies share their texts.

ghost use Rattle.std.specs.Prelude.{◌≡◌, IfOk};

use exchange_graph::Topology;
use guarantees::Guarantee;
use model::{Binding, DeclaredQueue, Destination, Exchange, Text};
use std::alloc::{AllocError, Global};

/// A type that can be copied.
pub(crate) trait Copied: Drop {
    /// Returns a copy that shares the texts. Fails only if an allocation fails.
    fn copied(&self, alloc: Global) -> Result<Self, AllocError>
        ensures { IfOk result (λ copy. copy ≡ self.now) };
}

impl Copied for Text {
    fn copied(&self, _alloc: Global) -> Result<Text, AllocError> {
        self.clone()
    }
}

impl Copied for Exchange {
    fn copied(&self, alloc: Global) -> Result<Exchange, AllocError> {
        Ok(Exchange {
            name: self.name.clone()?,
            kind: self.kind,
            internal: self.internal,
            alternate: perhaps(alloc, &self.alternate)?,
        })
    }
}

impl Copied for DeclaredQueue {
    fn copied(&self, alloc: Global) -> Result<DeclaredQueue, AllocError> {
        Ok(DeclaredQueue {
            name: self.name.clone()?,
            limit: self.limit,
            byte_limit: self.byte_limit,
            dead_letter_exchange: perhaps(alloc, &self.dead_letter_exchange)?,
            dead_letter_key: perhaps(alloc, &self.dead_letter_key)?,
        })
    }
}

impl Copied for Destination {
    fn copied(&self, _alloc: Global) -> Result<Destination, AllocError> {
        match self {
            Destination::Exchange(name) => Ok(Destination::Exchange(name.clone()?)),
            Destination::Queue(name) => Ok(Destination::Queue(name.clone()?)),
        }
    }
}

impl Copied for Binding {
    fn copied(&self, alloc: Global) -> Result<Binding, AllocError> {
        Ok(Binding {
            source: self.source.clone()?,
            to: self.to.copied(alloc)?,
            key: self.key.clone()?,
        })
    }
}

impl Copied for Guarantee {
    fn copied(&self, alloc: Global) -> Result<Guarantee, AllocError> {
        self.ghost_are_patterns();
        let copy = Guarantee::new(
            self.mode(),
            self.exchange().clone()?,
            self.pattern().clone()?,
            self.queue().clone()?,
            all(alloc, self.excepts())?,
        );
        copy.ok_or(AllocError)
    }
}

/// Returns a copy of a text, if there is one. Fails only if an allocation fails.
fn perhaps(alloc: Global, text: &Option<Text>) -> Result<Option<Text>, AllocError>
    ensures { IfOk result (λ copy. copy ≡ text.now) }
{
    match text {
        Some(text) => Ok(Some(text.copied(alloc)?)),
        None => Ok(None),
    }
}

/// Returns copies of `those`, in order. Fails only if an allocation fails.
pub(crate) fn all<T: Copied>(alloc: Global, those: &[T]) -> Result<Vec<T>, AllocError>
    ensures { IfOk result (λ copies. copies.items ≡ those.now) }
{
    let mut copies = Vec::new(alloc);
    for one in those {
        copies.push(one.copied(alloc)?)?;
    }
    Ok(copies)
}

/// Returns a copy of `topology`. Fails only if an allocation fails.
pub(crate) fn topology(alloc: Global, topology: &Topology) -> Result<Topology, AllocError>
    ensures { IfOk result (λ copy. copy ≡ topology.now) }
{
    topology.ghost_is_buildable();
    Topology::sound(
        alloc,
        all(alloc, topology.exchanges())?,
        all(alloc, topology.queues())?,
        all(alloc, topology.bindings())?,
    )
}
