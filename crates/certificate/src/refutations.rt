//! Keys that break a guarantee. Start with [`disprove`].

ghost use Rattle.std.specs.Prelude.{◌≡◌, ◌<◌, Decides, IfOk, Ok, OnErr, false, length, true};
ghost use Rattle.model.specs.Refutations.{Breaks, Refutes};
ghost use Rattle.certificate.specs.Disproved.{HasItsPath, IsSendable, MayRefute};

use crate::targets::is_routed;
use exchange_graph::Topology;
use guarantees::Guarantee;
use model::{Mode, Text, limits};
use paths::is_path;
use std::alloc::{AllocError, Global};
use std::marker::Model;

/// Evidence that a guarantee fails: a routing key, and for a `never` the path by which a message with it reaches the queue.
#[derive(Drop)]
pub struct Refutation {
    key: Text,
    path: Vec<Text>,
}

impl Model for Refutation {
    ghost use Rattle.model.specs.Refutations.{Refutation as Shown};

    ghost Value = { Shown };

    ghost view = { λ r. record { key = r.key; path = r.path.items } };
}

impl Refutation {
    /// Returns a refutation with these parts. They are not checked.
    pub fn new(key: Text, path: Vec<Text>) -> Refutation
        ensures { result ≡ record { key = key; path = path.items } }
    {
        Refutation { key, path }
    }

    /// Returns the routing key that breaks the guarantee.
    pub fn key(&self) -> &Text
        ensures { result.now ≡ self.now.key }
    {
        &self.key
    }

    /// Returns the path of names by which a message reaches the queue; empty for a `reaches`.
    pub fn path(&self) -> &[Text]
        ensures { result.now ≡ self.now.path }
    {
        self.path.as_slice()
    }
}

/// Returns whether `key` can be sent: it has at most 255 bytes.
fn is_sendable(key: &[u8]) -> bool
    ensures { Decides result (IsSendable key.now) }
{
    key.len() <= limits::SHORT_BYTES
}

/// Returns whether `path` may belong to a refutation of a guarantee of mode `mode`: for a `reaches` only an empty one.
fn has_its_path(mode: Mode, path: &[Text]) -> bool
    ensures { Decides result (HasItsPath mode path.now) }
{
    match mode {
        Mode::Reaches => path.is_empty(),
        Mode::Never => true,
    }
}

/// Returns whether the key can be sent, and the path may belong to a refutation of `guarantee`.
fn may_refute(guarantee: &Guarantee, refutation: &Refutation) -> bool
    ensures { Decides result (MayRefute guarantee.now refutation.now) }
{
    is_sendable(refutation.key().as_bytes()) && has_its_path(guarantee.mode(), refutation.path())
}

/// Returns whether the key, or the path of a message with that key, breaks the promise. Fails only if an allocation fails.
fn breaks(
    alloc: Global,
    topology: &Topology,
    guarantee: &Guarantee,
    refutation: &Refutation,
) -> Result<bool, AllocError>
    requires { MayRefute guarantee.now refutation.now }
    ensures { IfOk result (λ yes. Decides yes (Breaks guarantee.now.mode topology.now guarantee.now.exchange guarantee.now.queue refutation.now)) }
{
    let exchange = guarantee.exchange().as_bytes();
    let queue = guarantee.queue().as_bytes();
    let key = refutation.key();
    match guarantee.mode() {
        Mode::Reaches => {
            let routed = is_routed(alloc, topology, exchange, key.as_bytes(), queue)?;
            Ok(!routed)
        }
        Mode::Never => is_path(topology, alloc, exchange, key, queue, refutation.path()),
    }
}

/// Returns whether the refutation shows that the guarantee fails: its key has at most 255 bytes and is covered, and
/// - for a `reaches`, the key doesn't lead to the queue, and the path is empty;
/// - for a `never`, the path leads a message with this key from the exchange into the queue, by edges and dead-letter steps.
///
/// Fails only if an allocation fails, which occurs only if the key can be sent and the path is not ruled out by the mode.
pub fn refutes(
    alloc: Global,
    topology: &Topology,
    guarantee: &Guarantee,
    refutation: &Refutation,
) -> Result<bool, AllocError>
    // `true` exactly if the refutation shows that the guarantee fails.
    ensures exact { IfOk result (λ yes. Decides yes (Refutes topology.now guarantee.now refutation.now)) }
    ensures too_long { 255 < length refutation.now.key → result ≡ Ok false }
    // An allocation is needed only for a refutation that may refute.
    ensures memory { OnErr result (MayRefute guarantee.now refutation.now) }
{
    if !may_refute(guarantee, refutation) {
        return Ok(false);
    }
    let exchange = guarantee.exchange().as_bytes();
    if !guarantee.covers(alloc, exchange, refutation.key().as_bytes())? {
        return Ok(false);
    }
    breaks(alloc, topology, guarantee, refutation)
}

/// Returns whether the refutation shows that the guarantee fails. Returns `false` also if an allocation fails.
pub fn disprove(
    alloc: Global,
    topology: &Topology,
    guarantee: &Guarantee,
    refutation: &Refutation,
) -> bool
    ensures { result ≡ true → Refutes topology.now guarantee.now refutation.now }
{
    match refutes(alloc, topology, guarantee, refutation) {
        Ok(yes) => yes,
        Err(_) => false,
    }
}
