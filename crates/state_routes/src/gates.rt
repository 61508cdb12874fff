//! Bindings as gates between nodes, each with a test by a tracked pattern. Start with `gates_of`.

ghost use Rattle.std.specs.Prelude.{◌≡◌, IfOk};
ghost use Rattle.model.specs.Tracking.{same_kind, same_tracked};
ghost use Rattle.state_routes.specs.Gates.{
  all_block,
  binding_gates,
  blocks,
  gate_of,
  gates_of,
  has_queue,
  is_open,
  is_shut,
  kind_at,
  passes,
  tracked_index,
  test_by,
};

use crate::nodes::link_of;
use exchange_graph::Topology;
use model::{Binding, ExchangeKind, Mode};
use paths::Hop;
use std::alloc::{AllocError, Global};
use word_automata::Tracked;

/// What a gate tests of a key.
#[derive(Clone, Copy, Drop)]
pub enum Test {
    /// Each key passes.
    Always,
    /// A key passes if the tracked pattern at this index accepts it.
    Pattern(usize),
}

/// A link between two nodes, for the keys that pass its test.
#[derive(Clone, Copy, Drop)]
pub struct Gate {
    pub link: Hop,
    pub test: Test,
}

/// Returns whether `one` and `other` are the same kind.
fn same_kind(one: ExchangeKind, other: ExchangeKind) -> bool
    ensures { result ≡ same_kind one other }
{
    match one {
        ExchangeKind::Direct => match other {
            ExchangeKind::Direct => true,
            ExchangeKind::Fanout => false,
            ExchangeKind::Topic => false,
        },
        ExchangeKind::Fanout => match other {
            ExchangeKind::Direct => false,
            ExchangeKind::Fanout => true,
            ExchangeKind::Topic => false,
        },
        ExchangeKind::Topic => match other {
            ExchangeKind::Direct => false,
            ExchangeKind::Fanout => false,
            ExchangeKind::Topic => true,
        },
    }
}

/// Returns whether `pattern` has the kind `kind` and the text `text`.
fn is_same(pattern: &Tracked, kind: ExchangeKind, text: &[u8]) -> bool
    ensures { result ≡ same_tracked (record { kind = kind; text = text.now }) pattern.now }
{
    let alike = same_kind(kind, pattern.kind());
    alike && text == pattern.text().as_bytes()
}

/// Returns the index of the tracked pattern with this kind and text, or the number of patterns if there is none.
pub fn tracked_index(patterns: &[Tracked], kind: ExchangeKind, text: &[u8]) -> usize
    ensures { result ≡ tracked_index patterns.now kind text.now }
{
    let mut place = 0;
    for pattern in patterns {
        if is_same(pattern, kind, text) {
            return place;
        }
        place += 1;
    }
    place
}

/// Returns the test of a binding with `key` from an exchange of kind `kind`.
pub fn test_by(patterns: &[Tracked], kind: ExchangeKind, key: &[u8]) -> Test
    ensures { result ≡ test_by patterns.now kind key.now }
{
    match kind {
        ExchangeKind::Fanout => Test::Always,
        ExchangeKind::Direct => Test::Pattern(tracked_index(patterns, kind, key)),
        ExchangeKind::Topic => Test::Pattern(tracked_index(patterns, kind, key)),
    }
}

/// Returns the kind of the exchange `name`, or `Direct` if there is none.
pub fn kind_at(topology: &Topology, name: &[u8]) -> ExchangeKind
    ensures { result ≡ kind_at topology.now.exchanges name.now }
{
    match topology.exchange(name) {
        Some(exchange) => exchange.kind,
        None => ExchangeKind::Direct,
    }
}

/// Returns the gate of `binding`.
fn gate_of(topology: &Topology, queue: &[u8], patterns: &[Tracked], binding: &Binding) -> Gate
    ensures { result ≡ gate_of topology.now.exchanges queue.now patterns.now binding.now }
{
    let kind = kind_at(topology, binding.source.as_bytes());
    Gate {
        link: link_of(topology, queue, binding),
        test: test_by(patterns, kind, binding.key.as_bytes()),
    }
}

/// Returns the gates of `bindings`, in order. Fails only if an allocation fails.
fn binding_gates(
    alloc: Global,
    topology: &Topology,
    queue: &[u8],
    patterns: &[Tracked],
    bindings: &[Binding],
) -> Result<Vec<Gate>, AllocError>
    ensures { IfOk result (λ gates. gates.items ≡ binding_gates topology.now.exchanges queue.now patterns.now bindings.now) }
{
    let mut gates = Vec::new(alloc);
    for binding in bindings {
        gates.push(gate_of(topology, queue, patterns, binding))?;
    }
    Ok(gates)
}

/// Returns whether `queue` exists.
fn has_queue(topology: &Topology, queue: &[u8]) -> bool
    ensures { result ≡ has_queue topology.now.queues queue.now }
{
    topology
        .queues()
        .iter()
        .any(|other| other.name.as_bytes() == queue)
}

/// Returns the gates of a topology: those of its bindings, and that of the default exchange to `queue`, if it exists.
/// Fails only if an allocation fails.
pub fn gates_of(
    alloc: Global,
    topology: &Topology,
    queue: &[u8],
    patterns: &[Tracked],
) -> Result<Vec<Gate>, AllocError>
    ensures { IfOk result (λ gates. gates.items ≡ gates_of topology.now queue.now patterns.now) }
{
    let mut gates = binding_gates(alloc, topology, queue, patterns, topology.bindings())?;
    if has_queue(topology, queue) {
        let place = tracked_index(patterns, ExchangeKind::Direct, queue);
        gates.push(Gate {
            link: Hop { from: 2, to: 0 },
            test: Test::Pattern(place),
        })?;
    }
    Ok(gates)
}

/// Returns whether the test is known to pass.
fn is_open(test: Test, accepted: &[bool]) -> bool
    ensures { result ≡ is_open test accepted.now }
{
    match test {
        Test::Always => true,
        Test::Pattern(place) => match accepted.get(place) {
            Some(yes) => *yes,
            None => false,
        },
    }
}

/// Returns whether the test is known to fail.
fn is_shut(test: Test, accepted: &[bool]) -> bool
    ensures { result ≡ is_shut test accepted.now }
{
    match test {
        Test::Always => false,
        Test::Pattern(place) => match accepted.get(place) {
            Some(yes) => !*yes,
            None => false,
        },
    }
}

/// Returns whether the test lets a key pass, as a promise of mode `mode` counts it: for a `reaches` if it is known to pass, for a `never`
/// unless it is known to fail.
pub fn passes(mode: Mode, test: Test, accepted: &[bool]) -> bool
    ensures { result ≡ passes mode test accepted.now }
{
    match mode {
        Mode::Reaches => is_open(test, accepted),
        Mode::Never => !is_shut(test, accepted),
    }
}

/// Returns whether the test stops a key, as a promise of mode `mode` counts it: for a `reaches` if it is known to fail, for a `never` unless it is known to
/// pass.
fn blocks(mode: Mode, test: Test, accepted: &[bool]) -> bool
    ensures { result ≡ blocks mode test accepted.now }
{
    match mode {
        Mode::Reaches => is_shut(test, accepted),
        Mode::Never => !is_open(test, accepted),
    }
}

/// Returns whether each gate from node `from` stops a key.
pub fn all_block(mode: Mode, gates: &[Gate], from: usize, accepted: &[bool]) -> bool
    ensures { result ≡ all_block mode gates.now from accepted.now }
{
    for gate in gates {
        if gate.link.from == from && !blocks(mode, gate.test, accepted) {
            return false;
        }
    }
    true
}
