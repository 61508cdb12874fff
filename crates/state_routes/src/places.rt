//! Chooses the patterns that a slice of a certificate tracks. Start with `indices_to`.

ghost use Rattle.std.specs.Prelude.{◌<◌, ◌+◌, length, IfOk, OnOk};
ghost use Rattle.model.specs.Certificates.{AreIndices};
ghost use Rattle.state_routes.specs.Placing.{RiseBelow};

use crate::gates::kind_at;
use crate::keys::Keys;
use crate::nodes::{alternate_links, node};
use crate::tracking::met;
use exchange_graph::Topology;
use guarantees::Guarantee;
use model::{Binding, DeclaredQueue, Destination, ExchangeKind, Mode};
use paths::Hop;
use std::alloc::{AllocError, Global};
use word_automata::Tracked;

/// Returns whether node `place` is marked.
fn is_marked(marks: &[bool], place: usize) -> bool {
    match marks.get(place) {
        Some(mark) => *mark,
        None => false,
    }
}

/// Marks node `place`, if it exists.
fn mark(marks: &mut [bool], place: usize) {
    if place < marks.len() {
        marks[place] = true;
    }
}

/// Returns the node of the dead-letter exchange of queue `last`, whatever its key, or 1 if it has none.
fn death_end(topology: &Topology, last: &DeclaredQueue) -> usize {
    match &last.dead_letter_exchange {
        Some(exchange) => node(topology, exchange.as_bytes()),
        None => 1,
    }
}

/// Returns the node that stands for queue `name`: 0 if it is `queue`; for a `never`, the node of its dead-letter exchange; otherwise 1, from which nothing
/// leads on.
fn queue_end(topology: &Topology, mode: Mode, queue: &[u8], name: &[u8]) -> usize {
    if name == queue {
        return 0;
    }
    match mode {
        Mode::Reaches => 1,
        Mode::Never => match topology.queue_at(name) {
            Some(place) => death_end(topology, topology.queue(place)),
            None => 1,
        },
    }
}

/// Returns a hop from the node of the binding's source to the node of its destination: an exchange's own, or the [`queue_end`] of a queue.
fn binding_way(topology: &Topology, mode: Mode, queue: &[u8], binding: &Binding) -> Hop {
    let to = match &binding.to {
        Destination::Exchange(name) => node(topology, name.as_bytes()),
        Destination::Queue(name) => queue_end(topology, mode, queue, name.as_bytes()),
    };
    Hop {
        from: node(topology, binding.source.as_bytes()),
        to,
    }
}

/// Returns the [`binding_way`] of each binding, in the order of the file. Fails only if an allocation fails.
fn binding_ways(
    alloc: Global,
    topology: &Topology,
    mode: Mode,
    queue: &[u8],
) -> Result<Vec<Hop>, AllocError> {
    let mut ways = Vec::new(alloc);
    for binding in topology.bindings() {
        ways.push(binding_way(topology, mode, queue, binding))?;
    }
    Ok(ways)
}

/// Returns the nodes that the default exchange may connect, for each queue in the order of the file. Fails only if an allocation fails.
fn default_ways(
    alloc: Global,
    topology: &Topology,
    mode: Mode,
    queue: &[u8],
) -> Result<Vec<Hop>, AllocError> {
    let mut ways = Vec::new(alloc);
    for last in topology.queues() {
        let to = queue_end(topology, mode, queue, last.name.as_bytes());
        ways.push(Hop { from: 2, to })?;
    }
    Ok(ways)
}

/// Marks the node where `way` starts if it ends at a marked one. Returns whether a mark is new.
fn mark_start(way: &Hop, marks: &mut [bool]) -> bool {
    let is_new = is_marked(marks, way.to) && !is_marked(marks, way.from);
    if is_new {
        mark(marks, way.from);
    }
    is_new
}

/// Marks the node where each of `ways` starts if the way ends at a marked one. Returns whether a mark is new.
fn mark_starts(ways: &[Hop], marks: &mut [bool]) -> bool {
    let mut is_new = false;
    for way in ways {
        is_new = is_new | mark_start(way, marks);
    }
    is_new
}

/// Returns a mark for each of `count` nodes: whether ways lead from there to node 0, the guarantee's queue.
/// Fails only if an allocation fails.
fn leading(alloc: Global, ways: &[Hop], count: usize) -> Result<Vec<bool>, AllocError> {
    let mut marks = vec![in alloc; false; count]?;
    mark(marks.as_mut_slice(), 0);
    for _pass in 0..count {
        if !mark_starts(ways, marks.as_mut_slice()) {
            return Ok(marks);
        }
    }
    Ok(marks)
}

/// Returns whether the way at index `at` starts where a covered message may be, and ends at a node from which ways lead to the guarantee's queue.
fn counts(ways: &[Hop], at: usize, met: &[bool], leading: &[bool]) -> bool {
    match ways.get(at) {
        Some(way) => is_marked(met, way.from) && is_marked(leading, way.to),
        None => false,
    }
}

/// Adds the binding keys of the ways for which `counts` holds. Fails only if an allocation fails.
fn add_binding_keys(
    alloc: Global,
    keys: &mut Keys,
    topology: &Topology,
    ways: &[Hop],
    met: &[bool],
    leading: &[bool],
) -> Result<(), AllocError> {
    let bindings = topology.bindings();
    for at in 0..bindings.len() {
        let binding = &bindings[at];
        if counts(ways, at, met, leading) {
            let kind = kind_at(topology, binding.source.as_bytes());
            keys.enter(alloc, kind, binding.key.as_bytes())?;
        }
    }
    Ok(())
}

/// Adds the names of the queues for whose ways `counts` holds. Fails only if an allocation fails.
fn add_queue_names(
    alloc: Global,
    keys: &mut Keys,
    topology: &Topology,
    ways: &[Hop],
    met: &[bool],
    leading: &[bool],
) -> Result<(), AllocError> {
    let queues = topology.queues();
    for at in 0..queues.len() {
        if counts(ways, at, met, leading) {
            keys.enter(alloc, ExchangeKind::Direct, queues[at].name.as_bytes())?;
        }
    }
    Ok(())
}

/// Adds the patterns of `except`. Fails only if an allocation fails.
fn add_excepts(alloc: Global, keys: &mut Keys, guarantee: &Guarantee) -> Result<(), AllocError> {
    for except in guarantee.excepts() {
        keys.enter(alloc, ExchangeKind::Topic, except.as_bytes())?;
    }
    Ok(())
}

/// Returns the keys by which a message may come nearer to the guarantee's queue (for a `never` also as a dead letter, under any key), and
/// the patterns of `except`. Each binding and each alternate exchange is taken as possible. Fails only if an allocation fails.
fn keys_of(alloc: Global, topology: &Topology, guarantee: &Guarantee) -> Result<Keys, AllocError> {
    let mode = guarantee.mode();
    let queue = guarantee.queue().as_bytes();
    let of_bindings = binding_ways(alloc, topology, mode, queue)?;
    let of_default = default_ways(alloc, topology, mode, queue)?;
    let mut ways = alternate_links(alloc, topology, topology.exchanges())?;
    ways.extend_from_slice(of_bindings.as_slice())?;
    ways.extend_from_slice(of_default.as_slice())?;
    let leading = leading(alloc, ways.as_slice(), topology.exchanges().len() + 4)?;
    let met = met(
        alloc,
        topology,
        mode,
        guarantee.exchange().as_bytes(),
        queue,
    )?;
    let mut keys = Keys::none(alloc);
    add_binding_keys(
        alloc,
        &mut keys,
        topology,
        of_bindings.as_slice(),
        met.as_slice(),
        leading.as_slice(),
    )?;
    add_queue_names(
        alloc,
        &mut keys,
        topology,
        of_default.as_slice(),
        met.as_slice(),
        leading.as_slice(),
    )?;
    add_excepts(alloc, &mut keys, guarantee)?;
    Ok(keys)
}

/// Returns whether `pattern` is one of `keys`.
fn is_key(keys: &Keys, pattern: &Tracked) -> bool {
    keys.has(pattern.kind(), pattern.text().as_bytes())
}

/// Appends `place` if `there` is set. Fails only if an allocation fails.
#[tactic(auto, using(crate::proofs::Placing::placed, crate::proofs::Placing::passed))]
fn add_place(places: &mut Vec<u64>, place: usize, there: bool) -> Result<(), AllocError>
    requires { RiseBelow place places.old.items }
    ensures { OnOk result (RiseBelow (place + 1) places.new.items) }
{
    if !there {
        return Ok(());
    }
    places.push(place as u64)?;
    Ok(())
}

/// Returns index 0, and that of each pattern of `list` that is one of `keys`. Fails only if an allocation fails.
fn places_of(alloc: Global, list: &[Tracked], keys: &Keys) -> Result<Vec<u64>, AllocError>
    requires { 0 < length list.now }
    ensures { IfOk result (λ places. AreIndices list.now places.items) }
{
    let mut places = Vec::new(alloc);
    places.push(0)?;
    for place in 1..list.len() {
        add_place(&mut places, place, is_key(keys, &list[place]))?;
    }
    Ok(places)
}

/// Returns the indices of the patterns that a slice tracks: that of the guarantee, those of `except`, and the keys of bindings whose
/// destination is the guarantee's queue or may lead to it. Fails only if an allocation fails.
pub fn indices_to(
    alloc: Global,
    topology: &Topology,
    guarantee: &Guarantee,
    list: &[Tracked],
) -> Result<Vec<u64>, AllocError>
    requires { 0 < length list.now }
    ensures { IfOk result (λ places. AreIndices list.now places.items) }
{
    let keys = keys_of(alloc, topology, guarantee)?;
    places_of(alloc, list, &keys)
}
