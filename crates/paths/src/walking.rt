//! Checks whether a path leads a message from name to name.

ghost use Rattle.std.specs.Prelude.{Decides, IfOk, OnOk, ◌≡◌};
ghost use Rattle.std.specs.List.{list_any};
ghost use Rattle.model.specs.Routing.{key_after};
ghost use Rattle.paths.specs.Keyed.{AddsAll, AreOneOn, WalksOn, IsPath, LeadsDead, NextLocation, is_queue};
ghost use Rattle.paths.specs.declared.keyed.KeyedPlace.TheVariants.{Exchange, Queue};

use crate::keyed::{KeyedPlace, add_if};
use exchange_graph::Topology;
use model::{DeclaredQueue, Text};
use std::alloc::{AllocError, Global};

/// Adds the places of a message at `next` that are one edge after the exchange `name`.
fn go_on(
    topology: &Topology,
    alloc: Global,
    name: &[u8],
    key: &Text,
    next: &[u8],
    locations: &mut Vec<KeyedPlace>,
) -> Result<(), AllocError>
    ensures { OnOk result (AddsAll (NextLocation topology.now name.now next.now (Exchange key.now)) locations.old.items locations.new.items) }
{
    let on = topology.leads_on(alloc, name, key.as_bytes(), next)?;
    let into = topology.leads_in(alloc, name, key.as_bytes(), next)?;
    add_if(locations, on, KeyedPlace::Exchange(key.clone()?))?;
    add_if(locations, into, KeyedPlace::Queue(key.clone()?))
}

/// Returns whether `next` is the queue's dead-letter exchange.
fn leads_dead(queue: &DeclaredQueue, next: &[u8]) -> bool
    ensures { Decides result (LeadsDead queue.now next.now) }
{
    match &queue.dead_letter_exchange {
        Some(name) => name.as_bytes() == next,
        None => false,
    }
}

/// Returns the key that a message with key `key` has once it dies in `queue`.
fn dead_key(queue: &DeclaredQueue, key: &Text) -> Result<Text, AllocError>
    ensures { IfOk result (λ k. k ≡ key_after queue.now.dead_letter_key key.now) }
{
    match &queue.dead_letter_key {
        Some(fixed) => fixed.clone(),
        None => key.clone(),
    }
}

/// Adds the place of a message at `next` after it died in the queue `name`, if `next` is that queue's dead-letter exchange.
fn die(
    topology: &Topology,
    name: &[u8],
    key: &Text,
    next: &[u8],
    locations: &mut Vec<KeyedPlace>,
) -> Result<(), AllocError>
    ensures { OnOk result (AddsAll (NextLocation topology.now name.now next.now (Queue key.now)) locations.old.items locations.new.items) }
{
    topology.ghost_is_well_formed();
    let Some(place) = topology.queue_at(name) else {
        return Ok(());
    };
    let queue = topology.queue(place);
    add_if(
        locations,
        leads_dead(queue, next),
        KeyedPlace::Exchange(dead_key(queue, key)?),
    )
}

/// Adds the places of a message at `next` that are one step after `location`.
fn step(
    topology: &Topology,
    alloc: Global,
    name: &[u8],
    location: &KeyedPlace,
    next: &[u8],
    locations: &mut Vec<KeyedPlace>,
) -> Result<(), AllocError>
    ensures { OnOk result (AddsAll (NextLocation topology.now name.now next.now location.now) locations.old.items locations.new.items) }
{
    match location {
        KeyedPlace::Exchange(key) => go_on(topology, alloc, name, key, next, locations),
        KeyedPlace::Queue(key) => die(topology, name, key, next, locations),
    }
}

/// Returns the places of a message at the name `next` that are one step after one of `locations`.
fn advance(
    topology: &Topology,
    alloc: Global,
    name: &[u8],
    locations: &[KeyedPlace],
    next: &[u8],
) -> Result<Vec<KeyedPlace>, AllocError>
    ensures { IfOk result (λ found. AreOneOn topology.now name.now next.now locations.now found.items) }
{
    let mut found = Vec::new(alloc);
    for location in locations {
        step(topology, alloc, name, location, next, &mut found)?;
    }
    Ok(found)
}

/// Returns whether one of `locations` is in a queue.
fn is_queued(locations: &[KeyedPlace]) -> bool
    ensures { result ≡ list_any is_queue locations.now }
{
    locations.iter().any(|location| match location {
        KeyedPlace::Exchange(_) => false,
        KeyedPlace::Queue(_) => true,
    })
}

/// Returns whether a message at `exchange` reaches `queue` along the names `rest`.
fn goes_on(
    topology: &Topology,
    alloc: Global,
    exchange: &[u8],
    key: &Text,
    queue: &[u8],
    rest: &[Text],
) -> Result<bool, AllocError>
    ensures { IfOk result (λ yes. Decides yes (WalksOn topology.now queue.now exchange.now rest.now (Exchange key.now))) }
{
    let mut locations = Vec::new(alloc);
    locations.push(KeyedPlace::Exchange(key.clone()?))?;
    let mut name = exchange;
    for next in rest {
        locations = advance(topology, alloc, name, locations.as_slice(), next.as_bytes())?;
        name = next.as_bytes();
    }
    Ok(name == queue && is_queued(locations.as_slice()))
}

/// Returns whether `path` leads a message with this key into `queue`: it begins with `exchange`, ends with the queue, and each name is
/// one edge after the one before, or is the dead-letter exchange of the queue before, which may set the key. Fails only if an allocation fails.
pub fn is_path(
    topology: &Topology,
    alloc: Global,
    exchange: &[u8],
    key: &Text,
    queue: &[u8],
    path: &[Text],
) -> Result<bool, AllocError>
    ensures { IfOk result (λ yes. Decides yes (IsPath topology.now exchange.now key.now queue.now path.now)) }
{
    match path.split_first() {
        Some((first, rest)) if first.as_bytes() == exchange => goes_on(
            topology, alloc, exchange, key, queue, rest,
        ),
        _ => Ok(false),
    }
}
