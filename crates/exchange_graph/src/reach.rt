//! Finds the queues that a key leads to, and the exchanges on the way. Start with `find` and `see`.

ghost use Rattle.std.specs.Prelude.{◌≡◌, ◌<◌, [], length, OnOk};
ghost use Rattle.model.specs.Topology.{IsWellFormed};
ghost use Rattle.exchange_graph.specs.Marks.{
  AreFound,
  AreMet,
  AreSeen,
  Expands,
  MarksHaveRoom,
  Reaching,
  exchange_name,
};

use crate::ends::End;
use crate::marks::{mark_all, mark_one, pending, unmark};
use crate::scratches::Scratch;
use crate::topologies::Topology;
use std::alloc::{AllocError, Global};

/// Marks the next steps from the exchange at index `place`, and marks it as done. Fails only if an allocation fails.
fn expand(
    topology: &Topology,
    alloc: Global,
    place: usize,
    key: &[u8],
    ends: &mut Vec<End>,
    seen: &mut [bool],
    found: &mut [bool],
    done: &mut [bool],
) -> Result<(), AllocError>
    requires within { place < length topology.now.exchanges }
    requires room { MarksHaveRoom topology.now seen.old found.old }
    requires done { length done.old ≡ length topology.now.exchanges }
    ensures { OnOk result (Expands topology.now key.now place seen.old found.old done.old seen.new found.new done.new) }
{
    topology.find_steps(alloc, place, key, ends)?;
    mark_all(ends.as_slice(), seen, found);
    done[place] = true;
    Ok(())
}

/// Marks all that the marked exchanges lead to. Fails only if an allocation fails.
fn spread(
    topology: &Topology,
    alloc: Global,
    start: &[u8],
    key: &[u8],
    ends: &mut Vec<End>,
    seen: &mut [bool],
    found: &mut [bool],
    done: &mut [bool],
) -> Result<(), AllocError>
    requires { Reaching topology.now start.now key.now seen.old found.old done.old }
    ensures { OnOk result (AreMet topology.now start.now key.now seen.new found.new) }
{
    topology.ghost_is_well_formed();
    'passes: while let Some(place) = pending(seen, done) {
        expand(topology, alloc, place, key, ends, seen, found, done)?;
    }
    Ok(())
}

/// Marks what a message with `key` meets from the exchange at index `place`. Fails only if an allocation fails.
fn meet_from(
    topology: &Topology,
    alloc: Global,
    scratch: &mut Scratch,
    place: usize,
    exchange: &[u8],
    key: &[u8],
) -> Result<(), AllocError>
    requires within { place < length topology.now.exchanges }
    requires named { exchange_name topology.now place ≡ exchange.now }
    ensures { OnOk result (AreMet topology.now exchange.now key.now scratch.new.seen.items scratch.new.found.items) }
{
    mark_one(&mut scratch.seen, topology.exchanges().len(), place)?;
    unmark(&mut scratch.found, topology.queues().len())?;
    unmark(&mut scratch.done, topology.exchanges().len())?;
    spread(
        topology,
        alloc,
        exchange,
        key,
        &mut scratch.ends,
        scratch.seen.as_mut_slice(),
        scratch.found.as_mut_slice(),
        scratch.done.as_mut_slice(),
    )
}

/// Marks the queue that the default exchange leads to: the one whose name is `key`, if any. Fails only if an allocation fails.
fn find_by_name(topology: &Topology, found: &mut Vec<bool>, key: &[u8]) -> Result<(), AllocError>
    ensures { OnOk result (AreFound topology.now [] key.now found.new.items) }
{
    topology.ghost_is_well_formed();
    match topology.queue_at(key) {
        Some(place) => mark_one(found, topology.queues().len(), place),
        None => unmark(found, topology.queues().len()),
    }
}

/// Marks in `scratch.found` the queues that `exchange` routes a message with `key` to. Fails only if an allocation fails.
pub fn find(
    topology: &Topology,
    alloc: Global,
    scratch: &mut Scratch,
    exchange: &[u8],
    key: &[u8],
) -> Result<(), AllocError>
    ensures { OnOk result (AreFound topology.now exchange.now key.now scratch.new.found.items) }
{
    if exchange.is_empty() {
        return find_by_name(topology, &mut scratch.found, key);
    }
    match topology.exchange_at(exchange) {
        Some(place) => meet_from(topology, alloc, scratch, place, exchange, key),
        None => unmark(&mut scratch.found, topology.queues().len()),
    }
}

/// Marks in `scratch.seen` the exchanges that a message with `key` passes from `exchange`, which is one of them if it exists.
/// The default exchange is not in the list. Fails only if an allocation fails.
pub fn see(
    topology: &Topology,
    alloc: Global,
    scratch: &mut Scratch,
    exchange: &[u8],
    key: &[u8],
) -> Result<(), AllocError>
    ensures { OnOk result (AreSeen topology.now exchange.now key.now scratch.new.seen.items) }
{
    match topology.exchange_at(exchange) {
        Some(place) => meet_from(topology, alloc, scratch, place, exchange, key),
        None => unmark(&mut scratch.seen, topology.exchanges().len()),
    }
}
