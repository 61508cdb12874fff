//! Finds queues in use that a new topology lacks.

ghost use Rattle.std.specs.Prelude.{◌≡◌, IfOk, OnErr, Decides, Some};
ghost use Rattle.model.specs.Topology.{queue_names};
ghost use Rattle.model.specs.declared.obstacles.Obstacle.TheVariants.{InUse};
ghost use Rattle.reloading.specs.First.{ReportsFirst};
ghost use Rattle.reloading.specs.Obstacles.{IsUsed, ReportsQueue, ReportsUse};
ghost use Rattle.reloading.specs.Allocating.{FirstIsLong, IsLong};

use crate::live_queues::LiveQueues;
use exchange_graph::Topology;
use model::{Obstacle, Text};
use std::alloc::AllocError;

/// The most bytes of a name that is copied without an allocation.
const MOST_SHORT: usize = 22;

/// Returns whether a message is in the queue at index `place`, ready or held, or a consumer takes from it.
fn is_used<S: LiveQueues>(live: &S, place: usize) -> bool
    ensures { Decides result (IsUsed (S.entries live.now place) (S.consumed live.now place)) }
{
    live.walk(place).next().is_some() || live.is_consumed(place)
}

/// Returns a copy of a name. Fails only if the name has more than 22 bytes and the allocation fails.
fn copied_name(name: &Text) -> Result<Text, AllocError>
    ensures same { IfOk result (λ t. t ≡ name.now) }
    ensures wants { OnErr result (IsLong name.now) }
{
    if name.len() <= MOST_SHORT {
        return Ok(Text::short(name.as_bytes()));
    }
    name.clone()
}

/// Returns the obstacle of the queue at index `place`, which the new topology lacks, if it is in use.
fn gone_at<S: LiveQueues>(
    live: &S,
    place: usize,
    queue: &Text,
) -> Result<Option<Obstacle>, AllocError>
    ensures reported { IfOk result (λ o. ReportsUse (S.entries live.now place) (S.consumed live.now place) queue.now o) }
    ensures used { OnErr result (ReportsUse (S.entries live.now place) (S.consumed live.now place) queue.now (Some (InUse queue.now))) }
    ensures wants { OnErr result (IsLong queue.now) }
{
    if is_used(live, place) {
        return Ok(Some(Obstacle::InUse(copied_name(queue)?)));
    }
    Ok(None)
}

/// Returns the obstacle of the queue at index `place`, if it is in use and the new topology lacks it.
fn orphaned_at<S: LiveQueues>(
    live: &S,
    topology: &Topology,
    place: usize,
    queue: &Text,
) -> Result<Option<Obstacle>, AllocError>
    ensures reported { IfOk result (λ o. ReportsQueue topology.now (S.entries live.now) (S.consumed live.now) place queue.now o) }
    ensures orphaned { OnErr result (ReportsQueue topology.now (S.entries live.now) (S.consumed live.now) place queue.now (Some (InUse queue.now))) }
    ensures wants { OnErr result (IsLong queue.now) }
{
    match topology.queue_at(queue.as_bytes()) {
        Some(_) => Ok(None),
        None => gone_at(live, place, queue),
    }
}

/// Returns the first queue in use that the new topology lacks, as an obstacle. Fails only if its name has more than 22 bytes and the allocation fails.
pub fn first_orphaned<S: LiveQueues>(
    live: &S,
    old: &Topology,
    topology: &Topology,
) -> Result<Option<Obstacle>, AllocError>
    ensures reported { IfOk result (λ o. ReportsFirst (ReportsQueue topology.now (S.entries live.now) (S.consumed live.now)) (queue_names old.now.queues) o) }
    ensures wants { OnErr result (FirstIsLong topology.now (queue_names old.now.queues) (S.entries live.now) (S.consumed live.now)) }
{
    for place in 0..old.queues().len() {
        let queue = &old.queue(place).name;
        match orphaned_at(live, topology, place, queue)? {
            Some(first) => return Ok(Some(first)),
            None => {}
        }
    }
    Ok(None)
}
