//! Finds the obstacle to a reload. Start here.

ghost use Rattle.std.specs.Prelude.{IfOk, OnErr};
ghost use Rattle.reloading.specs.Obstacles.{JudgesReload};
ghost use Rattle.reloading.specs.Allocating.{JudgingQueuesMayAllocate};

use crate::breaches::first_breach;
use crate::live_queues::LiveQueues;
use crate::orphaned::first_orphaned;
use exchange_graph::Topology;
use guarantees::Guarantee;
use model::Obstacle;
use std::alloc::{AllocError, Global};

/// Returns the first obstacle to a reload from `old` to `topology` and `guarantees`, or `None` if there is none. Changes nothing. Fails only if an
/// allocation fails. It may allocate only if each queue in use is declared in `topology` and one of `guarantees` is a `never`, or if the first queue
/// in use that is not declared has a name of more than 22 bytes.
///
/// First come queues in use that `topology` lacks, in the order of `old`. Then come, guarantee by guarantee, queue by queue of `old` and entry by
/// entry, messages that could reach, by dead-lettering, a queue that the guarantee forbids to them.
pub fn obstacle<S: LiveQueues>(
    alloc: Global,
    live: &S,
    old: &Topology,
    topology: &Topology,
    guarantees: &[Guarantee],
) -> Result<Option<Obstacle>, AllocError>
    ensures reported { IfOk result (JudgesReload old.now (S.entries live.now) (S.consumed live.now) topology.now guarantees.now) }
    // When it may fail to allocate (`JudgingMayAllocate`).
    ensures wants { OnErr result (JudgingQueuesMayAllocate old.now (S.entries live.now) (S.consumed live.now) topology.now guarantees.now) }
{
    match first_orphaned(live, old, topology)? {
        Some(orphaned) => Ok(Some(orphaned)),
        None => first_breach(alloc, live, old, topology, guarantees),
    }
}
