//! The obstacle to a reload.

use crate::cores::Core;
use depot::ghost_indices_are_named;
use exchange_graph::Topology;
use guarantees::Guarantee;
use model::Obstacle;
use queue::Walk;
use reloading::{LiveQueues, obstacle};
use std::alloc::{AllocError, Global};

impl LiveQueues for Core {
    ghost use Rattle.channels.specs.Counting.{is_consumed};
    ghost use Rattle.depot.specs.Store.{queue_at};

    ghost entries = { λ kept place. queue_at kept.store place };

    ghost consumed = { λ kept place. is_consumed kept.connections place };

    fn walk(&self, queue: usize) -> Walk<'_> {
        self.depot.walk(queue)
    }

    fn is_consumed(&self, queue: usize) -> bool {
        self.connections.is_consumed(queue)
    }
}

impl Core {
    ghost use Rattle.std.specs.Prelude.{IfOk, OnErr};
    ghost use Rattle.commands.specs.State.{broker_of, topology_kept};
    ghost use Rattle.commands.specs.Obstacles.{ReportsObstacle};
    ghost use Rattle.reloading.specs.Allocating.{JudgingMayAllocate};

    /// Returns the first obstacle to a reload to `topology` and `guarantees`, or `None` if there is none; users don't matter.
    /// Fails only if an allocation fails. It may allocate only if each queue in use is declared in `topology` and one of `guarantees` is a `never`, or
    /// if the first queue in use that is not declared has a name of more than 22 bytes.
    pub fn obstacle(
        &self,
        alloc: Global,
        topology: &Topology,
        guarantees: &[Guarantee],
    ) -> Result<Option<Obstacle>, AllocError>
        ensures reported { IfOk result (ReportsObstacle (topology_kept self.now) (broker_of self.now) topology.now guarantees.now) }
        ensures wants { OnErr result (JudgingMayAllocate (topology_kept self.now) topology.now guarantees.now (broker_of self.now)) }
    {
        self.depot.ghost_is_whole();
        ghost_indices_are_named();
        self.connections.ghost_takers_are_found();
        obstacle(alloc, self, self.depot.topology(), topology, guarantees)
    }
}
