//! Puts another topology in force.

use crate::cores::Core;
use channels::ghost_moves_are_unseen;
use depot::Depot;
use exchange_graph::Topology;
use std::alloc::{AllocError, Global};
use std::mem;

impl Core {
    ghost use Rattle.std.specs.Prelude.{◌≡◌, IfOk, OnOk, OnErr};
    ghost use Rattle.model.specs.Topology.{queue_names};
    ghost use Rattle.model.specs.Agreement.{IsAgreed};
    ghost use Rattle.model.specs.Reloading.{NoneIsOrphaned, with_all_survived};
    ghost use Rattle.model.specs.Step.{Is};
    ghost use Rattle.depot.specs.Store.{IsStoreWhole};
    ghost use Rattle.depot.specs.Moving.{AreMoved};
    ghost use Rattle.channels.specs.Counting.{HasChannels};
    ghost use Rattle.commands.specs.State.{broker_of, topology_kept, names_of, ArePlaced};

    /// Shows the invariant of a core. Does nothing at run time.
    pub fn ghost_is_kept(&self)
        ensures whole { IsStoreWhole self.now.store }
        ensures placed { ArePlaced self.now }
        ensures listed { HasChannels self.now.connections }
    {
        self.depot.ghost_is_whole();
        self.connections.ghost_channels_are_listed();
    }

    /// Puts `topology` in force, and returns the new index of each queue; each queue in use is declared in it. Each message stays in the queue of its
    /// name and is marked as one that the reload found there; connections and channels are unchanged. Fails only if an allocation fails; nothing has
    /// changed then.
    pub fn reload(&mut self, alloc: Global, topology: Topology) -> Result<Vec<usize>, AllocError>
        requires agreed { IsAgreed (broker_of self.old) }
        requires kept { NoneIsOrphaned (topology_kept self.old) topology (broker_of self.old) }
        // The new topology is in force, messages are marked, and queues have their new indices.
        ensures topology { OnOk result (topology_kept self.new ≡ topology) }
        ensures survived { OnOk result (Is (with_all_survived (broker_of self.old)) (broker_of self.new)) }
        ensures moved { IfOk result (λ places. AreMoved (names_of self.old) (queue_names topology.queues) places.items) }
        // A failure changes nothing.
        ensures err { OnErr result (self.new ≡ self.old) }
    {
        let places = self.depot.indices_in(alloc, &topology)?;
        let depot = Depot::new(alloc, topology)?;
        ghost_moves_are_unseen();
        let old = mem::replace(&mut self.depot, depot);
        self.depot.take_over(old, &places);
        self.connections.renumber(&places);
        Ok(places)
    }
}
