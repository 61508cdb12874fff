//! What a message reaches under one key, kept so that it can be asked for several queues.

ghost use Rattle.std.specs.Prelude.{◌≡◌, IfOk};
ghost use Rattle.paths.specs.Exploring.{AreExplored};

use crate::exploring::explore;
use crate::visits::Visit;
use exchange_graph::Topology;
use std::alloc::{AllocError, Global};
use std::marker::Model;

/// What a message reaches under one key. [`Leading::leads`](crate::Leading::leads) finds from it whether the message ever reaches a queue.
#[derive(Drop)]
pub struct Explored {
    visits: Vec<Visit>,
}

impl Model for Explored {
    ghost use Rattle.std.specs.Prelude.{List};
    ghost use Rattle.paths.specs.declared.visits.Visit.{Visit as Seen};

    ghost Value = { List Seen };

    ghost view = { λ e. e.visits.items };
}

impl Explored {
    /// Explores what a message that is sent to `exchange` under `key` reaches as long as it keeps that key. Fails only if an allocation fails.
    pub fn of(
        alloc: Global,
        topology: &Topology,
        exchange: &[u8],
        key: &[u8],
    ) -> Result<Explored, AllocError>
        ensures { IfOk result (AreExplored topology.now exchange.now key.now) }
    {
        let visits = explore(alloc, topology, exchange, key)?;
        Ok(Explored { visits })
    }

    /// Returns what was reached.
    pub(crate) fn visits(&self) -> &[Visit]
        ensures { result.now ≡ self.now }
    {
        self.visits.as_slice()
    }
}
