//! What a rejection is going to do.

use crate::arrivals::Arrival;
use crate::markers::Marker;
use crate::tallies::Tallies;
use exchange_graph::Route;
use model::Message;
use std::alloc::Global;
use std::collections::HashMap;
use std::sync::Arc;

/// A dead letter, with its route.
#[derive(Drop)]
pub(crate) struct Letter {
    pub(crate) message: Message,
    pub(crate) route: Arc<Route>,
}

/// The dead letters that enter queues, and what it takes to find them. A dead letter that is refused everywhere takes no memory here.
#[derive(Drop)]
pub(crate) struct Plan {
    pub(crate) arrivals: Vec<Arrival>,
    pub(crate) tallies: Tallies,
    pub(crate) marker: Marker,
}

impl Plan {
    ghost use Rattle.std.specs.Prelude.{◌≡◌, []};

    /// Makes a plan of which nothing is decided. Never allocates.
    pub(crate) fn new(alloc: Global) -> Plan
        ensures arrivals { result.arrivals.items ≡ [] }
        ensures tallies { result.tallies.entries ≡ [] }
    {
        Plan {
            arrivals: Vec::new(alloc),
            tallies: HashMap::new(alloc),
            marker: Marker::new(),
        }
    }
}
