//! Queues that a message is routed to.

ghost use Rattle.std.specs.Prelude.{IfOk, IfErr};
ghost use Rattle.topology_drafts.specs.Causes.{IsTopologyRefused};
ghost use Rattle.exchange_graph.specs.Built.{declared_by};
ghost use Rattle.exchange_graph.specs.Targets.{AreTargets};

use exchange_graph::{Bad, Topology};
use model::{Binding, DeclaredQueue, Exchange};
use std::alloc::Global;

/// Builds a topology, and returns the indices in `queues` of those that a message sent to `exchange` under `key` is routed
/// to, ascending. Refused with the first cause that forbids the topology; [`Bad::Memory`] only if an allocation fails.
pub fn ask_route(
    alloc: Global,
    exchanges: Vec<Exchange>,
    queues: Vec<DeclaredQueue>,
    bindings: Vec<Binding>,
    exchange: &[u8],
    key: &[u8],
) -> Result<Vec<usize>, Bad>
    ensures routed { IfOk result (λ targets. AreTargets (declared_by exchanges.items queues.items bindings.items) exchange.now key.now targets.items) }
    ensures refused { IfErr result (λ bad. IsTopologyRefused bad (declared_by exchanges.items queues.items bindings.items)) }
{
    let topology = Topology::build(alloc, exchanges, queues, bindings)?;
    let targets = topology.route(alloc, exchange, key)?;
    Ok(targets)
}
