//! Decides whether a key leads to a queue.

ghost use Rattle.std.specs.Prelude.{Decides, IfOk, ◌≡◌, ◌==◌};
ghost use Rattle.std.specs.List.{list_any};
ghost use Rattle.model.specs.Topology.{IsIn};
ghost use Rattle.model.specs.Routing.{Routes};

use exchange_graph::Topology;
use std::alloc::{AllocError, Global};

/// Returns whether one of `indices` is `index`.
fn any_index(indices: &[usize], index: usize) -> bool
    ensures { result ≡ list_any (λ p. p == index) indices.now }
{
    indices.iter().any(|p| *p == index)
}

/// Returns whether `index` is one of `indices`.
fn has_index(indices: &[usize], index: usize) -> bool
    ensures { Decides result (IsIn index indices.now) }
{
    any_index(indices, index)
}

/// Returns whether `exchange` routes a message with `key` to `queue`. Fails only if an allocation fails.
pub fn is_routed(
    alloc: Global,
    topology: &Topology,
    exchange: &[u8],
    key: &[u8],
    queue: &[u8],
) -> Result<bool, AllocError>
    ensures { IfOk result (λ yes. Decides yes (Routes topology.now exchange.now key.now queue.now)) }
{
    topology.ghost_is_well_formed();
    let targets = topology.route(alloc, exchange, key)?;
    match topology.queue_at(queue) {
        Some(index) => Ok(has_index(targets.as_slice(), index)),
        None => Ok(false),
    }
}
