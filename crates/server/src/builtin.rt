//! The built-in topology, over which a script runs if no definitions are named.

ghost use Rattle.std.specs.Prelude.{◌≡◌, IfOk};
ghost use Rattle.server.specs.Stated.{built_in};

use exchange_graph::Topology;
use model::{Binding, DeclaredQueue, Destination, Exchange, ExchangeKind, Text};
use std::alloc::{AllocError, Global};
use topology_drafts::BadTopology;

/// Builds the direct exchange `orders`. Fails only if an allocation fails.
fn orders(alloc: Global) -> Result<Vec<Exchange>, AllocError>
    ensures { IfOk result (λ exchanges. exchanges.items ≡ built_in.exchanges) }
{
    let mut exchanges = Vec::new(alloc);
    exchanges.push(Exchange {
        name: Text::from_slice(alloc, b"orders")?,
        kind: ExchangeKind::Direct,
        internal: false,
        alternate: None,
    })?;
    Ok(exchanges)
}

/// Builds the queue `audit`. Fails only if an allocation fails.
fn audit(alloc: Global) -> Result<Vec<DeclaredQueue>, AllocError>
    ensures { IfOk result (λ queues. queues.items ≡ built_in.queues) }
{
    let mut queues = Vec::new(alloc);
    queues.push(DeclaredQueue {
        name: Text::from_slice(alloc, b"audit")?,
        limit: None,
        byte_limit: None,
        dead_letter_exchange: None,
        dead_letter_key: None,
    })?;
    Ok(queues)
}

/// Builds the binding of `audit` to `orders` with the key `new`. Fails only if an allocation fails.
fn new_orders(alloc: Global) -> Result<Vec<Binding>, AllocError>
    ensures { IfOk result (λ bindings. bindings.items ≡ built_in.bindings) }
{
    let mut bindings = Vec::new(alloc);
    bindings.push(Binding {
        source: Text::from_slice(alloc, b"orders")?,
        to: Destination::Queue(Text::from_slice(alloc, b"audit")?),
        key: Text::from_slice(alloc, b"new")?,
    })?;
    Ok(bindings)
}

/// Builds the built-in topology. Fails only if an allocation fails.
pub(crate) fn builtin(alloc: Global) -> Result<Topology, AllocError>
    ensures { IfOk result (λ topology. topology ≡ built_in) }
{
    match Topology::build(alloc, orders(alloc)?, audit(alloc)?, new_orders(alloc)?) {
        Ok(topology) => Ok(topology),
        Err(BadTopology::Memory) => Err(AllocError),
        Err(_) => unreachable!(),
    }
}
