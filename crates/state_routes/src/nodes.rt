//! The exchanges and queues of a topology as numbered nodes.

ghost use Rattle.std.specs.Prelude.{◌≡◌, ◌+◌, ◌<◌, ◌≤◌, length, IfOk};
ghost use Rattle.exchange_graph.specs.Fans.{exchange_index};
ghost use Rattle.state_routes.specs.Nodes.{alternate_links, any_links, end_node, link_of, links_of, node};

use exchange_graph::Topology;
use model::{Binding, Destination, Exchange};
use paths::Hop;
use std::alloc::{AllocError, Global};

/// Returns the index of the exchange `name`, or the number of exchanges if there is none.
fn exchange_index(topology: &Topology, name: &[u8]) -> usize
    ensures is { result ≡ exchange_index topology.now.exchanges name.now }
    ensures within { result ≤ length topology.now.exchanges }
{
    match topology.exchange_at(name) {
        Some(place) => place,
        None => topology.exchanges().len(),
    }
}

/// Returns the node of the exchange `name`: 2 for the default exchange, otherwise 3 more than its index.
pub fn node(topology: &Topology, name: &[u8]) -> usize
    ensures is { result ≡ node topology.now.exchanges name.now }
    ensures within { result < length topology.now.exchanges + 4 }
{
    topology.ghost_is_buildable();
    if name.is_empty() {
        return 2;
    }
    exchange_index(topology, name) + 3
}

/// Returns the node where a binding ends: 0 for `queue`, 1 for any other queue, otherwise the exchange's.
fn end_node(topology: &Topology, queue: &[u8], to: &Destination) -> usize
    ensures { result ≡ end_node topology.now.exchanges queue.now to.now }
{
    match to {
        Destination::Exchange(name) => node(topology, name.as_bytes()),
        Destination::Queue(name) => { if name.as_bytes() == queue { 0 } else { 1 } }
    }
}

/// Returns the nodes that `binding` connects.
pub fn link_of(topology: &Topology, queue: &[u8], binding: &Binding) -> Hop
    ensures { result ≡ link_of topology.now.exchanges queue.now binding.now }
{
    Hop {
        from: node(topology, binding.source.as_bytes()),
        to: end_node(topology, queue, &binding.to),
    }
}

/// Returns the nodes that each of `bindings` connects. Fails only if an allocation fails.
fn links_of(
    alloc: Global,
    topology: &Topology,
    queue: &[u8],
    bindings: &[Binding],
) -> Result<Vec<Hop>, AllocError>
    ensures { IfOk result (λ links. links.items ≡ links_of topology.now.exchanges queue.now bindings.now) }
{
    let mut links = Vec::new(alloc);
    for binding in bindings {
        links.push(link_of(topology, queue, binding))?;
    }
    Ok(links)
}

/// Returns the nodes that the alternate exchange of each of `exchanges` connects. Fails only if an allocation fails.
pub fn alternate_links(
    alloc: Global,
    topology: &Topology,
    exchanges: &[Exchange],
) -> Result<Vec<Hop>, AllocError>
    ensures { IfOk result (λ links. links.items ≡ alternate_links topology.now.exchanges exchanges.now) }
{
    let mut links = Vec::new(alloc);
    for exchange in exchanges {
        if let Some(other) = &exchange.alternate {
            links.push(Hop {
                from: node(topology, exchange.name.as_bytes()),
                to: node(topology, other.as_bytes()),
            })?;
        }
    }
    Ok(links)
}

/// Returns the links of all bindings and alternate exchanges. Fails only if an allocation fails.
pub fn any_links(alloc: Global, topology: &Topology, queue: &[u8]) -> Result<Vec<Hop>, AllocError>
    ensures { IfOk result (λ links. links.items ≡ any_links topology.now queue.now) }
{
    let mut links = links_of(alloc, topology, queue, topology.bindings())?;
    let alternates = alternate_links(alloc, topology, topology.exchanges())?;
    links.extend_from_slice(alternates.as_slice())?;
    Ok(links)
}
