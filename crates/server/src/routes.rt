//! The routes of `route`, as lines. Start with [`routed`].

ghost use Rattle.std.specs.Prelude.{◌≡◌, ◌<◌, ◌++◌, ◌∷◌, [], length, All, Decides, IfOk, OnOk, option_map, slice_index_or};
ghost use Rattle.std.specs.List.{list_any};
ghost use Rattle.std.specs.Str.{bytes_eq};
ghost use Rattle.model.specs.Topology.{IsIn, exchange_names, queue_names};
ghost use Rattle.exchange_graph.specs.Targets.{names_at};
ghost use Rattle.scripts.specs.Transcript.{line, name_word};
ghost use Rattle.server.specs.Routes.{name_lines, HasExchange, ListsExchange, ListsRoutes};

use exchange_graph::Topology;
use model::{DeclaredQueue, Exchange};
use scripts::{name_word, put_line};
use std::alloc::{AllocError, Global};

/// Returns whether one of `exchanges` is called `name`.
fn any_exchange(exchanges: &[Exchange], name: &[u8]) -> bool
    ensures { result ≡ list_any (λ x. bytes_eq x.name name.now) exchanges.now }
{
    exchanges.iter().any(|x| x.name.as_bytes() == name)
}

/// Returns whether one of `exchanges` is called `name`.
fn has_name(exchanges: &[Exchange], name: &[u8]) -> bool
    ensures { Decides result (IsIn name.now (exchange_names exchanges.now)) }
{
    any_exchange(exchanges, name)
}

/// Returns whether the topology has an exchange called `name`. The default exchange `""` always exists.
fn has_exchange(topology: &Topology, name: &[u8]) -> bool
    ensures { Decides result (HasExchange topology.now name.now) }
{
    if name.is_empty() {
        return true;
    }
    has_name(topology.exchanges(), name)
}

/// Appends the line of a queue. Fails only if an allocation fails.
fn put_name(alloc: Global, text: &mut Vec<u8>, queue: &DeclaredQueue) -> Result<(), AllocError>
    ensures { OnOk result (text.new.items ≡ text.old.items ++ line (name_word queue.now.name ∷ [])) }
{
    let word = name_word(alloc, queue.name.as_bytes())?;
    put_line(text, format!(in alloc; "{word}\n")?)
}

/// Appends the line of the queue at index `place`. Fails only if an allocation fails.
fn put_queue(
    alloc: Global,
    text: &mut Vec<u8>,
    queues: &[DeclaredQueue],
    place: usize,
) -> Result<(), AllocError>
    requires { place < length queues.now }
    ensures { OnOk result (text.new.items ≡ text.old.items ++ line (name_word (slice_index_or (queue_names queues.now) place []) ∷ [])) }
{
    put_name(alloc, text, &queues[place])
}

/// Appends the lines of the queues at the indices `places`. Fails only if an allocation fails.
fn put_queues(
    alloc: Global,
    text: &mut Vec<u8>,
    queues: &[DeclaredQueue],
    places: &[usize],
) -> Result<(), AllocError>
    requires { All (λ i. i < length queues.now) places.now }
    ensures { OnOk result (text.new.items ≡ text.old.items ++ name_lines (names_at (queue_names queues.now) places.now)) }
{
    for place in places {
        put_queue(alloc, text, queues, *place)?;
    }
    Ok(())
}

/// Returns the lines of the queues to which `key` leads from `exchange`. Fails only if an allocation fails.
fn route_text(
    alloc: Global,
    topology: &Topology,
    exchange: &[u8],
    key: &[u8],
) -> Result<Vec<u8>, AllocError>
    ensures { IfOk result (λ text. ListsRoutes topology.now exchange.now key.now text.items) }
{
    let targets = topology.route(alloc, exchange, key)?;
    let mut text = Vec::new(alloc);
    put_queues(alloc, &mut text, topology.queues(), targets.as_slice())?;
    Ok(text)
}

/// Returns a line for each queue to which `key` leads from `exchange`: its name as a compact JSON string. The order is that of
/// the file.
///
/// Returns `None` if the exchange doesn't exist; the default exchange `""` always does. Fails only if an allocation fails.
pub fn routed(
    alloc: Global,
    topology: &Topology,
    exchange: &[u8],
    key: &[u8],
) -> Result<Option<Vec<u8>>, AllocError>
    ensures { IfOk result (λ text. ListsExchange topology.now exchange.now key.now (option_map (λ t. t.items) text)) }
{
    if !has_exchange(topology, exchange) {
        return Ok(None);
    }
    Ok(Some(route_text(alloc, topology, exchange, key)?))
}
