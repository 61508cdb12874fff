//! A publish: planned with all its allocations, and then performed, which can't fail.

ghost use Rattle.std.specs.Prelude.{◌≡◌, ◌+◌, ◌<◌, ◌≤◌, length, All, AllPairs, IfOk, IfSome, OnOk, OnErr, vec_len, vec_capacity};
ghost use Rattle.std.specs.Arc.{arc_value};
ghost use Rattle.model.specs.declared.notes.Note.TheVariants.{Published};
ghost use Rattle.exchange_graph.specs.Routers.{IsRoute};
ghost use Rattle.depot.specs.Store.{entries_of};
ghost use Rattle.depot.specs.Turns.{EntersAt};

use crate::depots::Routed;
use crate::entering::{enter_all, make_room, turns};
use crate::queues::Queues;
use exchange_graph::{Route, Router, Topology};
use model::{ChannelId, Message, Note, Publish};
use notes::Notes;
use std::alloc::{AllocError, Global};
use std::sync::Arc;

/// Returns the route of `publish`: `known` if it is given, otherwise looks it up and remembers it. Fails only if an allocation fails.
pub(crate) fn route_of(
    alloc: Global,
    router: &mut Router,
    publish: &Publish,
    known: Option<Arc<Route>>,
) -> Result<Arc<Route>, AllocError>
    requires { IfSome known (λ r. IsRoute router.old publish.now.exchange publish.now.routing_key (arc_value r)) }
    ensures route { IfOk result (λ r. IsRoute router.old publish.now.exchange publish.now.routing_key (arc_value r)) }
    ensures same { router.new ≡ router.old }
{
    match known {
        Some(route) => Ok(route),
        None => router.learn(alloc, &publish.exchange, &publish.routing_key),
    }
}

/// Returns the note that `publish` came on channel `id` as publish `number`. Fails only if an allocation fails.
pub(crate) fn note_of(
    number: u64,
    id: ChannelId,
    publish: &Publish,
    confirm: Option<u64>,
) -> Result<Note, AllocError>
    ensures { IfOk result (λ note. note ≡ Published number id.connection id.number publish.now.exchange publish.now.routing_key confirm) }
{
    Ok(Note::Published {
        number,
        connection: id.connection,
        channel: id.number,
        exchange: publish.exchange.clone()?,
        key: publish.routing_key.clone()?,
        confirm,
    })
}

/// Appends `message` to each queue with an index in `targets` that is not full. Fails only if an allocation fails; nothing has changed then.
pub(crate) fn publish_to_many(
    alloc: Global,
    topology: &Topology,
    queues: &mut Queues,
    targets: &[usize],
    message: Message,
    first: Note,
    notes: &mut Notes,
) -> Result<Routed, AllocError>
    // What the caller knows: the targets are queues of the topology, each once.
    requires len { length queues.old ≡ length topology.now.queues }
    requires within { All (λ i. i < length topology.now.queues) targets.now }
    requires rising { AllPairs (λ i j. i < j) targets.now }
    // The promise.
    ensures ok { IfOk result (λ routed. EntersAt topology.now targets.now queues.old queues.new message first notes.old notes.new routed) }
    ensures len { length queues.new ≡ length queues.old }
    // A failure changes neither the queues nor the notes.
    ensures room { OnOk result (vec_len notes.new + 2 ≤ vec_capacity notes.new) }
    ensures queues { OnErr result (entries_of queues.new ≡ entries_of queues.old) }
    ensures notes { OnErr result (notes.new.items ≡ notes.old.items) }
{
    let turns = turns(alloc, topology.queues(), targets, &message)?;
    make_room(queues, &turns, 1)?;
    notes.reserve_exact(turns.len() + 3)?;
    notes.push_reserved(first);
    let is_none = turns.is_empty();
    let is_some_full = enter_all(topology.queues(), queues, turns, notes);
    Ok(Routed {
        is_none,
        is_some_full,
    })
}
