//! The conditions on a topology, one by one.

ghost use Rattle.std.specs.Prelude.{Decides, ℕ, List, MatchResult, All, ◌≡◌, Some};
ghost use Rattle.model.specs.declared.topologies.Binding.{Binding as Bound};
ghost use Rattle.topic_match.specs.Patterns.{IsPattern};
ghost use Rattle.topology_drafts.specs.Causes.{
  AlternateIsThere,
  DeadLettersLead,
  IsDestination,
  IsExchange,
  IsNamed,
  IsWorded,
  Joins,
  KeyHasExchange,
};

use crate::directory::Directory;
use model::{Binding, DeclaredQueue, Destination, Exchange, limits};
use topic_match::is_pattern;

/// Returns whether `name` is one of `exchanges`. The default exchange is not.
fn is_exchange(exchanges: &Directory<'_, Exchange>, name: &[u8]) -> bool
    ensures { Decides result (IsExchange exchanges.now name.now) }
{
    !name.is_empty() && exchanges.has(name)
}

/// Returns whether the exchange or queue `to` exists.
fn is_destination(
    exchanges: &Directory<'_, Exchange>,
    queues: &Directory<'_, DeclaredQueue>,
    to: &Destination,
) -> bool
    ensures { Decides result (IsDestination exchanges.now queues.now to.now) }
{
    match to {
        Destination::Exchange(name) => is_exchange(exchanges, name.as_bytes()),
        Destination::Queue(name) => queues.has(name.as_bytes()),
    }
}

/// Returns whether the source and the destination of `binding` exist.
fn joins(
    exchanges: &Directory<'_, Exchange>,
    queues: &Directory<'_, DeclaredQueue>,
    binding: &Binding,
) -> bool
    ensures { Decides result (Joins exchanges.now queues.now binding.now) }
{
    is_exchange(exchanges, binding.source.as_bytes())
        && is_destination(exchanges, queues, &binding.to)
}

/// Returns whether `queue` has a dead-letter exchange, if it has a dead-letter key.
fn key_has_exchange(queue: &DeclaredQueue) -> bool
    ensures { Decides result (KeyHasExchange queue.now) }
{
    queue.dead_letter_key.is_none() || queue.dead_letter_exchange.is_some()
}

/// Returns whether the exchange's name has from 1 to 255 bytes.
fn is_named(exchange: &Exchange) -> bool
    ensures { Decides result (IsNamed exchange.now) }
{
    exchange.name.len() != 0 && exchange.name.len() <= limits::SHORT_BYTES
}

/// Returns whether the queue's dead-letter key, if it has one, is a topic pattern.
fn key_is_pattern(queue: &DeclaredQueue) -> bool
    ensures { Decides result ((key : List ℕ) → queue.now.dead_letter_key ≡ Some key → IsPattern key) }
{
    match &queue.dead_letter_key {
        Some(key) => is_pattern(key.as_bytes()),
        None => true,
    }
}

/// Returns whether the queue's name is a topic pattern of at least one word, and its dead-letter key a topic pattern.
fn is_worded(queue: &DeclaredQueue) -> bool
    ensures { Decides result (IsWorded queue.now) }
{
    queue.name.len() != 0 && is_pattern(queue.name.as_bytes()) && key_is_pattern(queue)
}

/// Returns whether the binding key is a topic pattern.
fn is_keyed(binding: &Binding) -> bool
    ensures { Decides result (IsPattern binding.now.key) }
{
    is_pattern(binding.key.as_bytes())
}

/// Returns whether the alternate exchange of `exchange`, if it has one, is one of `exchanges`.
fn alternate_is_there(exchanges: &Directory<'_, Exchange>, exchange: &Exchange) -> bool
    ensures { Decides result (AlternateIsThere exchanges.now exchange.now) }
{
    match &exchange.alternate {
        Some(name) => exchanges.has(name.as_bytes()),
        None => true,
    }
}

/// Returns whether the dead-letter exchange of `queue`, if it has one, is one of `exchanges` or the default one.
fn dead_letters_lead(exchanges: &Directory<'_, Exchange>, queue: &DeclaredQueue) -> bool
    ensures { Decides result (DeadLettersLead exchanges.now queue.now) }
{
    match &queue.dead_letter_exchange {
        Some(name) => name.len() == 0 || exchanges.has(name.as_bytes()),
        None => true,
    }
}

/// Returns whether the sources and destinations of all `bindings` exist.
pub fn all_join(
    exchanges: &Directory<'_, Exchange>,
    queues: &Directory<'_, DeclaredQueue>,
    bindings: &[Binding],
) -> bool
    ensures { Decides result (All (Joins exchanges.now queues.now) bindings.now) }
{
    bindings
        .iter()
        .all(|binding| joins(exchanges, queues, binding))
}

/// Returns whether all `queues` with a dead-letter key have a dead-letter exchange.
pub fn keys_have_exchanges(queues: &[DeclaredQueue]) -> bool
    ensures { Decides result (All KeyHasExchange queues.now) }
{
    queues.iter().all(|queue| key_has_exchange(queue))
}

/// Returns whether the names of all `exchanges` have from 1 to 255 bytes.
pub fn all_named(exchanges: &[Exchange]) -> bool
    ensures { Decides result (All IsNamed exchanges.now) }
{
    exchanges.iter().all(|exchange| is_named(exchange))
}

/// Returns whether the names and dead-letter keys of all `queues` are well-formed.
pub fn all_worded(queues: &[DeclaredQueue]) -> bool
    ensures { Decides result (All IsWorded queues.now) }
{
    queues.iter().all(|queue| is_worded(queue))
}

/// Returns whether the keys of all `bindings` are topic patterns.
pub fn all_keyed(bindings: &[Binding]) -> bool
    ensures { Decides result (All (λ (b : Bound). IsPattern b.key) bindings.now) }
{
    bindings.iter().all(|binding| is_keyed(binding))
}

/// Returns whether the alternate exchanges of all `entries` are among `exchanges`.
pub fn alternates_are_there(exchanges: &Directory<'_, Exchange>, entries: &[Exchange]) -> bool
    ensures { Decides result (All (AlternateIsThere exchanges.now) entries.now) }
{
    entries
        .iter()
        .all(|exchange| alternate_is_there(exchanges, exchange))
}

/// Returns whether the dead-letter exchanges of all `queues` are among `exchanges` or the default one.
pub fn all_dead_letters_lead(exchanges: &Directory<'_, Exchange>, queues: &[DeclaredQueue]) -> bool
    ensures { Decides result (All (DeadLettersLead exchanges.now) queues.now) }
{
    queues
        .iter()
        .all(|queue| dead_letters_lead(exchanges, queue))
}
