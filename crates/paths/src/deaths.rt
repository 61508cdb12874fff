//! What dead letters reach, explored once for a topology.

ghost use Rattle.std.specs.Prelude.{◌≡◌, ◌<◌, IfOk, IfNone, IfSome, None, Some, length, slice_get};
ghost use Rattle.paths.specs.Deaths.{AreDeaths, AreFronts, IsFrontAt};

use crate::explored::Explored;
use crate::visits::Visit;
use exchange_graph::Topology;
use std::alloc::{AllocError, Global};
use std::marker::Model;

/// For each queue with a dead-letter exchange and a key of its own, what its dead letters reach under that key. [`Leading::by`](crate::Leading::by)
/// finds from it what leads to a queue, without exploring anything again.
#[derive(Drop)]
pub struct Deaths {
    fronts: Vec<Option<Explored>>,
}

impl Model for Deaths {
    ghost use Rattle.std.specs.Prelude.{List, Option};
    ghost use Rattle.paths.specs.declared.visits.Visit.{Visit as Seen};

    ghost Value = { List (Option (List Seen)) };

    ghost view = { λ d. d.fronts.items };
}

/// Explores what dead letters of the queue at index `at` reach. Returns `None` if the queue has no dead-letter exchange or no key of its own.
fn front_of(alloc: Global, topology: &Topology, at: usize) -> Result<Option<Explored>, AllocError>
    requires { at < length topology.now.queues }
    ensures { IfOk result (IsFrontAt topology.now at) }
{
    let last = topology.queue(at);
    match &last.dead_letter_exchange {
        None => Ok(None),
        Some(exchange) => match &last.dead_letter_key {
            None => Ok(None),
            Some(key) => {
                let explored = Explored::of(alloc, topology, exchange.as_bytes(), key.as_bytes())?;
                Ok(Some(explored))
            }
        },
    }
}

/// Explores what dead letters of each queue reach.
fn all_fronts(alloc: Global, topology: &Topology) -> Result<Vec<Option<Explored>>, AllocError>
    ensures { IfOk result (λ fronts. AreFronts topology.now (length topology.now.queues) fronts.items) }
{
    let mut fronts = Vec::new(alloc);
    for at in 0..topology.queues().len() {
        fronts.push(front_of(alloc, topology, at)?)?;
    }
    Ok(fronts)
}

/// Returns the entry of `fronts` at index `at`.
fn front_at(fronts: &[Option<Explored>], at: usize) -> Option<&Explored>
    requires { at < length fronts.now }
    ensures some { IfSome result (λ explored. slice_get fronts.now at ≡ Some (Some explored.now)) }
    ensures none { IfNone result (slice_get fronts.now at ≡ Some None) }
{
    match &fronts[at] {
        Some(explored) => Some(explored),
        None => None,
    }
}

impl Deaths {
    /// Explores what dead letters of the topology's queues reach. Fails only if an allocation fails.
    pub fn of(alloc: Global, topology: &Topology) -> Result<Deaths, AllocError>
        ensures { IfOk result (AreDeaths topology.now) }
    {
        let fronts = all_fronts(alloc, topology)?;
        Ok(Deaths { fronts })
    }

    /// Returns what dead letters of the queue at index `at` reach, or `None` if it has no dead-letter exchange or no key of its own.
    pub fn front(&self, at: usize) -> Option<&Explored>
        requires { at < length self.now }
        ensures some { IfSome result (λ explored. slice_get self.now at ≡ Some (Some explored.now)) }
        ensures none { IfNone result (slice_get self.now at ≡ Some None) }
    {
        front_at(self.fronts.as_slice(), at)
    }

    /// Returns what dead letters of the queue at index `at` reach, or nothing if it has no dead-letter exchange, no key of its own, or doesn't exist.
    pub(crate) fn visits_of(&self, at: usize) -> &[Visit] {
        match self.fronts.get(at) {
            Some(front) => match front {
                Some(explored) => explored.visits(),
                None => &[],
            },
            None => &[],
        }
    }
}
