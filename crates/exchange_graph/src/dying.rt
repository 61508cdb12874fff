//! Single dead-letter steps, by names.

ghost use Rattle.std.specs.Prelude.{◌≡◌, IfOk, unwrap_or};
ghost use Rattle.exchange_graph.specs.Dying.{GoesOnTo, LeavesFor};

use crate::topologies::Topology;
use model::Text;
use std::alloc::{AllocError, Global};

/// The exchange that a dead letter is sent to, and its routing key.
#[derive(Drop)]
pub struct DeadLetter<'a> {
    pub exchange: &'a [u8],
    pub key: &'a [u8],
}

/// The queues into which one death leads, by index in the order of the file, and the routing key there.
#[derive(Drop)]
pub struct DeadRoute<'a> {
    pub queues: Vec<usize>,
    pub key: &'a [u8],
}

/// Returns `fixed`, or `key` if it is `None`.
fn key_after<'a>(fixed: &'a Option<Text>, key: &'a [u8]) -> &'a [u8]
    ensures { result.now ≡ unwrap_or fixed.now key.now }
{
    match fixed {
        Some(own) => own.as_bytes(),
        None => key,
    }
}

impl Topology {
    /// Returns where a message with `key` is sent if it dies in `queue`.
    /// Returns `None` if the queue doesn't exist or has no dead-letter exchange. Never allocates.
    pub fn dead_letter<'a>(&'a self, queue: &[u8], key: &'a [u8]) -> Option<DeadLetter<'a>>
        ensures { LeavesFor result self.now queue.now key.now }
    {
        self.ghost_is_well_formed();
        let Some(place) = self.queue_at(queue) else {
            return None;
        };
        let last = self.queue(place);
        match &last.dead_letter_exchange {
            Some(exchange) => Some(DeadLetter {
                exchange: exchange.as_bytes(),
                key: key_after(&last.dead_letter_key, key),
            }),
            None => None,
        }
    }

    /// Returns the queues into which one death leads a message with `key` from `queue`, and its key there.
    /// Returns `None` if the queue doesn't exist or has no dead-letter exchange. Fails only if an allocation fails.
    pub fn dead_route<'a>(
        &'a self,
        alloc: Global,
        queue: &[u8],
        key: &'a [u8],
    ) -> Result<Option<DeadRoute<'a>>, AllocError>
        ensures { IfOk result (λ route. GoesOnTo route self.now queue.now key.now) }
    {
        let Some(letter) = self.dead_letter(queue, key) else {
            return Ok(None);
        };
        let queues = self.route(alloc, letter.exchange, letter.key)?;
        Ok(Some(DeadRoute {
            queues,
            key: letter.key,
        }))
    }
}
