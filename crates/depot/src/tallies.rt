//! Foresees which queues refuse the dead letters of a rejection, before any of them enters. Start with [`count`].

ghost use Rattle.std.specs.Prelude.{◌≡◌, ◌+◌, ◌<◌, ◌||◌, length, None, IfOk, IfSome};
ghost use Rattle.model.specs.Broker as seen;
ghost use Rattle.depot.specs.Store.{entries_of};
ghost use Rattle.depot.specs.Tallies.{tally_at, is_limited, CountsTurn};

use crate::queues::Queues;
use model::DeclaredQueue;
use queue::Store;
use std::alloc::AllocError;
use std::collections::HashMap;

/// The ready messages that a queue will have: their number, and the bytes of their bodies together.
#[derive(Clone, Copy, Drop)]
pub(crate) struct Tally {
    ready: usize,
    bytes: u128,
}

/// The tally of each queue that has a limit and that a planned dead letter enters, by the queue's index.
pub(crate) type Tallies = HashMap<usize, Tally>;

/// Returns `tally` with one message more, whose body has `size` bytes.
fn with_one(tally: Tally, size: usize) -> Option<Tally>
    ensures ready { IfSome result (λ t. t.ready ≡ tally.ready + 1) }
    ensures bytes { IfSome result (λ t. t.bytes ≡ tally.bytes + size) }
{
    Some(Tally {
        ready: tally.ready.checked_add(1)?,
        bytes: tally.bytes.checked_add(size as u128)?,
    })
}

/// Returns whether the queue has a limit.
fn has_limit(declared: &DeclaredQueue) -> bool
    ensures { result ≡ is_limited declared.now }
{
    declared.limit.is_some() || declared.byte_limit.is_some()
}

/// Returns whether `declared` with the messages of `tally` refuses a message with a body of `size` bytes. Source: RabbitMQ, "Queue Length
/// Limit", reject-publish.
fn refuses(declared: &DeclaredQueue, tally: Tally, size: usize) -> bool
    ensures { result ≡ (seen.is_at declared.now.limit tally.ready || seen.is_past declared.now.byte_limit (tally.bytes + size)) }
{
    let is_at = match declared.limit {
        None => false,
        Some(limit) => limit as usize <= tally.ready,
    };
    let is_past = match declared.byte_limit {
        None => false,
        Some(limit) => (limit as u128) < tally.bytes.saturating_add(size as u128),
    };
    is_at || is_past
}

/// Returns the tally of the queue at index `place`.
fn tally_of(queues: &Queues, tallies: &Tallies, place: usize) -> Tally
    requires { place < length queues.now }
    ensures { result ≡ tally_at (entries_of queues.now) tallies.now.entries place }
{
    match tallies.get(&place) {
        Some(tally) => *tally,
        None => {
            let queue = queues.queue(place);
            Tally {
                ready: queue.ready(),
                bytes: queue.ready_bytes(),
            }
        }
    }
}

/// Counts a dead letter with a body of `size` bytes that comes to the queue at index `place`, unless the queue refuses it. Returns whether
/// it does. Fails only if an allocation fails; nothing has changed then.
pub(crate) fn count(
    declared: &[DeclaredQueue],
    queues: &Queues,
    tallies: &mut Tallies,
    place: usize,
    size: usize,
) -> Result<bool, AllocError>
    requires len { length queues.now ≡ length declared.now }
    requires within { place < length queues.now }
    ensures { IfOk result (λ is_full. CountsTurn declared.now (entries_of queues.now) tallies.old.entries tallies.new.entries place size is_full) }
{
    let queue = &declared[place];
    if !has_limit(queue) {
        return Ok(false);
    }
    let tally = tally_of(queues, tallies, place);
    if refuses(queue, tally, size) {
        return Ok(true);
    }
    let more = with_one(tally, size).ok_or(AllocError)?;
    match tallies.insert(place, more) {
        Ok(_) => Ok(false),
        Err(_) => Err(AllocError),
    }
}
