//! Decides on declares.

ghost use Rattle.std.specs.Prelude.{◌≡◌, Some, None, IfOk, if◌then◌else◌};
ghost use Rattle.model.specs.Step as said;
ghost use Rattle.model.specs.Step.{Of_channel};
ghost use Rattle.commands.specs.Judged.{refused_by, IsQueueIndex};

use crate::refusals::{Refusal, check_queue};
use exchange_graph::Topology;
use model::{ExchangeDeclare, QueueDeclare};

/// Returns whether an exchange with this name exists. The default exchange always does.
fn is_exchange(topology: &Topology, name: &[u8]) -> bool
    ensures { said.refusal_of_exchange topology.now name.now ≡ (if result then None else Some (Of_channel 404)) }
{
    name.is_empty() || topology.exchange(name).is_some()
}

/// Refuses an exchange.declare unless it is passive and the exchange exists.
pub fn check_exchange(topology: &Topology, declare: &ExchangeDeclare) -> Result<(), Refusal>
    ensures { refused_by result ≡ said.refusal_of_exchange_declare topology.now declare.now }
{
    if !declare.passive {
        return Err(Refusal::Channel(403));
    }
    if is_exchange(topology, declare.exchange.as_bytes()) {
        Ok(())
    } else {
        Err(Refusal::Channel(404))
    }
}

/// Refuses a queue.declare unless it is passive and the queue exists. Returns the index of the queue.
pub fn check_queue_declare(topology: &Topology, declare: &QueueDeclare) -> Result<usize, Refusal>
    ensures index { IfOk result (IsQueueIndex topology.now declare.now.queue) }
    ensures refusal { refused_by result ≡ said.refusal_of_queue_declare topology.now declare.now }
{
    if !declare.passive {
        return Err(Refusal::Channel(403));
    }
    check_queue(topology, &declare.queue)
}
