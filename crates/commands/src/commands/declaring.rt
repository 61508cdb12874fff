//! Answers passive declares of exchanges. Source: AMQP 0-9-1, exchange.declare, "passive".

ghost use Rattle.std.specs.Prelude.{IfOk};
ghost use Rattle.model.specs.declared.methods.Method.TheVariants.{ExchangeDeclare as DeclaresExchange};
ghost use Rattle.replies.specs.Sent.{AreAddressed};
ghost use Rattle.commands.specs.Commands.{CommandsOnQueues};

use crate::refusals::{Stop, check_exchange};
use depot::Depot;
use model::{ChannelId, ExchangeDeclare};
use replies::{Step, exchange_ok};
use std::alloc::Global;

/// Replies with `exchange.declare-ok` unless `no_wait` is set, if the exchange exists. Changes nothing.
pub(crate) fn find_exchange(
    alloc: Global,
    id: ChannelId,
    depot: &Depot,
    declare: &ExchangeDeclare,
) -> Result<Step, Stop>
    ensures commands { CommandsOnQueues id.connection id.number depot.now (DeclaresExchange declare.now) result depot.now }
    ensures addressed { IfOk result (λ s. AreAddressed id.connection s.sends.items) }
{
    check_exchange(depot.topology(), declare)?;
    if declare.no_wait {
        return Ok(Step::nothing(alloc));
    }
    Ok(Step::sending(alloc, exchange_ok(id.connection, id.number))?)
}
