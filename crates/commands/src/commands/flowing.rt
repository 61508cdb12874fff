//! Answers channel.flow. Source: AMQP 0-9-1, channel.flow.

ghost use Rattle.std.specs.Prelude.{IfOk};
ghost use Rattle.model.specs.declared.methods.Method.TheVariants.{ChannelFlow};
ghost use Rattle.depot.specs.Store.{Store};
ghost use Rattle.replies.specs.Sent.{AreAddressed};
ghost use Rattle.commands.specs.Commands.{CommandsOnQueues};

use crate::refusals::{Stop, check_implemented};
use model::ChannelId;
use replies::{Step, flow_ok};
use std::alloc::Global;

/// Replies with `channel.flow-ok` if `is_active`: the flow goes on as before. Stopping the flow is not implemented and refused.
pub(crate) fn flow(alloc: Global, id: ChannelId, is_active: bool) -> Result<Step, Stop>
    ensures commands { (s : Store) → CommandsOnQueues id.connection id.number s (ChannelFlow is_active) result s }
    ensures addressed { IfOk result (λ s. AreAddressed id.connection s.sends.items) }
{
    check_implemented(is_active)?;
    Ok(Step::sending(alloc, flow_ok(id.connection, id.number))?)
}
