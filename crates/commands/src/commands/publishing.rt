//! Publishes and their confirms. Source: AMQP 0-9-1, basic.publish; RabbitMQ, "Publisher Confirms".

ghost use Rattle.std.specs.Prelude.{◌≡◌, ◌+◌, cond, is_some, option_map, option_copied, IfOk, OnErr, Some};
ghost use Rattle.std.specs.Arc.{arc_value};
ghost use Rattle.model.specs.Grammar.{IsMethod};
ghost use Rattle.model.specs.Topology.{Topology};
ghost use Rattle.model.specs.declared.methods.Method.TheVariants.{BasicPublish, ConfirmSelect};
ghost use Rattle.channels.specs.Placed.{IsPlaced};
ghost use Rattle.replies.specs.Sent.{AreAddressed};
ghost use Rattle.commands.specs.Commands.{CanCommand, Commands, CommandsOnChannel};

use crate::refusals::{Stop, check_publish};
use channels::Channel;
use depot::Depot;
use exchange_graph::Route;
use model::{Body, ChannelId, Content, Properties, Publish, Send};
use replies::{Step, answer_select, return_if};
use std::alloc::{AllocError, Global};
use std::sync::Arc;

/// Puts the channel into confirm mode, and replies with `confirm.select-ok` unless `no_wait` is set.
pub(crate) fn select(
    alloc: Global,
    id: ChannelId,
    channel: &mut Channel,
    no_wait: bool,
) -> Result<Step, Stop>
    ensures commands { CommandsOnChannel id.connection id.number channel.old (ConfirmSelect no_wait) result channel.new }
    ensures addressed { IfOk result (λ s. AreAddressed id.connection s.sends.items) }
    ensures in_range { (t : Topology) → IsPlaced t channel.old → IsPlaced t channel.new }
    ensures err { OnErr result (channel.new ≡ channel.old) }
{
    let step = answer_select(alloc, id.connection, id.number, no_wait)?;
    channel.select();
    Ok(step)
}

/// Returns the most sends that a publish makes: a confirm, and a return if there is one.
fn most_sends(returned: &Option<Send>) -> usize
    ensures { result ≡ 1 + cond (is_some returned.now) 1 0 }
{
    if returned.is_some() { 2 } else { 1 }
}

/// Returns a shared reference to a known route, if any.
fn shared(route: Option<&Arc<Route>>) -> Result<Option<Arc<Route>>, AllocError>
    ensures { IfOk result (λ r. option_map arc_value r ≡ option_map arc_value (option_copied route.entry)) }
{
    match route {
        Some(route) => Ok(Some(Arc::try_clone(route)?)),
        None => Ok(None),
    }
}

/// Publishes a message to each routed queue; without `content` it is empty. A mandatory message that is routed nowhere is returned. Then it is
/// confirmed if the channel is in confirm mode. Fails only if it is refused or an allocation fails; nothing has changed then.
pub(crate) fn publish(
    alloc: Global,
    id: ChannelId,
    channel: &mut Channel,
    depot: &mut Depot,
    publish: &Publish,
    content: &Option<Content>,
) -> Result<Step, Stop>
    requires { CanCommand id.connection id.number depot.old channel.old }
    // What the result means, and that all that is sent is for this connection.
    ensures commands { Commands id.connection id.number depot.old channel.old (BasicPublish publish.now) content.now result depot.new channel.new }
    ensures addressed { IfOk result (λ s. IsMethod (BasicPublish publish.now) → AreAddressed id.connection s.sends.items) }
    // The frame; a failure changes nothing.
    ensures topology { depot.new.topology ≡ depot.old.topology }
    ensures in_range { IsPlaced depot.old.topology channel.new }
    ensures err { OnErr result ((depot.new ≡ depot.old) × (channel.new ≡ channel.old)) }
{
    let none = Content {
        properties: Properties::none(),
        body: Body::empty(),
    };
    let content = content.as_ref().unwrap_or(&none);
    let known = check_publish(depot, channel, publish)?;
    let route = shared(known)?;
    let number = depot.published() + 1;
    let confirm = channel.next_confirm();
    let returned = return_if(id.connection, id.number, publish, content)?;
    let mut step = Step::noting(alloc, depot.notes(alloc));
    step.sends.reserve_exact(most_sends(&returned))?;
    let routed = depot.publish(alloc, id, publish, content, confirm, route, &mut step.notes)?;
    channel.count_publish();
    step.send_back(number, returned, routed.is_none);
    step.confirm(
        id.connection,
        id.number,
        number,
        confirm,
        routed.is_some_full,
    );
    Ok(step)
}
