//! Decides on basic.publish. Source: AMQP 0-9-1, basic.publish.

ghost use Rattle.std.specs.Prelude.{◌≡◌, ◌<◌, false, List, OnOk, IfOk, IfSome};
ghost use Rattle.std.specs.Arc.{arc_value};
ghost use Rattle.model.specs.Words.{Text as Name};
ghost use Rattle.model.specs.Broker.{Broker};
ghost use Rattle.model.specs.Topology.{Topology as Handed};
ghost use Rattle.model.specs.Step as said;
ghost use Rattle.model.specs.Step.{greatest};
ghost use Rattle.exchange_graph.specs.Routers.{access_to, IsRoute};
ghost use Rattle.channels.specs.Open.{open_in};
ghost use Rattle.commands.specs.Judged.{refused_by, JudgesPublish};

use crate::refusals::Refusal;
use channels::Channel;
use depot::Depot;
use exchange_graph::{Access, Route};
use model::Publish;
use std::sync::Arc;

/// Refuses a publish to an internal exchange, or to one that doesn't exist.
fn check_access(access: Access) -> Result<(), Refusal>
    ensures { (t : Handed) (exchange : Name) → access ≡ access_to t exchange → refused_by result ≡ said.refusal_to t exchange }
{
    match access {
        Access::Open => Ok(()),
        Access::Internal => Err(Refusal::Channel(403)),
        Access::Absent => Err(Refusal::Channel(404)),
    }
}

/// Refuses a publish if no publish number is left, or, on a channel in confirm mode, no confirm number.
fn check_counters(published: u64, channel: &Channel) -> Result<(), Refusal>
    ensures refusal { (b : Broker) (names : List Name) → b.published ≡ published → refused_by result ≡ said.refusal_of_count b (open_in names channel.now) }
    ensures published { OnOk result (published < greatest) }
    ensures confirm { OnOk result (said.is_spent channel.now.confirm ≡ false) }
{
    if published == u64::MAX || channel.confirm() == Some(u64::MAX) {
        Err(Refusal::Connection(541))
    } else {
        Ok(())
    }
}

/// Refuses a publish if it asks for `immediate`, which is not implemented, then for its exchange, then for its counters.
/// Returns its route if that is known. Never allocates.
pub fn check_publish<'a>(
    depot: &'a Depot,
    channel: &Channel,
    publish: &Publish,
) -> Result<Option<&'a Arc<Route>>, Refusal>
    ensures refusal { JudgesPublish depot.now channel.now publish.now (refused_by result) }
    ensures route { IfOk result (λ known. IfSome known (λ r. IsRoute depot.now.topology publish.now.exchange publish.now.routing_key (arc_value r.now))) }
    ensures published { OnOk result (depot.now.published < greatest) }
    ensures confirm { OnOk result (said.is_spent channel.now.confirm ≡ false) }
{
    if publish.immediate {
        return Err(Refusal::Connection(540));
    }
    let found = depot.router().find(&publish.exchange, &publish.routing_key);
    check_access(found.access)?;
    check_counters(depot.published(), channel)?;
    Ok(found.route)
}
