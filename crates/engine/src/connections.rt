//! Operations on an engine's list of connections, by index.

ghost use Rattle.std.specs.Prelude.{
  ◌≡◌,
  ◌<◌,
  length,
  get_or,
  true,
  false,
  IfSome,
  Some,
  IsOk,
  OnOk,
  OnErr,
};
ghost use Rattle.std.specs.List.{remove};
ghost use Rattle.model.specs.Arrivals.{is_ended};
ghost use Rattle.broker.specs.Turns.{topology_kept, broker_of};
ghost use Rattle.broker.specs.Waiting.{NoneIsLater};
ghost use Rattle.outputs.specs.Storages.{TakesIn};
ghost use Rattle.outputs.specs.Waiting.{HoldsNone};
ghost use Rattle.engine.specs.World.{AreRising};
ghost use Rattle.engine.specs.Turning.{has_performed as performs};
ghost use Rattle.engine.specs.Engines.{HasConnection, IsConnectionIndex, ConnectionSent, ConnectionFed, IsSwept, IsNotGone};
ghost use Rattle.engine.specs.declared.connection.Connection as seen;

use crate::connection::{BOUND, Connection};
use crate::indices::Indices;
use crate::performing::resume_if;
use crate::reserve::feed;
use crate::turning::{Turn, has_performed};
use broker::Broker;
use outputs::Spares;
use std::alloc::AllocError;

/// Returns the index of connection `number`, if it is in the list. Tries the remembered index first, and falls back to a binary
/// search.
pub(crate) fn connection_index(
    connections: &[Connection],
    indices: &Indices,
    number: u64,
) -> Option<usize>
    requires { AreRising 0 connections.now }
    ensures index { IsConnectionIndex connections.now number result }
    ensures within { IfSome result (λ i. i < length connections.now) }
{
    match index_at_once(connections, indices.guess(number), number) {
        Some(place) => Some(place),
        None => index_by_search(connections, number),
    }
}

/// Returns the index of connection `number`, which is in the list. Tries the remembered index first, and falls back to a binary
/// search.
pub(crate) fn known_index(connections: &[Connection], indices: &Indices, number: u64) -> usize
    requires rising { AreRising 0 connections.now }
    requires there { HasConnection connections.now number }
    ensures index { IsConnectionIndex connections.now number (Some result) }
    ensures within { result < length connections.now }
{
    match index_at_once(connections, indices.guess(number), number) {
        Some(place) => place,
        None => connections.partition_point(|connection| connection.number < number),
    }
}

/// Returns `index` if connection `number` is there.
fn index_at_once(connections: &[Connection], index: usize, number: u64) -> Option<usize>
    ensures index { IfSome result (λ i. IsConnectionIndex connections.now number (Some i)) }
{
    let connection = connections.get(index)?;
    if connection.number == number {
        Some(index)
    } else {
        None
    }
}

/// Returns the index of connection `number` by binary search.
fn index_by_search(connections: &[Connection], number: u64) -> Option<usize>
    requires { AreRising 0 connections.now }
    ensures index { IsConnectionIndex connections.now number result }
    ensures within { IfSome result (λ i. i < length connections.now) }
{
    match connections.binary_search_by_key(&number, |connection| connection.number) {
        Ok(place) => Some(place),
        Err(_) => None,
    }
}

/// Removes the connection at `index` if it is over and its output is empty, and remembers the new indices of those
/// behind it.
pub(crate) fn sweep(indices: &mut Indices, connections: &mut Vec<Connection>, index: usize)
    requires { index < length connections.old.items }
    ensures { (l : seen.Connection) → get_or connections.old.items index l ≡ l → IsSwept connections.old.items index l connections.new.items }
{
    if connections[index].is_gone() {
        connections.remove(index);
        indices.learn_from(connections, index);
    }
}

/// Removes the connection at `index` if it is gone after its turn. It can be gone only if the turn performed something.
pub(crate) fn sweep_after(
    turn: &Result<Turn, AllocError>,
    indices: &mut Indices,
    connections: &mut Vec<Connection>,
    index: usize,
)
    requires within { index < length connections.old.items }
    requires not_gone { performs turn.now ≡ false → IsNotGone connections.old.items index }
    ensures { (l : seen.Connection) → get_or connections.old.items index l ≡ l → IsSwept connections.old.items index l connections.new.items }
{
    if has_performed(turn) {
        sweep(indices, connections, index);
    }
}

/// Takes up to `n` bytes from the front of a connection's output. If the output is empty then, its storage goes back to `spares`.
pub(crate) fn take_from(
    broker: &mut Broker,
    spares: &mut Spares,
    connection: &mut Connection,
    n: u64,
)
    ensures sent { ConnectionSent (topology_kept broker.old) (broker_of broker.old) connection.old n (broker_of broker.new) connection.new }
    ensures none { HoldsNone connection.new.output }
    ensures topology { topology_kept broker.new ≡ topology_kept broker.old }
    ensures turn { broker.new.turn ≡ broker.old.turn }
    ensures later { NoneIsLater broker.old broker.new }
{
    let was = connection.output.bytes().len() >= BOUND;
    connection.output.take_up_to(n);
    let is = connection.output.bytes().len() >= BOUND;
    spares.take_back(&mut connection.output);
    resume_if(broker, connection.number, was, is);
}

/// Removes the connection at `index`, which was lost. The storage of its output becomes spare, even if bytes are left in it, unless 256
/// of its size are spare or it has grown past the size of a new one.
pub(crate) fn remove_lost(spares: &mut Spares, connections: &mut Vec<Connection>, index: usize)
    requires { index < length connections.old.items }
    ensures left { connections.new.items ≡ remove connections.old.items index }
    ensures kept { (l : seen.Connection) → get_or connections.old.items index l ≡ l → TakesIn l.output.storage spares.old spares.new }
{
    let mut lost = connections.remove(index);
    spares.take_lost(&mut lost.output);
}

/// Appends `bytes` to the connection's unread input, unless it is over. Fails only if the input has to grow and the allocation fails; the
/// connection is unchanged then.
pub(crate) fn feed_connection(
    spares: &mut Spares,
    connection: &mut Connection,
    bytes: &[u8],
) -> Result<(), AllocError>
    ensures ok { OnOk result (ConnectionFed connection.old bytes.now connection.new) }
    ensures over { is_ended connection.old.session.phase ≡ true → IsOk result × (connection.new ≡ connection.old) }
    ensures err { OnErr result (connection.new ≡ connection.old) }
    ensures full { OnErr result (connection.old.stream.room < length bytes.now) }
{
    if connection.session.is_over() {
        return Ok(());
    }
    let allowance = connection.allowance;
    feed(spares, &mut connection.stream, bytes, allowance)
}
