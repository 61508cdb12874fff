//! The engine: the broker with its connections.

mod obstacles;
mod putting;

ghost use Rattle.std.specs.Prelude.{◌≡◌, ◌<◌, ℕ, length, true, IfOk, IsOk, OnErr, OnOk, vec_len, vec_capacity};
ghost use Rattle.model.specs.Arrivals.{Same, Waits, new_world, is_over, is_awake};
ghost use Rattle.model.specs.Consuming.{CanDeliver};
ghost use Rattle.model.specs.Headline.{IsSound};
ghost use Rattle.model.specs.Tracing.{AreKept};
ghost use Rattle.runs.specs.Opened.{runs, Hears, TakesAway, IsLost};
ghost use Rattle.engine.specs.World.{world_of};
ghost use Rattle.engine.specs.Reading.{HasMore};
ghost use Rattle.engine.specs.Engines.{Turned, IsSafeUnlessReloaded, OnDid, left_in, room_for};
ghost use Rattle.engine.specs.Pumping.{PumpsOrIdles};
ghost use Rattle.engine.specs.Waiting.{KeepsTurns, TurnLeaves, PicksOne, ServesOrPicksNobody};
ghost use Rattle.engine.specs.Opening.{Numbers, OpenedNew, OpenedReady};
ghost use Rattle.engine.specs.InForce.{in_force};

use crate::connection::Connection;
use crate::connections::{
    connection_index, feed_connection, known_index, remove_lost, sweep, sweep_after, take_from,
};
use crate::indices::Indices;
use crate::pumping::pump_connection;
use crate::turning::{Turn, turn_connection};
use broker::Broker;
use certificate::Checked;
use guarantees::Guarantee;
use model::{User, limits};
use outputs::{Scratch, Spares};
use runs::Delivered;
use std::alloc::{AllocError, Global};
use std::marker::Model;

/// The greatest number of connections that are not gone.
const MOST_CONNECTIONS: usize = 1024;

/// The number of a connection. Connections are numbered from 1 in the order in which they are opened, and no number is used
/// twice.
pub type ConnId = u64;

/// Why no connection was opened.
#[derive(Clone, Copy, PartialEq, Eq, Debug, Drop)]
pub enum Refused {
    /// There are 1,024 connections already. One that is over counts until its output is empty.
    Full,
    /// No connection number is left.
    Spent,
    /// An allocation failed.
    Memory,
}

impl From<AllocError> for Refused {
    ghost use Rattle.std.specs.Prelude.{◌≡◌};
    ghost use Rattle.engine.specs.declared.engines.Refused.TheVariants.{Memory};

    ghost from_gives = { λ _ r. r ≡ Memory };

    fn from(_: AllocError) -> Refused {
        Refused::Memory
    }
}

/// A broker with its connections: bytes of each in, bytes for each out.
///
/// Connections are numbered from 1 in the order of their openings, and no number is given twice. A connection is gone
/// when it is lost, or when it is over and its output is empty.
pub struct Engine {
    broker: Broker,
    guarantees: Vec<Guarantee>,
    users: Vec<User>,
    given: u64,
    /// The connections that are not gone, in ascending order of their numbers.
    connections: Vec<Connection>,
    indices: Indices,
    scratch: Scratch,
    spares: Spares,
}

/// Not derived: a derived drop is expanded, and proved again, in each function that drops the value.
impl Drop for Engine {
    fn drop(self) {
        let Engine {
            broker: _,
            guarantees: _,
            users: _,
            given: _,
            connections: _,
            indices: _,
            scratch: _,
            spares: _,
        } = self;
    }
}

impl Model for Engine {
    ghost use Rattle.engine.specs.World.{Parts, IsEngine, parts_of};

    ghost Value = { Parts };

    ghost view = { λ e. parts_of e.broker e.guarantees.items e.users.items e.given e.connections.items };

    ghost invariant = { λ e. IsEngine (parts_of e.broker e.guarantees.items e.users.items e.given e.connections.items) };
}

impl Engine {
    /// Returns an engine without connections that runs `checked`, a topology whose guarantees hold. Fails only if an allocation fails.
    pub fn new(alloc: Global, checked: Checked, users: Vec<User>) -> Result<Engine, AllocError>
        ensures { IfOk result (λ e. world_of e ≡ new_world (in_force checked users.items)) }
    {
        let (topology, guarantees) = checked.into_parts();
        Ok(Engine {
            broker: Broker::new(alloc, topology)?,
            guarantees,
            users,
            given: 0,
            connections: Vec::with_capacity(alloc, MOST_CONNECTIONS)?,
            scratch: Scratch::new(alloc)?,
            spares: Spares::new(alloc)?,
            indices: Indices::new(alloc)?,
        })
    }

    /// Stops keeping notes, for a caller that reads none: what turns and deliveries return then has none at run time. Contracts see no difference.
    pub fn drop_notes(&mut self)
        ensures { self.new ≡ self.old }
    {
        self.broker.drop_notes();
    }

    /// Opens a connection and returns its number. Its first eight bytes are awaited.
    ///
    /// Refused as [`Refused::Full`] if 1,024 connections are not gone, otherwise as [`Refused::Spent`] if the last number was given. Fails with
    /// [`Refused::Memory`] only if neither applies and an allocation fails. A refusal changes nothing.
    pub fn open(&mut self, alloc: Global) -> Result<ConnId, Refused>
        ensures opened { OpenedNew (world_of self.old) result (world_of self.new) }
        ensures broker { self.new.broker ≡ self.old.broker }
    {
        let number = next_number(&mut self.connections, self.given)?;
        self.indices.learn(number, self.connections.len());
        self.connections
            .push_reserved(Connection::new(alloc, number));
        self.given = number;
        Ok(number)
    }

    /// Opens a connection that is running at once, with channels 1 to `channels` open, and returns its number.
    ///
    /// It is refused as [`Engine::open`] is.
    pub fn open_ready(&mut self, alloc: Global, channels: u8) -> Result<ConnId, Refused>
        ensures opened { OpenedReady (world_of self.old) channels result (world_of self.new) }
        ensures turns { KeepsTurns self.old.broker self.new.broker }
    {
        let number = next_number(&mut self.connections, self.given)?;
        self.broker
            .open(alloc, number, limits::CHANNEL_MAX, u16::from(channels))?;
        self.indices.learn(number, self.connections.len());
        self.connections
            .push_reserved(Connection::running(alloc, number));
        self.given = number;
        Ok(number)
    }

    /// Appends `bytes` to the unread input of connection `c`. Does nothing if it is over or gone.
    /// Fails only if the input has to grow and the allocation fails; nothing has changed then.
    pub fn feed(&mut self, c: ConnId, bytes: &[u8]) -> Result<(), AllocError>
        // The bytes are appended; a connection that is over or gone ignores them, without an allocation.
        ensures ok { OnOk result (Hears (world_of self.old) c bytes.now (world_of self.new)) }
        ensures over { is_over (world_of self.old) c ≡ true → IsOk result × (self.new ≡ self.old) }
        // After a failure nothing has changed, and the bytes did not fit the input's spare capacity.
        ensures err { OnErr result (self.new ≡ self.old) }
        ensures full { OnErr result (room_for self.old c < length bytes.now) }
        // The frame: the broker is not touched.
        ensures broker { self.new.broker ≡ self.old.broker }
    {
        match connection_index(&self.connections, &self.indices, c) {
            Some(place) => {
                feed_connection(&mut self.spares, &mut self.connections[place], bytes)
            }
            None => Ok(()),
        }
    }

    /// Performs the next command of connection `c`, or the fault that its bytes end in. Performs at most one.
    ///
    /// Returns [`Turn::Idle`] if neither a whole command nor a fault is left, [`Turn::Paused`] if the output holds 1,048,576 bytes or more, and
    /// [`Turn::Over`] if the connection is over or gone.
    ///
    /// Fails only if an allocation fails; nothing is performed then, and the next turn tries the same again. That needs a connection that is neither
    /// over, gone nor paused, with a pending command, or with the first eight bytes, a whole frame or a broken one unread.
    pub fn turn(&mut self, alloc: Global, c: ConnId) -> Result<Turn, AllocError>
        // What each result means, and that each turn that performs something leaves less to do.
        ensures ok { IfOk result (λ t. Turned (world_of self.old) c t (world_of self.new)) }
        ensures fewer { IfOk result (λ t. OnDid t (left_in self.new.connections < left_in self.old.connections)) }
        // A failure performs nothing, and comes only for a connection that is awake and has something to read or to perform.
        ensures err { OnErr result (Waits (world_of self.old) c (world_of self.new)) }
        ensures awake { OnErr result (is_awake (world_of self.old) c ≡ true) }
        ensures more { OnErr result (HasMore ((world_of self.old).wire c).kept ((world_of self.old).wire c).stream) }
        // The order of consumers that wait; a failure leaves the broker unchanged.
        ensures turns { IfOk result (λ t. TurnLeaves c ((world_of self.old).wire c) self.old.broker t self.new.broker) }
        ensures broker { OnErr result (self.new.broker ≡ self.old.broker) }
    {
        let Some(place) = connection_index(&self.connections, &self.indices, c) else {
            return Ok(Turn::Over);
        };
        let turn = turn_connection(
            alloc,
            self.users.as_slice(),
            &mut self.broker,
            &mut self.scratch,
            &mut self.spares,
            &mut self.connections[place],
        );
        sweep_after(&turn, &mut self.indices, &mut self.connections, place);
        turn
    }

    /// Makes one delivery, to the next consumer in round-robin order, and returns its connection and notes, or `None` if no delivery can be made.
    /// The queues alternate, and so do the consumers of each: a waiting consumer has been passed over by fewer deliveries of its queue, this delivery
    /// included, than the queue has consumers. If no delivery can be made, the order of every queue's consumers is unchanged.
    ///
    /// Fails only if a delivery can be made and an allocation fails. Nothing is delivered then, and the picked consumer is picked again next time, if
    /// it still can take a message.
    pub fn pump(&mut self, alloc: Global) -> Result<Option<Delivered>, AllocError>
        // One delivery that keeps certified delivery's promises, or none if none can be made.
        ensures ok { IfOk result (λ did. PumpsOrIdles (world_of self.old) did (world_of self.new)) }
        // The delivery goes to the consumer whose turn it is, and no other that waits is put back.
        ensures in_turn { IfOk result (λ did. ServesOrPicksNobody self.old did self.new) }
        // A failure delivers nothing, leaves the picked consumer picked, and occurs only if a delivery can be made.
        ensures err { OnErr result (Same (world_of self.old) (world_of self.new)) }
        ensures picked { OnErr result (PicksOne self.old.broker self.new.broker) }
        ensures wanted { OnErr result ((c : ℕ) × CanDeliver (world_of self.old).state.broker c) }
    {
        let Some(pick) = self.broker.pick() else {
            return Ok(None);
        };
        let connection = pick.connection;
        let place = known_index(&self.connections, &self.indices, connection);
        let notes = pump_connection(
            alloc,
            &mut self.broker,
            &mut self.scratch,
            &mut self.spares,
            &mut self.connections[place],
            pick,
        )?;
        Ok(Some(Delivered { connection, notes }))
    }

    /// Takes up to `n` bytes from the front of `c`'s output.
    pub fn sent(&mut self, c: ConnId, n: u64)
        ensures taken { TakesAway (world_of self.old) c n (world_of self.new) }
        ensures turns { KeepsTurns self.old.broker self.new.broker }
    {
        let Some(place) = connection_index(&self.connections, &self.indices, c) else {
            return;
        };
        take_from(
            &mut self.broker,
            &mut self.spares,
            &mut self.connections[place],
            n,
        );
        sweep(&mut self.indices, &mut self.connections, place);
    }

    /// Drops connection `c`: its remaining output is discarded, and its unacknowledged messages are ready again.
    pub fn lose(&mut self, c: ConnId)
        ensures lost { IsLost (world_of self.old) c (world_of self.new) }
        ensures turns { KeepsTurns self.old.broker self.new.broker }
    {
        if let Some(place) = connection_index(&self.connections, &self.indices, c) {
            self.broker.lose(c);
            remove_lost(&mut self.spares, &mut self.connections, place);
            self.indices.learn_from(&self.connections, place);
        }
    }

    /// Returns the bytes of `c`'s output that were not taken yet.
    pub fn output(&self, c: ConnId) -> &[u8]
        ensures { result.now ≡ ((world_of self.now).wire c).output }
    {
        match connection_index(&self.connections, &self.indices, c) {
            Some(place) => self.connections[place].output.bytes(),
            None => &[],
        }
    }

    /// Returns whether `c` is over or lost, or was never opened.
    pub fn is_over(&self, c: ConnId) -> bool
        ensures { result ≡ is_over (world_of self.now) c }
    {
        match connection_index(&self.connections, &self.indices, c) {
            Some(place) => self.connections[place].session.is_over(),
            None => true,
        }
    }

    /// Returns whether the broker performs the commands of `c`: from the end of its login to its close.
    pub fn runs(&self, c: u64) -> bool
        ensures { result ≡ runs (world_of self.now) c }
    {
        match connection_index(&self.connections, &self.indices, c) {
            Some(place) => self.connections[place].runs(),
            None => false,
        }
    }

    /// Returns how many messages have entered queues whose consumers lag behind. A hint for reading publishers more slowly.
    pub fn lagged(&self) -> u64 {
        self.broker.lagged()
    }

    /// Shows that what is in force is sound: the topology is well formed, and its guarantees hold. Does nothing at run time.
    pub fn ghost_is_sound(&self)
        ensures { IsSound (world_of self.now).config }
    {
        // Borrowing a field brings the invariant of an engine into scope.
        let _connections = &self.connections;
    }

    /// Shows that each message is in a queue of the topology, and that no guarantee forbids to it a queue that it can still reach by
    /// dead-lettering. Nor does one forbid to it the queue that it is in, unless the last reload found it there. So before any reload no
    /// message is in a queue that is forbidden to it.
    pub fn ghost_is_safe(&self)
        ensures kept { AreKept (world_of self.now).config (world_of self.now).state.broker }
        ensures safe { IsSafeUnlessReloaded (world_of self.now) }
    {
        // Borrowing a field brings the invariant of an engine into scope.
        let _connections = &self.connections;
    }
}

/// Returns the number of the next connection, which follows `given`, and reserves capacity for the connection. A refusal changes nothing.
fn next_number(connections: &mut Vec<Connection>, given: u64) -> Result<u64, Refused>
    ensures numbers { Numbers given connections.old.items result }
    ensures room { OnOk result (vec_len connections.new < vec_capacity connections.new) }
    ensures same { connections.new.items ≡ connections.old.items }
{
    if connections.len() >= MOST_CONNECTIONS {
        return Err(Refused::Full);
    }
    match given.checked_add(1) {
        Some(number) => {
            connections.reserve(1)?;
            Ok(number)
        }
        None => Err(Refused::Spent),
    }
}
