//! The server, and its rounds.

ghost use Rattle.std.specs.Prelude.{◌≡◌, IfOk, OnErr, OnOk, []};
ghost use Rattle.model.specs.Arrivals.{Same};
ghost use Rattle.model.specs.Headline.{IsSound};
ghost use Rattle.serving.specs.Serving.{server_state};
ghost use Rattle.serving.specs.Rounds.{IsRound, Rounds};
ghost use Rattle.serving.specs.Whole.{GoesOnServed, IsServedIfNew, KeepsServed, StaysServed};
ghost use Rattle.runs.specs.Reloaded.{IsMemory, IsPutInForce, NothingHinders, ReportsReload};
ghost use Rattle.runs.specs.Wants.{To_reload};

use crate::offers::Offers;
use crate::peers::{Peer, SLOTS};
use crate::quiet::Quiet;
use crate::rounds::round;
use crate::slot_marks::SlotMarks;
use crate::wire::Wire;
use runs::{Machine, ReloadFault};
use slab::Slab;
use std::alloc::{AllocError, Global};
use std::marker::Model;

/// The greatest number of bytes that a read is offered: the length of the buffer.
const READ_ROOM: usize = 65_536;

/// A server: a machine, its peers by slot, which slots are quiet, which are full, what reads are offered, and the buffer that they fill.
pub struct Server<M: Machine> {
    machine: M,
    peers: Slab<Peer>,
    quiet: Quiet,
    full: SlotMarks,
    offers: Offers,
    buffer: Vec<u8>,
}

/// Not derived: a derived drop is expanded, and proved again, in each function that drops the value.
impl<M: Machine + Drop> Drop for Server<M> {
    fn drop(self) {
        let Server {
            machine: _,
            peers: _,
            quiet: _,
            full: _,
            offers: _,
            buffer: _,
        } = self;
    }
}

impl<M: Machine> Model for Server<M> {
    ghost use Rattle.serving.specs.Serving.{Serving};
    ghost use Rattle.serving.specs.Quiet.{IsServerKept};

    ghost Value = { Serving M };

    ghost view = { λ s. record { machine = s.machine; peers = s.peers.slots } };

    ghost invariant = { λ s. IsServerKept (M.world s.machine) s.peers s.quiet s.full s.buffer.items };
}

impl<M: Machine> Server<M> {
    /// Makes a server of `machine`, without sockets, and with a slot for each connection that can be open at a time. Fails only if an allocation
    /// fails; no later call allocates of its own.
    pub fn new(alloc: Global, machine: M) -> Result<Server<M>, AllocError>
    where
        M: Drop,
        ensures { IfOk result (λ s. s ≡ record { machine = machine; peers = [] }) }
    {
        let buffer = vec![in alloc; 0; READ_ROOM]?;
        let peers = Slab::with_capacity(alloc, SLOTS)?;
        let quiet = Quiet::new(alloc, peers.capacity())?;
        let full = SlotMarks::none(alloc, peers.capacity())?;
        let offers = Offers::new(alloc, peers.capacity())?;
        Ok(Server {
            machine,
            peers,
            quiet,
            full,
            offers,
            buffer,
        })
    }

    /// Returns the machine.
    pub fn machine(&self) -> &M
        ensures { result.now ≡ self.now.machine }
    {
        &self.machine
    }

    /// Does one round: an accept, a read of 16 to 65,536 bytes of each connection that is neither paused nor over, at most 256 pumps, a write of
    /// all output of each that has any, the end of those that are over with an empty output, and a rest if nothing was done. Welcomes a socket
    /// exactly when its connection starts running. An allocation failure is not reported: it ends the connection that needed the memory.
    pub fn round<W: Wire>(&mut self, alloc: Global, wire: &mut W)
        // The promise: exactly these calls of the wire, and what follows from each answer.
        ensures { IsRound M.lacks (server_state M.world W.past self.old wire.old) (server_state M.world W.past self.new wire.new) }
    {
        round(
            alloc,
            &mut self.machine,
            &mut self.peers,
            &mut self.quiet,
            &mut self.full,
            &mut self.offers,
            wire,
            self.buffer.as_mut_slice(),
        );
    }

    /// Puts `setup` in force between two rounds, and asks nothing of a wire: connections stay, with their sockets. Refused by the first obstacle, and
    /// if an allocation fails; nothing has changed then.
    pub fn reload(&mut self, alloc: Global, setup: M::Setup) -> Result<(), ReloadFault>
        ensures reported { ReportsReload (M.world self.old.machine) (M.config setup) result (M.world self.new.machine) }
        ensures wants { IsMemory result → M.lacks (M.world self.old.machine) (To_reload (M.config setup)) }
        ensures peers { self.new.peers ≡ self.old.peers }
        // `IsServed` is kept, whatever the wire knew.
        ensures served { KeepsServed M.lacks M.world self.old self.new }
    {
        M::ghost_offers_sound(&setup);
        self.machine.reload(alloc, setup)
    }

    /// Puts `setup` in force, as [`Server::reload`] does, without looking for an obstacle: there is none. Fails only if an allocation fails; nothing
    /// has changed then.
    pub fn put_in_force(&mut self, alloc: Global, setup: M::Setup) -> Result<(), AllocError>
        requires nothing { NothingHinders (M.world self.old.machine) (M.config setup) }
        ensures ok { OnOk result (IsPutInForce (M.world self.old.machine) (M.config setup) (M.world self.new.machine)) }
        ensures err { OnErr result (Same (M.world self.old.machine) (M.world self.new.machine)) }
        ensures wants { OnErr result (M.lacks (M.world self.old.machine) (To_reload (M.config setup))) }
        ensures peers { self.new.peers ≡ self.old.peers }
        // `IsServed` is kept, whatever the wire knew.
        ensures served { KeepsServed M.lacks M.world self.old self.new }
    {
        M::ghost_offers_sound(&setup);
        self.machine.put_in_force(alloc, setup)
    }

    /// Shows that what the machine has in force is sound: the topology is well formed, and its guarantees hold.
    fn ghost_is_sound(&self)
        ensures { IsSound (M.world self.now.machine).config }
    {
        self.machine.ghost_is_sound();
    }
}

/// Shows that `IsServed` holds of a new server whose machine has no connections: nothing was done yet. Does nothing at run time.
pub fn ghost_new_is_served<M: Machine, W: Wire>(server: &Server<M>, wire: &W)
    ensures { IsServedIfNew M.lacks (server_state M.world W.past server.now wire.now) }
{
    server.ghost_is_sound();
}

/// Does `turns` rounds.
pub fn serve<M: Machine, W: Wire>(alloc: Global, server: &mut Server<M>, wire: &mut W, turns: u64)
    // The promise: exactly these rounds.
    ensures rounds { Rounds M.lacks turns (server_state M.world W.past server.old wire.old) (server_state M.world W.past server.new wire.new) }
    // `IsServed` is kept: it has all that arrived since the server was new, and certified delivery's promises of it.
    ensures served { StaysServed M.lacks (server_state M.world W.past server.old wire.old) (server_state M.world W.past server.new wire.new) }
    // The call continues where the server stopped: with bytes that were not performed yet, and with output that was not written yet.
    ensures goes_on { GoesOnServed M.lacks (server_state M.world W.past server.old wire.old) (server_state M.world W.past server.new wire.new) }
{
    for _ in 0..turns {
        server.round(alloc, wire);
    }
}
