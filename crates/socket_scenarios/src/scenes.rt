//! Sockets of the system and their clients. Start with [`Scene`].

use crate::times::TIME;
use scenario_outcomes::{Unmet, expect_number, value_of};
use serving::{Accept, Peer, Wire as _};
use slab::Slab;
use sockets::Sockets;
use std::alloc::Global;
use std::io::{Read as _, Write as _};
use std::net::{SocketAddr, TcpStream};
use std::time::{Duration, Instant};

/// The rounds after which a scenario gives up, whatever else the machine does.
const PATIENCE: u32 = 1_000;

/// The name of the socket of a client that is not there: no socket has it.
const NOBODY: u64 = u64::MAX;

/// Sockets of the system that listen at a free port, with their clients, and what steps have remembered.
#[derive(Drop)]
pub(crate) struct Scene {
    pub(crate) rt: HostRuntime,
    pub(crate) sockets: Sockets,
    /// The clients; `None` for one that has gone away.
    pub(crate) clients: Vec<Option<TcpStream>>,
    /// The names of the sockets that were accepted, in the order of clients.
    pub(crate) names: Vec<u64>,
    /// Slots that hold sockets.
    pub(crate) peers: Slab<Peer>,
    /// How many bytes the socket that was filled last took.
    pub(crate) taken: u64,
    /// A moment that a step has set.
    pub(crate) moment: Option<Instant>,
    /// The number of tries that succeeded.
    pub(crate) successes: u32,
    /// The shortest rest.
    pub(crate) shortest: Duration,
}

/// What a client does.
#[derive(Clone, Copy, Drop)]
pub(crate) enum Deed {
    /// It writes these bytes.
    Says(&'static [u8]),
    /// It goes away.
    Goes,
    /// It reads all that the socket that was filled last has taken.
    ReadsAll,
}

/// Listens at a free port, with a patience of [`TIME`] milliseconds if `is_timed`.
fn listening(rt: &HostRuntime, alloc: Global, is_timed: bool) -> Result<Sockets, Unmet> {
    let address = value_of("parse", "127.0.0.1:0".parse::<SocketAddr>())?;
    let sockets = value_of("Sockets::bind", Sockets::bind(rt, alloc, address))?;
    if is_timed {
        return Ok(sockets.with_patience(rt, Duration::from_millis(TIME)));
    }
    Ok(sockets)
}

/// Returns the next socket that is accepted.
pub(crate) fn accepted(sockets: &mut Sockets) -> Result<u64, Unmet> {
    for _ in 0..PATIENCE {
        match sockets.accept() {
            Accept::Socket(name) => return Ok(name),
            Accept::Nothing => sockets.rest(),
            Accept::Failed => return Err(Unmet::Call("accept")),
        }
    }
    Err(Unmet::Claim("a socket came"))
}

/// Reads `count` bytes as a client.
fn read_all(client: &mut TcpStream, count: u64) -> Result<(), Unmet> {
    let mut buffer = [0u8; 4096];
    let mut left = count;
    for _ in 0..count {
        if left == 0 {
            return Ok(());
        }
        let some = value_of("read", client.read(&mut buffer))?;
        left = left.saturating_sub(some as u64);
    }
    expect_number("the number of bytes that are missing", left, 0)
}

/// Has a client go away.
fn hang_up(client: &mut Option<TcpStream>) {
    *client = None;
}

impl Scene {
    /// Listens at a free port. A socket has [`TIME`] milliseconds until it has to be welcomed, and after its farewell, if `is_timed`.
    pub(crate) fn new(rt: &HostRuntime, alloc: Global, is_timed: bool) -> Result<Scene, Unmet> {
        Ok(Scene {
            rt: *rt,
            sockets: listening(rt, alloc, is_timed)?,
            clients: Vec::new(alloc),
            names: Vec::new(alloc),
            peers: Slab::new(alloc),
            taken: 0,
            moment: None,
            successes: 0,
            shortest: Duration::MAX,
        })
    }

    /// Returns the name of the socket of `client`.
    pub(crate) fn socket(&self, client: usize) -> u64 {
        match self.names.get(client) {
            Some(name) => *name,
            None => NOBODY,
        }
    }

    /// Connects a client.
    pub(crate) fn connect(&mut self) -> Result<(), Unmet> {
        let address = value_of("Sockets::local_addr", self.sockets.local_addr())?;
        let client = value_of("TcpStream::connect", TcpStream::connect(&self.rt, address))?;
        value_of("push", self.clients.push(Some(client)))
    }

    /// Accepts the next socket.
    pub(crate) fn accept(&mut self) -> Result<(), Unmet> {
        let name = accepted(&mut self.sockets)?;
        value_of("push", self.names.push(name))
    }

    /// Connects a client and accepts its socket.
    pub(crate) fn meet(&mut self) -> Result<(), Unmet> {
        self.connect()?;
        self.accept()
    }

    /// Begins a round, in which no client is awaited.
    pub(crate) fn begin_round(&mut self) -> Result<(), Unmet> {
        self.sockets.accept();
        Ok(())
    }

    /// Rests.
    pub(crate) fn rest(&mut self) -> Result<(), Unmet> {
        self.sockets.rest();
        Ok(())
    }

    /// Writes `bytes` as a client.
    pub(crate) fn say(&mut self, client: usize, bytes: &[u8]) -> Result<(), Unmet> {
        match self.clients.get_mut(client) {
            Some(Some(stream)) => value_of("write_all", stream.write_all(bytes)),
            _ => Err(Unmet::Call("write_all")),
        }
    }

    /// Has a client go away.
    fn part(&mut self, client: usize) -> Result<(), Unmet> {
        match self.clients.get_mut(client) {
            Some(there) => {
                hang_up(there);
                Ok(())
            }
            None => Err(Unmet::Call("drop")),
        }
    }

    /// Reads `count` bytes as a client.
    pub(crate) fn read_back(&mut self, client: usize, count: u64) -> Result<(), Unmet> {
        match self.clients.get_mut(client) {
            Some(Some(stream)) => read_all(stream, count),
            _ => Err(Unmet::Call("read")),
        }
    }

    /// Has a client do something.
    pub(crate) fn act(&mut self, client: usize, deed: Deed) -> Result<(), Unmet> {
        match deed {
            Deed::Says(bytes) => self.say(client, bytes),
            Deed::Goes => self.part(client),
            Deed::ReadsAll => self.read_back(client, self.taken),
        }
    }
}
