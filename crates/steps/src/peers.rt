//! Steps of clients that are served over sockets of the system. Start with [`Peers`].

use crate::setups::Disk;
use crate::worlds::{Step, World, number_at, put_failure};
use engine::Engine;
use line_parts::{LineAnswer, Unanswered};
use scenario_outcomes::{earliest_end, expect_past};
use scenario_parts::Watched;
use serving::{Server, serve};
use sockets::Sockets;
use std::io::{self, ErrorKind, Read as _, Write as _};
use std::net::{Net, OpenStream as _, SocketAddr, TcpStream};
use std::time::{Duration, Instant};

/// The number of rounds in which everything that a client wrote is served. A round in which nothing comes waits.
const TURNS: u64 = 4;

/// The number of rounds after which a wait gives up, whatever else the machine does.
const PATIENCE: u32 = 1_000;

/// A server over sockets of the system, and its clients, which never wait.
#[derive(Drop)]
pub(crate) struct Peers<'a, N: Net> {
    net: &'a N,
    rt: &'a HostRuntime,
    server: Server<Engine>,
    sockets: Watched<Sockets>,
    /// The clients, and `None` for one that has gone away.
    clients: Vec<Option<N::Stream>>,
    /// A moment that a step has named.
    moment: Option<Instant>,
    /// Whether the client that was read last has an open socket.
    is_open: bool,
}

/// Listens at a free port. Ends a client whose connection is not running after `patience` milliseconds; 0 says never.
fn listening(rt: &HostRuntime, out: &mut LineAnswer, patience: u64) -> Option<Sockets> {
    let address = "127.0.0.1:0".parse::<SocketAddr>();
    let address = out.value_of(address, Unanswered::Form)?;
    let sockets = Sockets::bind(rt, out.alloc(), address);
    let sockets = out.value_of(sockets, Unanswered::File)?;
    if patience == 0 {
        return Some(sockets);
    }
    Some(sockets.with_patience(rt, Duration::from_millis(patience)))
}

/// Writes `bytes`.
fn write_all<S: io::Write>(out: &mut LineAnswer, client: &mut S, bytes: &[u8]) {
    put_failure(out, client.write_all(bytes), "not written");
}

/// Appends what can be read now to `bytes`, and returns whether the other side may write more.
fn is_read<S: io::Read>(out: &mut LineAnswer, client: &mut S, bytes: &mut Vec<u8>) -> bool {
    match client.read_to_end(bytes) {
        Ok(_) => false,
        Err(error) if error.kind() == ErrorKind::WouldBlock => true,
        Err(_) => {
            out.put("not read");
            true
        }
    }
}

impl<'a, N: Net> Peers<'a, N> {
    /// Returns a server over the definitions file of `FILE PATIENCE`, without clients.
    pub(crate) fn new(
        disk: Disk<'a>,
        net: &'a N,
        out: &mut LineAnswer,
        asked: &str,
    ) -> Option<Peers<'a, N>> {
        let (file, patience) = asked.split_once(' ').unwrap_or((asked, ""));
        let (patience, _) = number_at(out, patience);
        let engine = disk.engine(out, file)?;
        let sockets = listening(disk.rt, out, patience)?;
        match Server::new(out.alloc(), engine) {
            Ok(server) => Some(Peers {
                net,
                rt: disk.rt,
                server,
                sockets: Watched::new(sockets),
                clients: Vec::new(out.alloc()),
                moment: None,
                is_open: true,
            }),
            Err(_) => {
                out.fail(Unanswered::Memory);
                None
            }
        }
    }

    /// Connects a client.
    fn connect(&mut self, out: &mut LineAnswer) {
        let Ok(address) = self.sockets.sockets.local_addr() else {
            return out.put("no address");
        };
        let Ok(client) = TcpStream::connect(self.net, address) else {
            return out.put("not connected");
        };
        if client.set_nonblocking(true).is_err() {
            out.put("waits");
        }
        if self.clients.push(Some(client)).is_err() {
            out.put("memory");
        }
    }

    /// Writes the bytes of `step` as its client.
    fn write(&mut self, out: &mut LineAnswer, step: &Step<'_>) {
        match self.clients.get_mut(step.first as usize) {
            Some(Some(client)) => write_all(out, client, step.bytes.as_slice()),
            _ => out.put("no client"),
        }
    }

    /// Appends the bytes that a client can read now to `bytes`.
    fn read(&mut self, out: &mut LineAnswer, client: u64, bytes: &mut Vec<u8>) {
        match self.clients.get_mut(client as usize) {
            Some(Some(client)) => self.is_open = is_read(out, client, bytes),
            _ => out.put("no client"),
        }
    }

    /// Appends what a client can read now.
    fn put_there(&mut self, out: &mut LineAnswer, client: u64) {
        let mut bytes = Vec::new(out.alloc());
        self.read(out, client, &mut bytes);
        out.put_hex(bytes.as_slice());
    }

    /// Serves until a client has read `wanted` bytes, or its socket is closed. Appends what it read.
    fn put_awaited(&mut self, out: &mut LineAnswer, client: u64, wanted: u64) {
        let mut bytes = Vec::new(out.alloc());
        for _ in 0..PATIENCE {
            self.read(out, client, &mut bytes);
            if !self.is_open || bytes.len() as u64 >= wanted {
                break;
            }
            self.serve(out, 1);
        }
        out.put_hex(bytes.as_slice());
    }

    /// Does `rounds` rounds. Rounds in which nothing comes wait.
    fn serve(&mut self, out: &mut LineAnswer, rounds: u64) {
        serve(out.alloc(), &mut self.server, &mut self.sockets, rounds);
    }

    /// Serves until `count` sockets were closed, and appends the number of those that were.
    fn await_closes(&mut self, out: &mut LineAnswer, count: u64) {
        for _ in 0..PATIENCE {
            if self.sockets.closes < count {
                self.serve(out, 1);
            }
        }
        out.put_number(self.sockets.closes);
    }

    /// Ends a client: its socket is closed.
    fn drop_client(&mut self, out: &mut LineAnswer, client: u64) {
        match self.clients.get_mut(client as usize) {
            Some(client) => drop(client.take()),
            None => out.put("no client"),
        }
    }

    /// Appends how many bytes a socket gave and took since it was accepted.
    fn put_totals(&self, out: &mut LineAnswer, socket: u64) {
        match self.sockets.sockets.totals(socket) {
            Some(totals) => {
                out.put_number(totals.got);
                out.put(" ");
                out.put_number(totals.taken);
            }
            None => out.put("none"),
        }
    }

    /// Names the moment `time` milliseconds from now.
    fn set_moment(&mut self, out: &mut LineAnswer, time: u64) {
        match earliest_end(self.rt, time) {
            Ok(moment) => self.moment = Some(moment),
            Err(_) => out.put("no clock"),
        }
    }

    /// Returns whether the named moment has passed.
    fn is_past(&self) -> bool {
        match self.moment {
            Some(moment) => expect_past(self.rt, moment).is_ok(),
            None => false,
        }
    }

    /// Takes a step that looks at the sockets, or waits for them.
    fn answer_of_sockets(&mut self, out: &mut LineAnswer, step: &Step<'_>) {
        match step.kind {
            "totals" => self.put_totals(out, step.first),
            "closes" => out.put_number(self.sockets.closes),
            "await-closes" => self.await_closes(out, step.first),
            "short-writes" => out.put_yes_or_no(self.sockets.short_writes > 0),
            "open" => out.put_yes_or_no(self.is_open),
            "moment" => self.set_moment(out, step.first),
            "past" => out.put_yes_or_no(self.is_past()),
            _ => out.fail(Unanswered::Form),
        }
    }
}

impl<'a, N: Net> World for Peers<'a, N> {
    fn answer(&mut self, out: &mut LineAnswer, step: &Step<'_>) {
        let client = step.first;
        match step.kind {
            "connect" => self.connect(out),
            "write" => self.write(out, step),
            "in" => {
                self.write(out, step);
                self.serve(out, TURNS);
            }
            "serve" => self.serve(out, step.first),
            "drop" => self.drop_client(out, client),
            "there" => self.put_there(out, client),
            "awaited" => self.put_awaited(out, client, step.second),
            _ => self.answer_of_sockets(out, step),
        }
    }

    fn is_so(&self, _condition: &str) -> bool {
        false
    }
}
