//! Steps of clients that are served in memory. Start with [`Served`].

use crate::machines::{Refusals, Refusing};
use crate::setups::Disk;
use crate::worlds::{Step, World, put_failure};
use engine::Engine;
use line_parts::{LineAnswer, Unanswered};
use memory_wire::{Client, Failing, FailingCall, Logged, MemoryWire};
use serving::{Server, serve};
use std::alloc::Global;

/// The ids of basic.deliver, which occur nowhere else in what the clients of the scenarios take.
const DELIVER: &[u8] = b"\x00\x3c\x00\x3c";

/// The number of rounds after which a wait for a delivery gives up.
const PATIENCE: u64 = 64;

/// Which calls fail.
#[derive(Clone, Copy, Drop)]
pub(crate) struct Fault<'a> {
    /// Calls of the wire (`accept`, `read`, `write`), or of the machine: those that may allocate (`call`), or of one kind (`opens`, `pumps`).
    pub(crate) calls: &'a str,
    /// The number of the one that fails, counted from 1. Of `opens` and `pumps` each fails.
    pub(crate) number: u64,
}

/// A server in memory, and its clients.
#[derive(Drop)]
pub(crate) struct Served<'a> {
    disk: Disk<'a>,
    server: Server<Refusing<Engine>>,
    wire: Failing<MemoryWire>,
}

/// Returns a wire without clients, a call of which fails if `fault` is one of the wire's.
fn wire_of(alloc: Global, fault: Fault<'_>) -> Failing<MemoryWire> {
    let (call, number) = match fault.calls {
        "accept" => (FailingCall::Accept, fault.number),
        "read" => (FailingCall::Read, fault.number),
        "write" => (FailingCall::Write, fault.number),
        _ => (FailingCall::Accept, 0),
    };
    Failing::new(MemoryWire::new(alloc, Vec::new(alloc)), call, number)
}

/// Returns how often `part` occurs in `bytes`.
fn occurrences(bytes: &[u8], part: &[u8]) -> u64 {
    let mut count = 0u64;
    for start in 0..bytes.len() {
        if bytes.split_at(start).1.starts_with(part) {
            count = count.saturating_add(1);
        }
    }
    count
}

/// Returns the number of bytes that `call` was offered, if it is a read of `socket` that got any; otherwise `before`.
fn offered_by(call: &Logged, socket: u64, before: u64) -> u64 {
    match call {
        Logged::Got(name, offered, _) if *name == socket => *offered as u64,
        _ => before,
    }
}

/// Returns whether `call` closed `socket`.
fn is_close_of(call: &Logged, socket: Option<u64>) -> bool {
    match call {
        Logged::Closed(name) => Some(*name) == socket,
        _ => false,
    }
}

/// Returns whether the socket was closed.
fn is_closed(calls: &[Logged], socket: Option<u64>) -> bool {
    for call in calls {
        if is_close_of(call, socket) {
            return true;
        }
    }
    false
}

/// Appends the sockets that were closed, in order, or `none`.
fn put_closed(out: &mut LineAnswer, calls: &[Logged]) {
    for call in calls {
        if let Logged::Closed(socket) = call {
            out.put_space();
            out.put_number(*socket);
        }
    }
    out.put_none_if_empty();
}

/// Appends the number of rounds that rested.
fn put_rests(out: &mut LineAnswer, calls: &[Logged]) {
    let mut count = 0u64;
    for call in calls {
        if let Logged::Rested = call {
            count = count.saturating_add(1);
        }
    }
    out.put_number(count);
}

/// Appends whether the last read of a socket that got bytes was offered so many; 0 if none did.
fn put_offered(out: &mut LineAnswer, calls: &[Logged], step: &Step<'_>) {
    let mut last = 0;
    for call in calls {
        last = offered_by(call, step.first, last);
    }
    out.put_yes_or_no(step.second <= last && last <= step.third);
}

/// Adds a client that connects in the next rounds: it writes `input` in pieces of `piece` bytes, and takes at most `window` bytes of a write.
fn add(out: &mut LineAnswer, clients: &mut Vec<Client>, piece: u64, window: u64, input: Vec<u8>) {
    let client = Client {
        input,
        read: 0,
        piece: piece as usize,
        window: window as usize,
    };
    out.push(clients, client);
}

/// Adds `count` clients that write nothing.
fn add_silent(out: &mut LineAnswer, clients: &mut Vec<Client>, count: u64) {
    for _ in 0..count {
        let input = Vec::new(out.alloc());
        add(out, clients, 0, u64::MAX, input);
    }
}

/// Appends the bytes of `step` to those that its client writes.
fn write(out: &mut LineAnswer, clients: &mut [Client], step: &Step<'_>) {
    match clients.get_mut(step.first as usize) {
        Some(client) => put_failure(out, client.input.extend_from_slice(&step.bytes), "memory"),
        None => out.put("no client"),
    }
}

/// Returns whether everything that `client` writes was read.
fn is_heard(clients: &[Client], client: Option<u64>) -> bool {
    let Some(client) = client else {
        return false;
    };
    match clients.get(client as usize) {
        Some(client) => client.read == client.input.len(),
        None => false,
    }
}

/// Takes a step that looks at the bytes that its client took.
fn put_taken(out: &mut LineAnswer, taken: &[u8], step: &Step<'_>) {
    let bytes = step.bytes.as_slice();
    match step.kind {
        "took" => out.put_hex(taken),
        "begins" => out.put_yes_or_no(taken.starts_with(bytes)),
        "has" => out.put_yes_or_no(occurrences(taken, bytes) > 0),
        "deliveries" => out.put_number(occurrences(taken, DELIVER)),
        _ => out.fail(Unanswered::Form),
    }
}

impl<'a> Served<'a> {
    /// Returns a server over the definitions file `file`, without clients.
    pub(crate) fn new(
        disk: Disk<'a>,
        out: &mut LineAnswer,
        file: &str,
        fault: Fault<'_>,
    ) -> Option<Served<'a>> {
        let machine = disk.engine(out, file)?;
        let refusals = Refusals::new(fault);
        match Server::new(out.alloc(), Refusing { machine, refusals }) {
            Ok(server) => Some(Served {
                disk,
                server,
                wire: wire_of(out.alloc(), fault),
            }),
            Err(_) => {
                out.fail(Unanswered::Memory);
                None
            }
        }
    }

    /// Adds the client that `step` describes.
    fn add_client(&mut self, out: &mut LineAnswer, step: &Step<'_>) {
        let input = step.copied_bytes(out);
        let clients = &mut self.wire.wire.clients;
        add(out, clients, step.first, step.second, input);
    }

    /// Does `rounds` rounds.
    fn serve(&mut self, out: &mut LineAnswer, rounds: u64) {
        serve(out.alloc(), &mut self.server, &mut self.wire, rounds);
        if !self.wire.wire.log.is_whole {
            out.put("the log is not whole");
        }
    }

    /// Puts files in force.
    fn reload(&mut self, out: &mut LineAnswer, files: &str) {
        if let Some(setup) = self.disk.setup(out, files) {
            put_failure(out, self.server.reload(out.alloc(), setup), "refused");
        }
    }

    /// Returns the bytes that `client` took.
    fn taken(&self, out: &mut LineAnswer, client: u64) -> Vec<u8> {
        match self.wire.wire.log.taken_by(out.alloc(), client) {
            Ok(taken) => taken,
            Err(_) => {
                out.fail(Unanswered::Memory);
                Vec::new(out.alloc())
            }
        }
    }

    /// Returns the number of deliveries that `client` took.
    fn deliveries(&self, out: &mut LineAnswer, client: u64) -> u64 {
        occurrences(self.taken(out, client).as_slice(), DELIVER)
    }

    /// Serves until `client` has taken a delivery, and appends the number of deliveries then.
    fn await_deliveries(&mut self, out: &mut LineAnswer, client: u64) {
        let mut count = 0;
        for _ in 0..PATIENCE {
            if count == 0 {
                self.serve(out, 1);
                count = self.deliveries(out, client);
            }
        }
        out.put_number(count);
    }

    /// Takes a step that looks at what a client took.
    fn answer_of_taken(&self, out: &mut LineAnswer, step: &Step<'_>) {
        let taken = self.taken(out, step.first);
        put_taken(out, taken.as_slice(), step);
    }

    /// Takes a step that looks at the calls of the wire or of the machine, or at what a client took.
    fn answer_of_calls(&self, out: &mut LineAnswer, step: &Step<'_>) {
        let calls = self.wire.wire.log.calls.as_slice();
        match step.kind {
            "closed" => put_closed(out, calls),
            "rests" => put_rests(out, calls),
            "accepts" => out.put_number(self.wire.wire.come as u64),
            "pumps" => out.put_number(self.server.machine().refusals.pumps),
            "offered" => put_offered(out, calls, step),
            _ => self.answer_of_taken(out, step),
        }
    }
}

impl World for Served<'_> {
    fn answer(&mut self, out: &mut LineAnswer, step: &Step<'_>) {
        match step.kind {
            "client" => self.add_client(out, step),
            "silent" => add_silent(out, &mut self.wire.wire.clients, step.first),
            "in" => write(out, self.wire.wire.clients.as_mut_slice(), step),
            "serve" => self.serve(out, step.first),
            "first-deliveries" => self.await_deliveries(out, step.first),
            "reload" => self.reload(out, step.text),
            _ => self.answer_of_calls(out, step),
        }
    }

    fn is_so(&self, condition: &str) -> bool {
        let (word, client) = condition.split_once(' ').unwrap_or((condition, ""));
        let client = client.parse::<u64>().ok();
        let wire = &self.wire.wire;
        match word {
            "fault" => self.wire.has_failed() || self.server.machine().refusals.has_refused(),
            "failed" => self.wire.failed_socket() == client,
            "heard" => is_heard(wire.clients.as_slice(), client),
            "unheard" => !is_heard(wire.clients.as_slice(), client),
            "lost" => is_closed(wire.log.calls.as_slice(), client),
            "kept" => !is_closed(wire.log.calls.as_slice(), client),
            _ => false,
        }
    }
}
