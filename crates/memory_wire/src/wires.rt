//! The wire in memory, and serving over it.

ghost use Rattle.std.specs.Prelude.{◌≡◌, ◌≤◌, ◌<◌, [], false, ℕ, List, length, nat_lt, Some, is_some};
ghost use Rattle.serving.specs.Wire.{is_failed};
ghost use Rattle.serving.specs.Answered.{accept_call, read_call, write_call};
ghost use Rattle.serving.specs.declared.wire.Accept.TheVariants as accept;
ghost use Rattle.serving.specs.declared.wire.Read.TheVariants as read;
ghost use Rattle.serving.specs.declared.wire.Write.TheVariants as write;
ghost use Rattle.serving.specs.Story.{served};
ghost use Rattle.memory_wire.specs.Logs.{logged_calls};
ghost use Rattle.memory_wire.specs.Served.{LogsFromNew};

use crate::clients::Client;
use crate::logs::{Log, Logged, logged_accept, logged_read, logged_write};
use runs::Machine;
use serving::{Accept, Read, Server, Wire, Write, ghost_new_is_served, serve};
use std::alloc::Global;

/// Clients, and a log of all calls. Each accept connects the next client, if one is left, and names its socket by the client's index.
#[derive(Drop)]
pub struct MemoryWire {
    pub alloc: Global,
    pub clients: Vec<Client>,
    pub come: usize,
    pub log: Log,
}

impl MemoryWire {
    /// Makes a wire with `clients`, none of which has connected yet, and an empty log.
    pub fn new(alloc: Global, clients: Vec<Client>) -> MemoryWire
        ensures { logged_calls result.log ≡ Some [] }
    {
        MemoryWire {
            alloc,
            clients,
            come: 0,
            log: Log::new(alloc),
        }
    }

    /// Accepts the next client, if there is one.
    fn next(&mut self) -> Accept
        ensures log { self.new.log ≡ self.old.log }
        ensures come { self.old.come ≤ self.new.come }
        ensures fresh { (s : ℕ) → result ≡ accept.Socket s → nat_lt s self.old.come ≡ false }
        ensures given { (s : ℕ) → result ≡ accept.Socket s → s < self.new.come }
        ensures unfailing { is_failed (accept_call result) ≡ false }
    {
        if self.come >= self.clients.len() {
            return Accept::Nothing;
        }
        let socket = self.come as u64;
        self.come += 1;
        Accept::Socket(socket)
    }

    /// Reads from the client of `socket`.
    fn give(&mut self, socket: u64, buffer: &mut [u8]) -> Read
        ensures log { self.new.log ≡ self.old.log }
        ensures come { self.new.come ≡ self.old.come }
        ensures length { length buffer.new ≡ length buffer.old }
        ensures within { (n : ℕ) → result ≡ read.Got n → n ≤ length buffer.new }
        ensures unfailing { (s room : ℕ) (bytes : List ℕ) → is_failed (read_call s room result bytes) ≡ false }
    {
        match self.clients.get_mut(socket as usize) {
            Some(client) => match client.give(buffer) {
                0 => Read::Wait,
                count => Read::Got(count),
            },
            None => Read::End,
        }
    }

    /// Writes to the client of `socket`.
    fn take(&self, socket: u64, bytes: &[u8]) -> Write
        ensures within { (n : ℕ) → result ≡ write.Took n → n ≤ length bytes.now }
        ensures unfailing { (s : ℕ) (offered : List ℕ) → is_failed (write_call s result offered) ≡ false }
    {
        match self.clients.get(socket as usize) {
            Some(client) => Write::Took(client.take(bytes)),
            None => Write::Wait,
        }
    }
}

impl Wire for MemoryWire {
    ghost use Rattle.memory_wire.specs.Logs.{logged_calls, traffic_with};

    ghost past = { λ w. traffic_with (logged_calls w.log) w.come };

    fn accept(&mut self) -> Accept {
        let answer = self.next();
        self.log.add(Ok(logged_accept(answer)));
        answer
    }

    fn read(&mut self, socket: u64, buffer: &mut [u8]) -> Read {
        let room = buffer.len();
        let answer = self.give(socket, buffer);
        let call = logged_read(self.alloc, socket, room, answer, &*buffer);
        self.log.add(call);
        answer
    }

    fn write(&mut self, socket: u64, bytes: &[u8]) -> Write {
        let answer = self.take(socket, bytes);
        let call = logged_write(self.alloc, socket, answer, bytes);
        self.log.add(call);
        answer
    }

    fn close(&mut self, socket: u64) {
        self.log.add(Ok(Logged::Closed(socket)));
    }

    fn welcome(&mut self, socket: u64) {
        self.log.add(Ok(Logged::Welcomed(socket)));
    }

    fn farewell(&mut self, socket: u64) {
        self.log.add(Ok(Logged::Farewell(socket)));
    }

    fn rest(&mut self) {
        self.log.add(Ok(Logged::Rested));
    }
}

/// Does `turns` rounds over a wire in memory, and returns whether its log is whole.
///
/// If it is, and the server was new and the log empty before, the bytes that each socket gave are those that arrived for its
/// connection, and the bytes that it took are a prefix of the connection's output.
pub fn serve_in_memory<M: Machine>(
    alloc: Global,
    server: &mut Server<M>,
    wire: &mut MemoryWire,
    turns: u64,
) -> bool
    ensures whole { result ≡ is_some (logged_calls wire.new.log) }
    ensures logs { LogsFromNew M.lacks M.world server.old wire.old.log server.new wire.new.log result }
{
    ghost_new_is_served(server, wire);
    serve(alloc, server, wire, turns);
    wire.log.is_whole
}
