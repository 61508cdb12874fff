//! A listening socket and those that it accepted, all non-blocking.

ghost use Rattle.std.specs.Prelude.{◌≡◌, ◌≤◌, ◌<◌, ◌+◌, ◌*◌, ℕ, None, length};
ghost use Rattle.serving.specs.Answered.{accept_call, read_call, write_call};
ghost use Rattle.serving.specs.declared.wire.Accept.TheVariants as accept;
ghost use Rattle.serving.specs.declared.wire.Read.TheVariants as read;
ghost use Rattle.serving.specs.declared.wire.Write.TheVariants as write;
ghost use Rattle.sockets.specs.Counts.{fails};

use crate::answers::{is_later, read_answer, write_answer};
use crate::counts::{
    Count, PLACES, Totals, count_accept, count_read, count_write, place_in, totals_at,
};
use crate::rounds::Rounds;
use crate::watch::Watch;
use mio::event::Event;
use mio::net::{TcpListener, TcpStream};
use mio::{Events, Interest, Poll, Token};
use serving::{Accept, Peer, Read, Wire, Write};
use slab::Slab;
use std::alloc::Global;
use std::io::{self, Read as _, Write as _};
use std::net::{Net, SocketAddr};
use std::rt::HostRuntime;
use std::time::{Duration, Instant};
use turns::Turns;

/// The token of the listening socket. The token of an accepted socket is its name, which is less.
const LISTENER: Token = Token(usize::MAX);

/// The greatest number of sockets that are ever accepted, so that each name is distinct, and none is the listener's token.
const MOST_GIVEN: u64 = u64::MAX / PLACES - 1;

/// The seconds that a client has to log in, and to answer a close.
const PATIENCE: u64 = 30;

/// The most bytes of an output that the system is offered in a round, so that the others are served in between.
const MOST_WRITTEN: usize = 262_144;

/// The most milliseconds that a rest lasts.
const LONGEST_REST: u64 = 100;

/// The most events of a fetch: as many as a server has connections, and one for the listening socket.
const MOST_EVENTS: usize = 1025;

/// A socket that was accepted.
#[derive(Drop)]
struct Accepted {
    /// The number of sockets accepted before it, times `PLACES`, plus its index. So a socket is found in constant time, and a later socket at the
    /// same index has another name.
    name: u64,
    stream: TcpStream,
    /// The turn since which a write waits for room, if one does.
    full: Option<u64>,
    /// Whether it was full and an event has reported room since.
    has_room: bool,
    /// When its reads and writes begin to fail, unless its connection runs: by then the connection has to run, or to be over with all output written.
    ends: Option<Instant>,
    /// Whether its connection is not running.
    is_stranger: bool,
}

/// The sockets of a server: one that listens, and those that it accepted, with names that are never used again. None blocks
/// except in `rest`, which waits at most 100 milliseconds for one of them to have something. Which sockets the system is asked for bytes in a round
/// is decided by crate `turns`. A socket is full if its last write took less than it was offered: the system is asked about it again in its turn, or
/// once an event names it.
#[derive(Drop)]
pub struct Sockets {
    listener: TcpListener,
    poll: Poll,
    events: Events,
    /// The accepted sockets, by the index in their names.
    accepted: Slab<Accepted>,
    /// The number of sockets that were accepted and kept.
    given: u64,
    /// Numbers the rounds, and decides which full sockets are asked for a write.
    rounds: Rounds,
    /// Decides which sockets are asked for bytes, by the index in their names.
    turns: Turns,
    /// The clock by which sockets are ended.
    watch: Watch,
    /// Whether an event named the listening socket, so that a client may be waiting to be accepted.
    is_called: bool,
    /// Whether a slot was seen that holds a socket of another index: since then each slot is asked.
    is_askew: bool,
    failures: u64,
    /// The bytes that each socket gave and took, by the index in their names.
    counts: Vec<Option<Count>>,
}

/// Returns whether a full socket is written to again after `event`: it has room, or it was closed or failed, which the write then reports.
fn has_room(event: &Event) -> bool {
    event.is_writable() || event.is_write_closed() || event.is_error()
}

/// Records what an event says of the socket with this index: that its peer has ended it, or that it has something.
fn hear_event(turns: &mut Turns, index: usize, event: &Event) {
    if event.is_read_closed() || event.is_error() {
        turns.end(index);
    } else if event.is_readable() {
        turns.speak(index);
    }
}

/// Returns whether a slot is free, or holds the socket whose index it is.
fn is_own(peers: &Slab<Peer>, slot: usize) -> bool {
    match peers.get(slot) {
        Some(peer) => place_in(peer.socket) == slot,
        None => true,
    }
}

/// Returns the socket with this name, if it is still there.
fn named(accepted: &mut Slab<Accepted>, name: u64) -> Option<&mut Accepted> {
    match accepted.get_mut(place_in(name)) {
        Some(found) if found.name == name => Some(found),
        _ => None,
    }
}

/// Listens at `address`, and registers the listening socket with `poll`.
fn listen(net: &impl Net, poll: &Poll, address: SocketAddr) -> io::Result<TcpListener> {
    let mut listener = TcpListener::bind(net, address)?;
    poll.registry()
        .register(&mut listener, LISTENER, Interest::READABLE)?;
    Ok(listener)
}

/// Sets a socket to send small pieces at once, and registers it with `poll` under its name, for reads and writes.
fn set_up(poll: &Poll, stream: &mut TcpStream, name: u64) -> io::Result<()> {
    stream.set_nodelay(true)?;
    let both = Interest::READABLE | Interest::WRITABLE;
    poll.registry().register(stream, Token(name as usize), both)
}

impl Sockets {
    ghost use Rattle.std.specs.Prelude.{◌≡◌, ◌+◌, ◌≤◌, ◌<◌, ◌*◌, ℕ, List, Some, None, length, IfOk, IfSome, cond};
    ghost use Rattle.std.specs.Duration.{as_nanos};
    ghost use Rattle.turns.specs.Turns.{HasMore, voice_at};
    ghost use Rattle.sockets.specs.Traffic.{patience_of, seen, traffic_of};

    /// Listens at `address`.
    pub fn bind(net: &impl Net, alloc: Global, address: SocketAddr) -> io::Result<Sockets> {
        let poll = Poll::new(net)?;
        let listener = listen(net, &poll, address)?;
        let events = Events::with_capacity(alloc, MOST_EVENTS)?;
        Ok(Sockets {
            listener,
            poll,
            events,
            accepted: Slab::with_capacity(alloc, MOST_EVENTS)?,
            given: 0,
            rounds: Rounds::new(),
            turns: Turns::new(alloc)?,
            watch: Watch::none(),
            is_called: true,
            is_askew: false,
            failures: 0,
            counts: vec![in alloc; None; PLACES as usize]?,
        })
    }

    /// Listens at `address` for the clients of a server. Each socket has 30 seconds until its connection has to run, and 30 seconds after its
    /// farewell ([`Sockets::with_patience`]).
    pub fn for_clients(rt: &HostRuntime, alloc: Global, address: SocketAddr) -> io::Result<Sockets>
        ensures patience { IfOk result (λ s. patience_of s ≡ Some 30000000000) }
    {
        let sockets = Sockets::bind(rt, alloc, address)?;
        Ok(sockets.with_patience(rt, Duration::from_secs(PATIENCE)))
    }

    /// Sets how long a socket may stay whose connection is not running: reads and writes fail if it was not welcomed within `patience` after it was
    /// accepted, or is still there `patience` after its farewell, whatever it sent.
    pub fn with_patience(mut self, clock: &HostRuntime, patience: Duration) -> Sockets
        ensures traffic { traffic_of result ≡ traffic_of self }
        ensures patience { patience_of result ≡ Some (as_nanos patience) }
    {
        self.watch = Watch::new(*clock, patience);
        self
    }

    /// Returns the address at which it listens.
    pub fn local_addr(&self) -> io::Result<SocketAddr> {
        self.listener.local_addr()
    }

    /// Returns how many bytes the socket `name` gave and took since it was accepted, if that is counted.
    pub fn totals(&self, name: u64) -> Option<Totals>
        ensures { seen result ≡ (traffic_of self.now).totals name }
    {
        totals_at(&self.counts, name)
    }

    /// Counts a failure, and returns whether it could be counted.
    fn fail(&mut self) -> bool
        ensures failures { self.new.failures ≡ self.old.failures + cond result 1 0 }
        ensures given { self.new.given ≡ self.old.given }
        ensures counts { self.new.counts ≡ self.old.counts }
    {
        if self.failures == u64::MAX {
            return false;
        }
        self.failures += 1;
        true
    }

    /// Keeps an accepted socket under a new name, and returns the name. Closes the socket and returns `None` if it can't be kept.
    fn keep(&mut self, mut stream: TcpStream) -> Option<u64>
        ensures failures { self.new.failures ≡ self.old.failures }
        ensures counts { self.new.counts ≡ self.old.counts }
        ensures given { self.old.given ≤ self.new.given }
        ensures fresh { IfSome result (λ name. self.old.given * 4096 ≤ name) }
        ensures named { IfSome result (λ name. name < self.new.given * 4096) }
    {
        self.accepted.reserve(1).ok()?;
        let place = self.accepted.vacant_key() as u64;
        if place >= PLACES || self.given >= MOST_GIVEN {
            return None;
        }
        let name = self.given * PLACES + place;
        set_up(&self.poll, &mut stream, name).ok()?;
        let ends = self.watch.ends();
        self.watch.expect(ends);
        let accepted = Accepted {
            name,
            stream,
            full: None,
            has_room: false,
            ends,
            is_stranger: true,
        };
        self.accepted.insert_reserved(accepted);
        self.turns.enter(place as usize);
        self.given += 1;
        Some(name)
    }

    /// Returns the most milliseconds that a rest lasts: 0 while a socket waits that has more.
    fn longest_rest(&self) -> u64
        ensures most { result ≤ 100 }
        ensures pressed { (i : ℕ) → HasMore (voice_at self.now.turns.voices i) → result ≡ 0 }
    {
        if self.turns.is_pressed() {
            0
        } else {
            LONGEST_REST
        }
    }

    /// Begins a round, and fetches events first if none were fetched for long.
    fn begin(&mut self)
        ensures failures { self.new.failures ≡ self.old.failures }
        ensures counts { self.new.counts ≡ self.old.counts }
        ensures given { self.new.given ≡ self.old.given }
    {
        if self.rounds.fetches(self.turns.is_pressed()) {
            self.fetch(0);
        }
        self.watch.look();
        self.end_late();
        self.rounds.begin();
        self.turns.begin(self.rounds.number());
    }

    /// Has each socket whose time is over asked in each round from now on: the next read or write of it fails. Looks at none before the first is due.
    fn end_late(&mut self)
        ensures failures { self.new.failures ≡ self.old.failures }
        ensures counts { self.new.counts ≡ self.old.counts }
        ensures given { self.new.given ≡ self.old.given }
    {
        if !self.watch.looks() {
            return;
        }
        for (index, accepted) in &self.accepted {
            if self.watch.is_over(accepted.ends) {
                self.turns.end(index);
            } else {
                self.watch.expect(accepted.ends);
            }
        }
    }

    /// Fetches the events of all sockets, and waits at most `millis` milliseconds for one.
    fn fetch(&mut self, millis: u64)
        ensures failures { self.new.failures ≡ self.old.failures }
        ensures counts { self.new.counts ≡ self.old.counts }
        ensures given { self.new.given ≡ self.old.given }
    {
        let longest = Duration::from_millis(millis);
        let _ = self.poll.poll(&mut self.events, Some(longest));
        self.hear();
    }

    /// Begins a round. Accepts a socket, unless no client is likely to wait.
    fn ask(&mut self) -> Accept
        ensures failures { self.new.failures ≡ self.old.failures + fails (accept_call result) }
        ensures counts { self.new.counts ≡ self.old.counts }
        ensures given { self.old.given ≤ self.new.given }
        ensures fresh { (s : ℕ) → result ≡ accept.Socket s → self.old.given * 4096 ≤ s }
        ensures named { (s : ℕ) → result ≡ accept.Socket s → s < self.new.given * 4096 }
    {
        self.begin();
        if !self.is_called && !self.rounds.accepts(self.turns.is_pressed()) {
            return Accept::Nothing;
        }
        match self.listener.accept() {
            Ok((stream, _)) => match self.keep(stream) {
                Some(name) => Accept::Socket(name),
                None if self.fail() => Accept::Failed,
                None => Accept::Nothing,
            },
            Err(error) if is_later(&error) => {
                self.is_called = false;
                Accept::Nothing
            }
            Err(_) if self.fail() => Accept::Failed,
            Err(_) => Accept::Nothing,
        }
    }

    /// Returns the answer of a read that failed: a failure if it can be counted, otherwise the end.
    fn failed_read(&mut self) -> Read
        ensures failures { (s room : ℕ) (bytes : List ℕ) → self.new.failures ≡ self.old.failures + fails (read_call s room result bytes) }
        ensures counts { self.new.counts ≡ self.old.counts }
        ensures given { self.new.given ≡ self.old.given }
        ensures none { (n : ℕ) → result ≡ read.Got n → ⊥ }
    {
        if self.fail() {
            return Read::Failed;
        }
        Read::End
    }

    /// Returns the answer for a write that failed: `Failed` if the failure can be counted, otherwise `Wait`.
    fn failed_write(&mut self) -> Write
        ensures failures { (s : ℕ) (bytes : List ℕ) → self.new.failures ≡ self.old.failures + fails (write_call s result bytes) }
        ensures counts { self.new.counts ≡ self.old.counts }
        ensures given { self.new.given ≡ self.old.given }
        ensures none { (n : ℕ) → result ≡ write.Took n → ⊥ }
    {
        if self.fail() {
            return Write::Failed;
        }
        Write::Wait
    }

    /// Reads from `socket` if the system is to be asked about it in this round; otherwise returns `Wait`. Fails if the socket's time is over.
    fn read_from(&mut self, socket: u64, buffer: &mut [u8]) -> Read
        ensures failures { (s room : ℕ) → self.new.failures ≡ self.old.failures + fails (read_call s room result buffer.new) }
        ensures counts { self.new.counts ≡ self.old.counts }
        ensures given { self.new.given ≡ self.old.given }
        ensures within { (n : ℕ) → result ≡ read.Got n → n ≤ length buffer.new }
    {
        let Some(accepted) = named(&mut self.accepted, socket) else {
            return Read::End;
        };
        if self.watch.is_over(accepted.ends) {
            return self.failed_read();
        }
        let index = place_in(socket);
        if !self.turns.is_due(index) {
            return Read::Wait;
        }
        let room = buffer.len();
        match read_answer(accepted.stream.read(buffer), room) {
            Read::Got(count) => {
                self.turns.hear(index, count >= room, accepted.is_stranger);
                Read::Got(count)
            }
            Read::Wait => {
                self.turns.fall_silent(index);
                Read::Wait
            }
            Read::End => Read::End,
            Read::Failed => self.failed_read(),
        }
    }

    /// Returns the first slot at or after `from` whose socket has to be asked for bytes, or `end` if there is none. That is the next index that is due, as
    /// long as each slot that was returned held the socket of its index. A slot that got a new socket is returned in that round, so none is missed.
    fn first_asked(&mut self, peers: &Slab<Peer>, from: usize, end: usize) -> usize
        requires { from ≤ end }
        // The frame: what the sockets know is unchanged.
        ensures traffic { traffic_of self.new ≡ traffic_of self.old }
        ensures least { from ≤ result }
        ensures most { result ≤ end }
    {
        let next = self.turns.next_due(from, end);
        self.is_askew = self.is_askew | !is_own(peers, next);
        if self.is_askew { from } else { next }
    }

    /// Returns whether `slot` needs no write now: it is empty, or no event has reported room at its socket and the socket is not due in this round. A
    /// socket that isn't full is never due.
    fn stays_full(&mut self, peers: &Slab<Peer>, slot: usize) -> bool
        ensures { traffic_of self.new ≡ traffic_of self.old }
    {
        let Some(peer) = peers.get(slot).copied() else {
            return true;
        };
        match self.accepted.get(place_in(peer.socket)) {
            Some(found) if found.name == peer.socket && !found.has_room => {
                self.rounds.passes_write(found.full)
            }
            _ => false,
        }
    }

    /// Returns the first slot at or after `from` whose socket has to be asked for a write, or `end` if there is none.
    fn first_with_room(&mut self, peers: &Slab<Peer>, from: usize, end: usize) -> usize
        requires { from ≤ end }
        // The frame: what the sockets know is unchanged.
        ensures traffic { traffic_of self.new ≡ traffic_of self.old }
        ensures least { from ≤ result }
        ensures most { result ≤ end }
    {
        if !self.rounds.asks_full() {
            return end;
        }
        let mut slot = from;
        while slot < end && self.stays_full(peers, slot) {
            slot += 1;
        }
        slot
    }

    /// Writes up to 262,144 bytes to `socket` if the system is to be asked about it in this round; otherwise returns `Wait`. Fails if the socket's time
    /// is over.
    fn write_to(&mut self, socket: u64, bytes: &[u8]) -> Write
        ensures failures { (s : ℕ) → self.new.failures ≡ self.old.failures + fails (write_call s result bytes.now) }
        ensures counts { self.new.counts ≡ self.old.counts }
        ensures given { self.new.given ≡ self.old.given }
        ensures within { (n : ℕ) → result ≡ write.Took n → n ≤ length bytes.now }
    {
        let Some(accepted) = named(&mut self.accepted, socket) else {
            return Write::Wait;
        };
        if self.watch.is_over(accepted.ends) {
            return self.failed_write();
        }
        if !self.rounds.asks_write(accepted.full) {
            return Write::Wait;
        }
        let offered = &bytes[..bytes.len().min(MOST_WRITTEN)];
        let answer = write_answer(accepted.stream.write(offered));
        accepted.full = self.rounds.after_write(answer, offered.len());
        accepted.has_room = false;
        match answer {
            Write::Took(count) => Write::Took(count),
            Write::Wait => Write::Wait,
            Write::Failed => self.failed_write(),
        }
    }

    /// Updates the sockets that the fetched events name, so that they are asked at once. If there was an event, records that the others have nothing.
    fn hear(&mut self)
        ensures failures { self.new.failures ≡ self.old.failures }
        ensures counts { self.new.counts ≡ self.old.counts }
        ensures given { self.new.given ≡ self.old.given }
    {
        for event in &self.events {
            if event.token() == LISTENER {
                self.is_called = true;
            } else if let Some(accepted) = named(&mut self.accepted, event.token().0 as u64) {
                hear_event(&mut self.turns, place_in(accepted.name), event);
                if accepted.full.is_some() && has_room(event) {
                    accepted.full = None;
                    accepted.has_room = true;
                    self.rounds.free();
                }
            }
        }
        self.rounds.note_fetched(!self.events.is_empty());
    }
}

impl Wire for Sockets {
    ghost use Rattle.sockets.specs.Traffic.{traffic_of};

    ghost past = { traffic_of };

    fn accept(&mut self) -> Accept {
        let answer = self.ask();
        count_accept(&mut self.counts, answer);
        answer
    }

    fn read(&mut self, socket: u64, buffer: &mut [u8]) -> Read {
        let answer = self.read_from(socket, buffer);
        count_read(&mut self.counts, socket, answer);
        answer
    }

    fn note_part(&mut self, socket: u64) {
        if named(&mut self.accepted, socket).is_some() {
            self.turns.note_part(place_in(socket));
        }
    }

    fn pass_silent(&mut self, peers: &Slab<Peer>, from: usize, end: usize) -> usize {
        self.first_asked(peers, from, end)
    }

    fn pass_full(&mut self, peers: &Slab<Peer>, from: usize, end: usize) -> usize {
        self.first_with_room(peers, from, end)
    }

    fn write(&mut self, socket: u64, bytes: &[u8]) -> Write {
        let answer = self.write_to(socket, bytes);
        count_write(&mut self.counts, socket, answer);
        answer
    }

    fn close(&mut self, socket: u64) {
        if named(&mut self.accepted, socket).is_some() {
            self.turns.leave(place_in(socket));
            self.accepted.try_remove(place_in(socket));
        }
    }

    fn welcome(&mut self, socket: u64) {
        if let Some(accepted) = named(&mut self.accepted, socket) {
            accepted.ends = None;
            accepted.is_stranger = false;
            self.turns.begin_anew(place_in(socket));
        }
    }

    fn farewell(&mut self, socket: u64) {
        let ends = self.watch.ends();
        if let Some(accepted) = named(&mut self.accepted, socket) {
            accepted.ends = ends;
            accepted.is_stranger = true;
            self.watch.expect(ends);
            self.turns.begin_anew(place_in(socket));
        }
    }

    fn rest(&mut self) {
        let longest = self.longest_rest();
        self.fetch(longest);
    }
}
