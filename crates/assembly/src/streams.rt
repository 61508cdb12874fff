//! The stream of one connection. Start with [`Stream`].

ghost use Rattle.std.specs.Prelude.{◌≡◌, ◌≤◌, ◌<◌, ℕ, [], true, Some, None, Ok, Err, OnOk, OnErr, length};
ghost use Rattle.model.specs.Commands.{new_stream, running_stream, heard, with_max, keeping};
ghost use Rattle.assembly.specs.Held.{stream_of};
ghost use Rattle.assembly.specs.Names.{AreFew};
ghost use Rattle.assembly.specs.Pending.{GrowAsTheyCome};
ghost use Rattle.assembly.specs.Onward.{YieldsNext, broken_by};
ghost use Rattle.assembly.specs.declared.faults.Fault.TheVariants.{Broken};

use crate::contents::Awaited;
use crate::faults::Fault;
use crate::names::LastNames;
use crate::reading::{next_command, take_eight};
use crate::unread::Unread;
use model::Command;
use std::alloc::{AllocError, Global};
use std::marker::Model;

/// The bytes of one connection that have not been returned as commands yet.
pub struct Stream {
    alloc: Global,
    /// Whether the first eight bytes are awaited.
    is_new: bool,
    max: u32,
    /// Whether contents are kept, and not only counted.
    keeps: bool,
    contents: Vec<Awaited>,
    unread: Unread,
    names: LastNames,
    /// The reply code of the fault, once a call has returned it.
    fault: Option<u16>,
}

/// Not derived: a derived drop is expanded, and proved again, in each function that drops the value.
impl Drop for Stream {
    fn drop(self) {
        let Stream {
            alloc: _,
            is_new: _,
            max: _,
            keeps: _,
            contents: _,
            unread: _,
            names: _,
            fault: _,
        } = self;
    }
}

impl Model for Stream {
    ghost use Rattle.assembly.specs.Held.{Held};
    ghost use Rattle.assembly.specs.Onward.{IsStreamSound};

    ghost Value = { Held };

    ghost view = { λ s. record {
      is_new = s.is_new;
      max = s.max;
      keeps = s.keeps;
      contents = s.contents.items;
      unread = s.unread.bytes;
      room = s.unread.room;
      learned = s.names;
      fault = s.fault;
    } };

    ghost invariant = { λ s. IsStreamSound s.is_new s.max s.keeps s.contents.items s.unread.bytes s.fault };
}

impl Stream {
    /// Returns a stream that has been fed nothing. It awaits the first eight bytes, a frame has at most 4,096 bytes, and
    /// contents are kept; [`Stream::set_running`] makes them only counted.
    pub fn new(alloc: Global) -> Stream
        ensures stream { stream_of result ≡ new_stream }
        ensures fault { result.fault ≡ None }
    {
        Stream::empty(alloc, true, 4096)
    }

    /// Returns the stream of a connection that runs from the start: nothing is begun, a frame has at most 131,072 bytes, and contents are kept.
    pub fn running(alloc: Global) -> Stream
        ensures stream { stream_of result ≡ running_stream }
        ensures fault { result.fault ≡ None }
    {
        Stream::empty(alloc, false, 131_072)
    }

    /// Returns a stream that has been fed nothing, with frames of at most `max` bytes, whose contents are kept.
    fn empty(alloc: Global, is_new: bool, max: u32) -> Stream
        requires { 4096 ≤ max }
        ensures stream { stream_of result ≡ record new_stream { is_new = is_new; max = max } }
        ensures fault { result.fault ≡ None }
    {
        Stream {
            alloc,
            is_new,
            max,
            keeps: true,
            contents: Vec::new(alloc),
            unread: Unread::new(alloc),
            names: LastNames::new(alloc),
            fault: None,
        }
    }

    /// Appends `bytes` to the unread bytes. Fails only if the buffer has to grow and the allocation fails; nothing has changed then.
    pub fn feed(&mut self, bytes: &[u8]) -> Result<(), AllocError>
        ensures ok { OnOk result (stream_of self.new ≡ heard (stream_of self.old) bytes.now) }
        ensures err { OnErr result (self.new ≡ self.old) }
        ensures full { OnErr result (self.old.room < length bytes.now) }
        ensures fault { self.new.fault ≡ self.old.fault }
    {
        self.unread.put(bytes)
    }

    /// Sets the longest frame to `max` bytes, 4,096 or more. Does nothing after a fault.
    pub fn set_max(&mut self, max: u32)
        requires { 4096 ≤ max }
        ensures sets { self.old.fault ≡ None → stream_of self.new ≡ with_max max (stream_of self.old) }
        ensures broken { (code : ℕ) → self.old.fault ≡ Some code → self.new ≡ self.old }
        ensures fault { self.new.fault ≡ self.old.fault }
    {
        if self.fault.is_none() {
            self.max = max;
        }
    }

    /// Sets whether contents are kept, as for a connection that runs, or only counted. A publish whose content is only
    /// counted is returned as [`Command::TooLarge`]. Does nothing after a fault.
    pub fn set_running(&mut self, is_running: bool)
        ensures sets { self.old.fault ≡ None → stream_of self.new ≡ keeping is_running (stream_of self.old) }
        ensures broken { (code : ℕ) → self.old.fault ≡ Some code → self.new ≡ self.old }
        ensures fault { self.new.fault ≡ self.old.fault }
    {
        if self.fault.is_some() {
            return;
        }
        self.keeps = is_running;
    }

    /// Reads the next command. If the first eight bytes are awaited, they are the next command.
    ///
    /// Returns `None` if the unread bytes don't complete a command. A fault is [`Fault::Broken`] with its reply code, and is
    /// final: each later call returns it, whatever has been fed or set since. If an allocation fails nothing is lost and the
    /// call can be repeated; that happens only if there is something to read. If all bytes have been read, a buffer of more
    /// than 4,096 bytes is freed.
    pub fn next(&mut self) -> Result<Option<Command>, Fault>
        // Promise: what the bytes encode next. After a fault each call returns it again and changes nothing.
        ensures yields { YieldsNext (stream_of self.old) result (stream_of self.new) }
        ensures again { (code : ℕ) → self.old.fault ≡ Some code → (result ≡ Err (Broken code)) × (self.new ≡ self.old) }
        ensures keeps { self.new.fault ≡ broken_by result }
        // Storage: an empty buffer has room for at most 4,096 bytes.
        ensures room { self.old.fault ≡ None → (stream_of self.new).unread ≡ [] → self.new.room ≤ 4096 }
        // The storage of a body is at most twice what has come of it, whatever size is declared.
        ensures gathered { GrowAsTheyCome self.new.contents }
        // At most 64 names and 32 publishes are cached.
        ensures few { AreFew self.new.learned }
    {
        self.names.ghost_are_few();
        if let Some(code) = self.fault {
            return Err(Fault::Broken(code));
        }
        let next = self.read();
        self.fault = fault_in(&next);
        self.unread.give_back();
        self.names.ghost_are_few();
        next
    }

    /// Reads the next command of a stream without a fault.
    fn read(&mut self) -> Result<Option<Command>, Fault>
        requires { self.old.fault ≡ None }
        ensures yields { YieldsNext (stream_of self.old) result (stream_of self.new) }
        ensures fault { self.new.fault ≡ None }
    {
        if self.is_new {
            return Ok(self.first());
        }
        next_command(
            self.alloc,
            self.max,
            self.keeps,
            &mut self.names,
            &mut self.contents,
            &mut self.unread,
        )
    }

    /// Takes the first eight bytes, or returns `None` if there are fewer.
    fn first(&mut self) -> Option<Command>
        requires is_new { self.old.is_new ≡ true }
        requires fault { self.old.fault ≡ None }
        ensures yields { YieldsNext (stream_of self.old) (Ok result) (stream_of self.new) }
        ensures fault { self.new.fault ≡ None }
    {
        match take_eight(&mut self.unread) {
            Some(bytes) => {
                self.is_new = false;
                Some(Command::Head { bytes })
            }
            None => None,
        }
    }

    /// Returns the number of bytes that were fed and are not read yet.
    pub fn unread(&self) -> usize
        ensures { result ≡ length (stream_of self.now).unread }
    {
        self.unread.bytes().len()
    }
}

/// Returns the reply code of the fault that `answer` reports, if any.
fn fault_in(answer: &Result<Option<Command>, Fault>) -> Option<u16>
    ensures { result ≡ broken_by answer.now }
{
    match answer {
        Err(Fault::Broken(code)) => Some(*code),
        _ => None,
    }
}
