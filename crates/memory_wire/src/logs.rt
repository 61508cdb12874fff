//! The log of a wire's calls.

ghost use Rattle.std.specs.Prelude.{◌≡◌, ◌≤◌, ℕ, [], ◌∷◌, ◌++◌, length, map, flat_map, IfOk, OnOk, Some};
ghost use Rattle.serving.specs.Answered.{accept_call, read_call, write_call};
ghost use Rattle.serving.specs.Wire.{Call, Follows};
ghost use Rattle.serving.specs.Joined.{written_to};
ghost use Rattle.serving.specs.declared.wire.Read.TheVariants as read;
ghost use Rattle.memory_wire.specs.Logs.{call_of, logged_calls};

use serving::{Accept, Read, Write};
use std::alloc::{AllocError, Global};

/// A call with its answer.
#[derive(Drop)]
pub enum Logged {
    Accepted(u64),
    NotAccepted,
    AcceptFailed,
    /// The socket, the length of the buffer, and the bytes that were read.
    Got(u64, usize, Vec<u8>),
    NothingGot(u64, usize),
    Ended(u64, usize),
    ReadFailed(u64, usize),
    /// The socket, the bytes that it was offered, and how many of them it took.
    Took(u64, Vec<u8>, usize),
    NothingTaken(u64, Vec<u8>),
    WriteFailed(u64, Vec<u8>),
    Closed(u64),
    Welcomed(u64),
    Farewell(u64),
    Rested,
}

/// All calls so far, if `is_whole`; otherwise an allocation for one failed.
#[derive(Drop)]
pub struct Log {
    pub calls: Vec<Logged>,
    pub is_whole: bool,
}

/// Returns the log entry of an accept.
pub(crate) fn logged_accept(answer: Accept) -> Logged
    ensures { call_of result ≡ accept_call answer }
{
    match answer {
        Accept::Socket(socket) => Logged::Accepted(socket),
        Accept::Nothing => Logged::NotAccepted,
        Accept::Failed => Logged::AcceptFailed,
    }
}

/// Returns the log entry of a read; the bytes that it got are at the front of `buffer`. Fails only if an allocation fails.
pub(crate) fn logged_read(
    alloc: Global,
    socket: u64,
    room: usize,
    answer: Read,
    buffer: &[u8],
) -> Result<Logged, AllocError>
    requires { (n : ℕ) → answer ≡ read.Got n → n ≤ length buffer.now }
    ensures { IfOk result (λ l. call_of l ≡ read_call socket room answer buffer.now) }
{
    match answer {
        Read::Got(count) => Ok(Logged::Got(
            socket,
            room,
            Vec::from_slice(alloc, &buffer[..count])?,
        )),
        Read::Wait => Ok(Logged::NothingGot(socket, room)),
        Read::End => Ok(Logged::Ended(socket, room)),
        Read::Failed => Ok(Logged::ReadFailed(socket, room)),
    }
}

/// Returns the log entry of a write. Fails only if an allocation fails.
pub(crate) fn logged_write(
    alloc: Global,
    socket: u64,
    answer: Write,
    offered: &[u8],
) -> Result<Logged, AllocError>
    ensures { IfOk result (λ l. call_of l ≡ write_call socket answer offered.now) }
{
    let offered = Vec::from_slice(alloc, offered)?;
    match answer {
        Write::Took(count) => Ok(Logged::Took(socket, offered, count)),
        Write::Wait => Ok(Logged::NothingTaken(socket, offered)),
        Write::Failed => Ok(Logged::WriteFailed(socket, offered)),
    }
}

/// Appends the bytes that were taken by this call, if it is a write to `socket`.
fn add_taken(bytes: &mut Vec<u8>, call: &Logged, socket: u64) -> Result<(), AllocError>
    ensures { OnOk result (bytes.new.items ≡ bytes.old.items ++ written_to socket (call_of call.now)) }
{
    match call {
        Logged::Took(name, offered, count) if *name == socket => {
            bytes.extend_from_slice(&offered[..(*count).min(offered.len())])
        }
        _ => Ok(()),
    }
}

impl Log {
    /// Makes an empty log. Never allocates.
    pub fn new(alloc: Global) -> Log
        ensures { logged_calls result ≡ Some [] }
    {
        Log {
            calls: Vec::new(alloc),
            is_whole: true,
        }
    }

    /// Appends a call. If an allocation fails the log is no longer whole.
    pub(crate) fn add(&mut self, call: Result<Logged, AllocError>)
        ensures { (made : Call) → IfOk call (λ l. call_of l ≡ made) → Follows (logged_calls self.old) (made ∷ []) (logged_calls self.new) }
    {
        match call {
            Ok(call) => {
                if self.calls.push(call).is_err() {
                    self.is_whole = false;
                }
            }
            Err(_) => self.is_whole = false,
        }
    }

    /// Returns all bytes that writes to `socket` took, in order. Fails only if an allocation fails.
    pub fn taken_by(&self, alloc: Global, socket: u64) -> Result<Vec<u8>, AllocError>
        ensures { IfOk result (λ bytes. bytes.items ≡ flat_map (written_to socket) (map call_of self.now.calls.items)) }
    {
        let mut bytes = Vec::new(alloc);
        for call in &self.calls {
            add_taken(&mut bytes, call, socket)?;
        }
        Ok(bytes)
    }
}
