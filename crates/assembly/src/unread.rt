//! The unread bytes of a connection.

ghost use Rattle.std.specs.Prelude.{◌≡◌, ◌≤◌, ◌<◌, [], ◌++◌, length, drop, IfOk, OnOk, OnErr};

use bytes::BytesMut;
use std::alloc::{AllocError, Global};
use std::marker::Model;

/// An empty buffer of at most this capacity is kept, so that small pieces need no allocation each time.
const KEPT: usize = 4096;

/// A byte queue: bytes are appended at the back and taken from the front.
#[derive(Drop)]
pub(crate) struct Unread {
    bytes: BytesMut,
}

impl Model for Unread {
    ghost use Rattle.assembly.specs.Unread.{Waiting};

    ghost Value = { Waiting };

    ghost view = { λ u. record { bytes = u.bytes.items; room = u.bytes.spare } };
}

/// Returns a new buffer with `first` and `more`. Behind `first` it has room for as many bytes as `first` has, or for `more` if that is longer,
/// so that bytes fed one by one are not copied each time.
fn gathered(alloc: Global, first: &[u8], more: &[u8]) -> Result<BytesMut, AllocError>
    ensures { IfOk result (λ b. b.items ≡ first.now ++ more.now) }
{
    let mut all = Vec::with_capacity(
        alloc,
        first.len().saturating_add(more.len().max(first.len())),
    )?;
    all.extend_from_slice(first)?;
    all.extend_from_slice(more)?;
    Ok(BytesMut::from_vec(all))
}

impl Unread {
    /// Returns an empty buffer. Never allocates.
    pub(crate) fn new(alloc: Global) -> Unread
        ensures { result.bytes ≡ [] }
    {
        Unread {
            bytes: BytesMut::new(alloc),
        }
    }

    /// Returns the bytes that are not taken yet.
    pub(crate) fn bytes(&self) -> &[u8]
        ensures { result.now ≡ self.now.bytes }
    {
        self.bytes.as_slice()
    }

    /// Appends `more`, in a new buffer if there is no room. Fails only if that allocation fails; nothing has changed then.
    pub(crate) fn put(&mut self, more: &[u8]) -> Result<(), AllocError>
        ensures ok { OnOk result (self.new.bytes ≡ self.old.bytes ++ more.now) }
        ensures err { OnErr result (self.new ≡ self.old) }
        ensures full { OnErr result (self.old.room < length more.now) }
    {
        if more.len() <= self.bytes.capacity() - self.bytes.len() {
            self.bytes.extend_reserved(more);
        } else {
            let alloc = *self.bytes.allocator();
            self.bytes = gathered(alloc, self.bytes.as_slice(), more)?;
        }
        Ok(())
    }

    /// Removes the first `n` bytes. If none is left, all of the buffer is free again.
    pub(crate) fn take(&mut self, n: usize)
        requires { n ≤ length self.old.bytes }
        ensures bytes { self.new.bytes ≡ drop n self.old.bytes }
        ensures room { self.old.room ≤ self.new.room }
    {
        self.bytes.advance(n);
        if self.bytes.is_empty() {
            self.bytes.clear();
        }
    }

    /// Frees a buffer of more than 4,096 bytes if nothing is unread.
    pub(crate) fn give_back(&mut self)
        ensures bytes { self.new.bytes ≡ self.old.bytes }
        ensures freed { self.old.bytes ≡ [] → self.new.room ≤ 4096 }
    {
        if self.bytes.is_empty() && self.bytes.capacity() > KEPT {
            self.bytes = BytesMut::new(*self.bytes.allocator());
        }
    }
}
