//! A byte queue: bytes are appended at the back and taken from the front. See [`Buffer`].

ghost use Rattle.std.specs.Prelude.{◌≡◌, ◌≤◌, ◌+◌, ◌^◌, ◌<◌, [], ◌++◌, length, take, drop, true, OnOk, OnErr, Decides, vec_len, vec_capacity};
ghost use Rattle.model.specs.Frames.{frame_bytes};
ghost use Rattle.frame.specs.Reading.{seen};

use crate::frames::Frame;
use crate::writing::{put_bytes, put_frame};
use std::alloc::{AllocError, Global};
use std::marker::Model;
use std::mem;

/// Once this many bytes have been taken, the rest may move to the front.
const MOVED_FROM: usize = 16_384;

/// A byte queue for output that a socket hasn't taken yet, in one `Vec`.
/// Taken bytes stay in front of `start` until the rest moves to the front.
#[derive(Drop)]
pub struct Buffer {
    bytes: Vec<u8>,
    start: usize,
}

impl Model for Buffer {
    ghost use Rattle.std.specs.Prelude.{◌≤◌, ◌-◌, drop, vec_len, vec_capacity};
    ghost use Rattle.frame.specs.Waiting.{WaitingBytes};

    ghost Value = { WaitingBytes };

    ghost view = { λ o. record { bytes = drop o.start o.bytes.items; room = vec_capacity o.bytes - vec_len o.bytes; storage = vec_capacity o.bytes } };

    ghost invariant = { λ o. o.start ≤ vec_len o.bytes };
}

impl Buffer {
    /// Returns an empty buffer without storage. Never allocates.
    pub fn new(alloc: Global) -> Buffer
        ensures bytes { result.bytes ≡ [] }
        ensures room { result.room ≡ 0 }
        ensures storage { result.storage ≡ 0 }
    {
        Buffer {
            bytes: Vec::new(alloc),
            start: 0,
        }
    }

    /// Returns the bytes that are not taken yet, in the order in which they were put.
    pub fn bytes(&self) -> &[u8]
        ensures { result.now ≡ self.now.bytes }
    {
        &self.bytes[self.start..]
    }

    /// Returns whether the buffer has no storage. A buffer without storage is empty.
    pub fn has_none(&self) -> bool
        ensures storage { Decides result (self.now.storage ≡ 0) }
        ensures bytes { result ≡ true → self.now.bytes ≡ [] }
        ensures room { result ≡ true → self.now.room ≡ 0 }
    {
        self.bytes.capacity() == 0
    }

    /// Returns the number of bytes that can be put without an allocation.
    pub fn room(&self) -> usize
        ensures value { result ≡ self.now.room }
        ensures within { result + length self.now.bytes ≤ self.now.storage }
    {
        self.bytes.capacity() - self.bytes.len()
    }

    /// Replaces the storage of an empty buffer by `storage`, whose content is cleared, and returns the old storage.
    pub fn move_into(&mut self, mut storage: Vec<u8>) -> Vec<u8>
        requires { self.old.bytes ≡ [] }
        ensures bytes { self.new.bytes ≡ [] }
        ensures room { self.new.room ≡ vec_capacity storage }
        ensures storage { self.new.storage ≡ vec_capacity storage }
        ensures given_back { vec_capacity result ≡ self.old.storage }
    {
        storage.clear();
        self.start = 0;
        mem::replace(&mut self.bytes, storage)
    }

    /// Reserves room for `n` more bytes. Fails only if the room was smaller and the allocation fails; nothing has changed then.
    pub fn reserve(&mut self, n: usize) -> Result<(), AllocError>
        ensures bytes { self.new.bytes ≡ self.old.bytes }
        ensures ok { OnOk result (n ≤ self.new.room) }
        ensures kept { self.old.room ≤ self.new.room }
        ensures full { OnErr result (self.old.room < n) }
        ensures err { OnErr result (self.new ≡ self.old) }
    {
        self.bytes.reserve(n)
    }

    /// Appends `more`. It cannot fail, since there is room for it: see [`Buffer::reserve`].
    pub fn put(&mut self, more: &[u8])
        requires { length more.now ≤ self.old.room }
        ensures bytes { self.new.bytes ≡ self.old.bytes ++ more.now }
        ensures room { self.old.room ≤ self.new.room + length more.now }
        ensures storage { self.old.storage ≤ self.new.storage }
    {
        put_bytes(&mut self.bytes, more);
    }

    /// Appends the encoding of `frame`, for which there is room: 8 bytes more than its payload, which has at most 2^32 - 9 bytes.
    pub fn put_frame(&mut self, frame: &Frame<'_>)
        requires size { length frame.now.payload.now + 9 ≤ 2 ^ 32 }
        requires room { length frame.now.payload.now + 8 ≤ self.old.room }
        ensures bytes { self.new.bytes ≡ self.old.bytes ++ frame_bytes (seen frame.now) }
        ensures room { self.old.room ≤ self.new.room + (length frame.now.payload.now + 8) }
        ensures storage { self.old.storage ≤ self.new.storage }
    {
        put_frame(&mut self.bytes, frame);
    }

    /// Removes the first `n` bytes.
    ///
    /// The rest moves to the front of the storage once at least 16 KiB, and at least as many bytes as are left, have been taken
    /// since it last moved. So no more than one byte is moved for each byte taken. If no byte is left, all of the storage is free
    /// again.
    pub fn take(&mut self, n: usize)
        requires { n ≤ length self.old.bytes }
        ensures bytes { self.new.bytes ≡ drop n self.old.bytes }
        ensures room { self.old.room ≤ self.new.room }
        ensures storage { self.new.storage ≡ self.old.storage }
    {
        self.start += n;
        let left = self.bytes.len() - self.start;
        if left == 0 {
            self.start = 0;
            self.bytes.clear();
        } else if self.start >= MOVED_FROM && left <= self.start {
            let start = self.start;
            self.start = 0;
            drop_front(&mut self.bytes, start);
        }
    }

    /// Removes the first `n` bytes, or all if there are fewer than `n`.
    pub fn take_up_to(&mut self, n: u64)
        ensures bytes { self.new.bytes ≡ drop n self.old.bytes }
        ensures room { self.old.room ≤ self.new.room }
        ensures storage { self.new.storage ≡ self.old.storage }
    {
        let waiting = self.bytes().len();
        if n < waiting as u64 {
            self.take(n as usize);
        } else {
            self.take(waiting);
        }
    }
}

/// Removes the first `n` bytes of `bytes` and moves the rest, at most `n` bytes, to the front.
fn drop_front(bytes: &mut Vec<u8>, n: usize)
    requires within { n ≤ vec_len bytes.old }
    requires half { vec_len bytes.old ≤ n + n }
    ensures items { bytes.new.items ≡ drop n bytes.old.items }
    ensures len { vec_len bytes.new ≤ vec_len bytes.old }
    ensures capacity { vec_capacity bytes.new ≡ vec_capacity bytes.old }
{
    let left = bytes.len() - n;
    move_to_front(bytes, n, left);
    bytes.truncate(left);
}

/// Copies the last `left` bytes, which follow the first `n`, to the front.
fn move_to_front(bytes: &mut [u8], n: usize, left: usize)
    requires within { n + left ≡ length bytes.old }
    requires disjoint { left ≤ n }
    ensures len { length bytes.new ≡ length bytes.old }
    ensures moved { take left bytes.new ≡ drop n bytes.old }
{
    let (taken, waiting) = bytes.split_at_mut(n);
    taken[..left].copy_from_slice(waiting);
}
