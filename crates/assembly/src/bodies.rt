//! Gathers the body of a content piece by piece. Start at [`Pieces`].

ghost use Rattle.std.specs.Prelude.{◌≡◌, ◌≤◌, ◌<◌, ◌^◌, ◌*◌, [], true, false, ◌++◌, length, max, take, vec_len, vec_capacity, OnOk, OnErr, IfOk};
ghost use Rattle.assembly.specs.Coming.{nothing_came};

use bytes::BytesMut;
use model::Body;
use std::alloc::{AllocError, Global};
use std::marker::Model;
use std::mem;

/// The storage of a body's bytes.
#[derive(Drop)]
enum Block {
    /// A vector that still grows.
    Growing(Vec<u8>),
    /// A block that was complete already when an allocation failed, so that it did not become a shared [`Body`].
    Closed(BytesMut),
}

/// The bytes of a body that have come, in one block.
#[derive(Drop)]
struct Gathered {
    block: Block,
    /// The capacity in bytes that the block had when it was last created or grown.
    kept: usize,
}

impl Model for Gathered {
    ghost use Rattle.assembly.specs.Coming.{Coming};
    ghost use Rattle.assembly.specs.declared.bodies.Block.TheVariants.{Growing, Closed};

    ghost Value = { Coming };

    ghost view = { λ g. record { bytes = elim g.block [ Growing bytes ↦ bytes.items | Closed bytes ↦ bytes.items ]; kept = g.kept } };
}

/// Returns the capacity of a block for `len` bytes: twice `len`, but no more than `declared` bytes unless `len` is more.
fn room_for(len: usize, declared: usize) -> usize
    ensures enough { len ≤ result }
    ensures most { result ≤ 2 * len }
{
    len.saturating_mul(2).min(declared).max(len)
}

/// Reserves capacity for `len` bytes in all, of a body of `declared` bytes.
///
/// Returns the block's capacity if it grew, or `kept` if there was room. Fails only if the allocation fails.
fn make_room(
    bytes: &mut Vec<u8>,
    len: usize,
    declared: usize,
    kept: usize,
) -> Result<usize, AllocError>
    requires { vec_len bytes.old ≤ len }
    ensures items { bytes.new.items ≡ bytes.old.items }
    ensures enough { OnOk result (len ≤ vec_capacity bytes.new) }
    ensures most { IfOk result (λ now. now ≤ max kept (2 * len)) }
    // A new capacity is reported.
    ensures told { IfOk result (λ now. vec_capacity bytes.new ≤ max (vec_capacity bytes.old) now) }
{
    if len <= bytes.capacity() {
        return Ok(kept);
    }
    bytes.reserve_exact(room_for(len, declared) - bytes.len())?;
    Ok(bytes.capacity())
}

/// Appends `piece` to the bytes of a body of `declared` bytes. Returns the capacity as [`make_room`] does. Fails only if the
/// block has to grow and the allocation fails; its bytes have not changed then.
fn put_behind(
    bytes: &mut Vec<u8>,
    piece: &[u8],
    declared: usize,
    kept: usize,
) -> Result<usize, AllocError>
    ensures ok { OnOk result (bytes.new.items ≡ bytes.old.items ++ piece.now) }
    ensures kept { IfOk result (λ now. now ≤ max kept (2 * length (bytes.old.items ++ piece.now))) }
    ensures err { OnErr result (bytes.new.items ≡ bytes.old.items) }
{
    let now = make_room(bytes, bytes.len() + piece.len(), declared, kept)?;
    bytes.extend_from_slice(piece)?;
    Ok(now)
}

/// Appends `piece` if there is room for it, and returns whether there was. Never allocates.
fn put_in(bytes: &mut BytesMut, piece: &[u8]) -> bool
    ensures put { result ≡ true → bytes.new.items ≡ bytes.old.items ++ piece.now }
    ensures full { result ≡ false → bytes.new ≡ bytes.old }
{
    if bytes.capacity() - bytes.len() < piece.len() {
        return false;
    }
    bytes.extend_reserved(piece);
    true
}

/// Returns a new block with `first` and `piece`, for a body of `declared` bytes. Fails only if an allocation fails.
fn begun(alloc: Global, first: &[u8], piece: &[u8], declared: usize) -> Result<Gathered, AllocError>
    ensures bytes { IfOk result (λ made. made.bytes ≡ first.now ++ piece.now) }
    ensures kept { IfOk result (λ made. made.kept ≤ 2 * length made.bytes) }
{
    let mut bytes = Vec::new(alloc);
    let kept = make_room(&mut bytes, first.len() + piece.len(), declared, 0)?;
    bytes.extend_from_slice(first)?;
    bytes.extend_from_slice(piece)?;
    Ok(Gathered {
        block: Block::Growing(bytes),
        kept,
    })
}

impl Gathered {
    ghost use Rattle.std.specs.Prelude.{◌≡◌, ◌≤◌, ◌<◌, ◌^◌, ◌*◌, true, false, ◌++◌, length, max, take, OnOk, OnErr, IfOk};

    fn len(&self) -> usize
        ensures len { result ≡ length self.now.bytes }
        ensures small { result < 2 ^ 63 }
    {
        match &self.block {
            Block::Growing(bytes) => bytes.len(),
            Block::Closed(bytes) => bytes.len(),
        }
    }

    fn as_slice(&self) -> &[u8]
        ensures { result.now ≡ self.now.bytes }
    {
        match &self.block {
            Block::Growing(bytes) => bytes.as_slice(),
            Block::Closed(bytes) => bytes.as_slice(),
        }
    }

    /// Appends `piece` of a body of `declared` bytes. Fails only if an allocation fails; nothing has changed then.
    fn append(&mut self, piece: &[u8], declared: usize) -> Result<(), AllocError>
        ensures ok { OnOk result (self.new.bytes ≡ self.old.bytes ++ piece.now) }
        ensures kept { OnOk result (self.new.kept ≤ max self.old.kept (2 * length self.new.bytes)) }
        ensures err { OnErr result (self.new ≡ self.old) }
    {
        match &mut self.block {
            Block::Growing(bytes) => {
                self.kept = put_behind(bytes, piece, declared, self.kept)?;
            }
            Block::Closed(bytes) => {
                if !put_in(bytes, piece) {
                    *self = begun(*bytes.allocator(), bytes.as_slice(), piece, declared)?;
                }
            }
        }
        Ok(())
    }

    /// Appends `piece` if there is room for it, and returns whether there was. Never allocates.
    fn put(&mut self, piece: &[u8]) -> bool
        ensures put { result ≡ true → self.new ≡ record self.old { bytes = self.old.bytes ++ piece.now } }
        ensures full { result ≡ false → self.new ≡ self.old }
    {
        match &mut self.block {
            Block::Growing(bytes) => {
                if bytes.capacity() - bytes.len() < piece.len() {
                    return false;
                }
                bytes.extend_from_slice(piece).is_ok()
            }
            Block::Closed(bytes) => put_in(bytes, piece),
        }
    }

    /// Returns the bytes as a block that can be shared.
    fn into_bytes(self) -> BytesMut
        ensures { result.items ≡ self.bytes }
    {
        match self.block {
            Block::Growing(bytes) => BytesMut::from_vec(bytes),
            Block::Closed(bytes) => bytes,
        }
    }

    /// Turns the bytes into a shared body, and leaves none here. If an allocation fails the first `len` of them stay.
    fn share(&mut self, alloc: Global, len: usize) -> Result<Body, AllocError>
        requires { len ≤ length self.old.bytes }
        ensures ok { IfOk result (λ body. body ≡ self.old.bytes) }
        ensures err { OnErr result (self.new ≡ record self.old { bytes = take len self.old.bytes }) }
    {
        let kept = self.kept;
        let none = Gathered {
            block: Block::Growing(Vec::new(alloc)),
            kept: 0,
        };
        match Body::from_gathered(mem::replace(self, none).into_bytes()) {
            Ok(body) => Ok(body),
            Err(failed) => {
                let mut bytes = failed.value;
                bytes.truncate(len);
                *self = Gathered {
                    block: Block::Closed(bytes),
                    kept,
                };
                Err(AllocError)
            }
        }
    }

    /// Appends `piece`, the last one, and turns the bytes into a shared body.
    ///
    /// If there is room for the piece the body takes over the block, or else it has a new block. Fails only if an allocation
    /// fails; nothing has changed then.
    fn finish(&mut self, alloc: Global, piece: &[u8]) -> Result<Body, AllocError>
        ensures ok { IfOk result (λ body. body ≡ self.old.bytes ++ piece.now) }
        ensures err { OnErr result (self.new ≡ self.old) }
    {
        let len = self.len();
        if self.put(piece) {
            return self.share(alloc, len);
        }
        whole(alloc, self.as_slice(), piece)
    }
}

/// Returns a body of `first` and `piece` in a new block. Fails only if an allocation fails.
fn whole(alloc: Global, first: &[u8], piece: &[u8]) -> Result<Body, AllocError>
    ensures { IfOk result (λ body. body ≡ first.now ++ piece.now) }
{
    let bytes = begun(alloc, first, piece, first.len() + piece.len())?;
    match Body::from_gathered(bytes.into_bytes()) {
        Ok(body) => Ok(body),
        Err(_) => Err(AllocError),
    }
}

/// The bytes of a body that have come so far.
///
/// Storage is allocated as bytes come, for at most twice as many as have come, never for bytes that are only declared. A
/// body that comes in one piece is not gathered here. The block is boxed, so that a channel without a body is small.
#[derive(Drop)]
pub(crate) struct Pieces {
    alloc: Global,
    /// `None` before the first piece.
    gathered: Option<Box<Gathered>>,
}

impl Model for Pieces {
    ghost use Rattle.std.specs.Prelude.{None, Some};
    ghost use Rattle.assembly.specs.Coming.{Coming, nothing_came};

    ghost Value = { Coming };

    ghost view = { λ p. elim p.gathered [ None ↦ nothing_came | Some bytes ↦ bytes.value ] };
}

impl Pieces {
    pub(crate) fn new(alloc: Global) -> Pieces
        ensures { result ≡ nothing_came }
    {
        Pieces {
            alloc,
            gathered: None,
        }
    }

    pub(crate) fn len(&self) -> usize
        ensures len { result ≡ length self.now.bytes }
        ensures small { result < 2 ^ 63 }
    {
        match &self.gathered {
            None => 0,
            Some(bytes) => bytes.len(),
        }
    }

    /// Appends `piece` of a body of `declared` bytes. Fails only if an allocation fails; nothing has changed then.
    pub(crate) fn append(&mut self, piece: &[u8], declared: usize) -> Result<(), AllocError>
        ensures ok { OnOk result (self.new.bytes ≡ self.old.bytes ++ piece.now) }
        ensures kept { OnOk result (self.new.kept ≤ max self.old.kept (2 * length self.new.bytes)) }
        ensures err { OnErr result (self.new ≡ self.old) }
    {
        match &mut self.gathered {
            None => {
                self.gathered = Some(boxed(self.alloc, piece, declared)?);
                Ok(())
            }
            Some(bytes) => bytes.append(piece, declared),
        }
    }

    /// Returns the whole body, of which `piece` is the last piece. A body of one piece is copied once.
    ///
    /// Fails only if an allocation fails; nothing has changed then. What `self` holds after `Ok` is not specified.
    pub(crate) fn finish(&mut self, piece: &[u8]) -> Result<Body, AllocError>
        ensures ok { IfOk result (λ t. t ≡ self.old.bytes ++ piece.now) }
        ensures err { OnErr result (self.new ≡ self.old) }
    {
        match &mut self.gathered {
            None => Body::from_slice(self.alloc, piece),
            Some(bytes) => bytes.finish(self.alloc, piece),
        }
    }
}

/// Returns a boxed block that begins with `piece`, for a body of `declared` bytes. Fails only if an allocation fails.
fn boxed(alloc: Global, piece: &[u8], declared: usize) -> Result<Box<Gathered>, AllocError>
    ensures bytes { IfOk result (λ made. made.value.bytes ≡ piece.now) }
    ensures kept { IfOk result (λ made. made.value.kept ≤ 2 * length made.value.bytes) }
{
    match Box::new(alloc, begun(alloc, &[], piece, declared)?) {
        Ok(bytes) => Ok(bytes),
        Err(_) => Err(AllocError),
    }
}
