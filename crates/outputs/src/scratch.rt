//! A buffer to encode one method, or the header of one content.

ghost use Rattle.std.specs.Prelude.{◌≡◌, ◌≤◌, [], length, vec_len, vec_capacity, IfOk};
ghost use Rattle.model.specs.Grammar.{IsMethod, method_bytes};
ghost use Rattle.model.specs.Headers.{header_bytes};
ghost use Rattle.model.specs.Sending.{IsStored};

use headers::put_header;
use methods::put_method;
use model::{Content, Method};
use std::alloc::{AllocError, Global};
use std::marker::Model;

/// A reusable buffer for the payload of one method or one content header, which fits a frame of the least size, 4,096 bytes.
#[derive(Drop)]
pub struct Scratch {
    bytes: Vec<u8>,
}

impl Model for Scratch {
    ghost use Rattle.std.specs.Prelude.{◌≤◌, ℕ, List, vec_capacity};

    ghost Value = { List ℕ };

    ghost view = { λ s. s.bytes.items };

    ghost invariant = { λ s. 4096 ≤ vec_capacity s.bytes };
}

impl Scratch {
    /// Makes an empty buffer of 4,096 bytes. Fails only if an allocation fails.
    pub fn new(alloc: Global) -> Result<Scratch, AllocError>
        ensures { IfOk result (λ s. s ≡ []) }
    {
        Ok(Scratch {
            bytes: Vec::with_capacity(alloc, 4096)?,
        })
    }

    /// Replaces the bytes in the buffer by the encoding of `method`.
    pub(crate) fn spell(&mut self, method: &Method)
        requires fits { IsMethod method.now }
        requires size { length (method_bytes method.now) ≤ 4088 }
        ensures { self.new ≡ method_bytes method.now }
    {
        spell_into(&mut self.bytes, method);
    }

    /// Replaces the bytes in the buffer by the encoding of the header of `content`.
    pub(crate) fn spell_header(&mut self, content: &Content)
        requires { IsStored content.now }
        ensures { self.new ≡ header_bytes (length content.now.body) content.now.properties }
    {
        header_into(&mut self.bytes, content);
    }

    /// Returns the method or header that was encoded last.
    pub(crate) fn bytes(&self) -> &[u8]
        ensures { result.now ≡ self.now }
    {
        self.bytes.as_slice()
    }
}

fn spell_into(bytes: &mut Vec<u8>, method: &Method)
    requires fits { IsMethod method.now }
    requires size { length (method_bytes method.now) ≤ 4088 }
    requires room { 4096 ≤ vec_capacity bytes.old }
    ensures items { bytes.new.items ≡ method_bytes method.now }
    ensures room { 4096 ≤ vec_capacity bytes.new }
{
    bytes.clear();
    put_method(bytes, method);
}

fn header_into(bytes: &mut Vec<u8>, content: &Content)
    requires stored { IsStored content.now }
    requires room { 4096 ≤ vec_capacity bytes.old }
    ensures items { bytes.new.items ≡ header_bytes (length content.now.body) content.now.properties }
    ensures room { 4096 ≤ vec_capacity bytes.new }
{
    bytes.clear();
    put_header(bytes, content.body.len() as u64, &content.properties);
}
