//! Encodes what is sent.

ghost use Rattle.std.specs.Prelude.{◌≡◌, ◌≤◌, ◌++◌, length, take, drop, flat_map};
ghost use Rattle.std.specs.List.{AllByRecursion};
ghost use Rattle.model.specs.Frames.{frame_bytes};
ghost use Rattle.model.specs.Grammar.{IsMethod, method_bytes};
ghost use Rattle.model.specs.Spelling.{method_frame, content_frames, send_bytes, spelling, receiver, IsSpelled};
ghost use Rattle.model.specs.Sending.{IsStored, HasStored, IsOwn, AreOwn};
ghost use Rattle.outputs.specs.Waiting.{PutsBytes};
ghost use Rattle.outputs.specs.Sending.{header_frame, body_bytes};

use crate::Output;
use crate::scratch::Scratch;
use frame::Frame;
use model::{Content, Method, Send};

/// The protocol header.
const EIGHT_BYTES: &[u8] = &[65, 77, 81, 80, 0, 0, 9, 1];

/// Appends the frame of a method to `output`. `scratch` is a buffer to encode it.
fn put_method_frame(output: &mut Output, scratch: &mut Scratch, channel: u16, method: &Method)
    requires fits { IsMethod method.now }
    requires size { length (method_bytes method.now) ≤ 4088 }
    requires room { length (frame_bytes (method_frame channel method.now)) ≤ output.old.room }
    ensures { PutsBytes output.old (frame_bytes (method_frame channel method.now)) output.new }
{
    scratch.spell(method);
    output.put_frame(&Frame {
        kind: 1,
        channel,
        payload: scratch.bytes(),
    });
}

/// Appends the frame of a content's header to `output`. `scratch` is a buffer to encode it.
fn put_header_frame(output: &mut Output, scratch: &mut Scratch, channel: u16, content: &Content)
    requires stored { IsStored content.now }
    requires room { length (frame_bytes (header_frame channel content.now)) ≤ output.old.room }
    ensures { PutsBytes output.old (frame_bytes (header_frame channel content.now)) output.new }
{
    scratch.spell_header(content);
    output.put_frame(&Frame {
        kind: 2,
        channel,
        payload: scratch.bytes(),
    });
}

/// Splits the first `size` bytes off `body`, or all if there are fewer.
fn cut(body: &[u8], size: usize) -> (&[u8], &[u8])
    ensures piece { result.0.now ≡ take size body.now }
    ensures rest { result.1.now ≡ drop size body.now }
{
    if body.len() < size {
        return (body, &[]);
    }
    body.split_at(size)
}

/// Appends a body to `output`, in frames of at most `max` bytes.
fn put_body(output: &mut Output, max: u32, channel: u16, body: &[u8])
    requires max { 4096 ≤ max }
    requires room { length (body_bytes max channel body.now) ≤ output.old.room }
    ensures { PutsBytes output.old (body_bytes max channel body.now) output.new }
{
    let size = max as usize - 8;
    let mut rest = body;
    'pieces: while !rest.is_empty() {
        let (piece, left) = cut(rest, size);
        output.put_frame(&Frame {
            kind: 3,
            channel,
            payload: piece,
        });
        rest = left;
    }
}

/// Appends a content to `output`, if there is one: its header, and its body in frames of at most `max` bytes.
fn put_content(
    output: &mut Output,
    scratch: &mut Scratch,
    max: u32,
    channel: u16,
    content: &Option<Content>,
)
    requires max { 4096 ≤ max }
    requires stored { HasStored content.now }
    requires room { length (flat_map frame_bytes (content_frames max channel content.now)) ≤ output.old.room }
    ensures { PutsBytes output.old (flat_map frame_bytes (content_frames max channel content.now)) output.new }
{
    match content {
        None => {}
        Some(content) => {
            put_header_frame(output, scratch, channel, content);
            put_body(output, max, channel, content.body.as_bytes());
        }
    }
}

/// Appends `send`, which is for connection `c`, to `output`, in frames of at most `max` bytes.
fn put_send(c: u64, output: &mut Output, scratch: &mut Scratch, max: u32, send: &Send)
    requires own { IsOwn c send.now }
    requires max { 4096 ≤ max }
    requires room { length (send_bytes max send.now) ≤ output.old.room }
    ensures { PutsBytes output.old (send_bytes max send.now) output.new }
{
    match send {
        Send::Command {
            channel,
            method,
            content,
            ..
        } => {
            put_method_frame(output, scratch, *channel, method);
            put_content(output, scratch, max, *channel, content);
        }
        Send::Greeting { .. } => output.put(EIGHT_BYTES),
    }
}

/// Appends all of `sends` to `output`, one after another.
fn put_each(c: u64, output: &mut Output, scratch: &mut Scratch, max: u32, sends: &[Send])
    requires own { AllByRecursion (IsOwn c) sends.now }
    requires max { 4096 ≤ max }
    requires room { length (spelling max sends.now) ≤ output.old.room }
    ensures { output.new.bytes ≡ output.old.bytes ++ spelling max sends.now }
{
    for send in sends {
        put_send(c, output, scratch, max, send);
    }
}

/// Appends `sends`, all that one event sends to connection `c`, to `output`, in frames of at most `max` bytes. Never allocates: the
/// capacity was reserved before ([`crate::Spares::make_room`]).
pub fn put_sends(c: u64, output: &mut Output, scratch: &mut Scratch, max: u32, sends: &[Send])
    // What the caller knows: the sends are this connection's, and there is capacity for them.
    requires own { AreOwn c sends.now }
    requires max { 4096 ≤ max }
    requires room { length (spelling max sends.now) ≤ output.old.room }
    // The promise: their frames are appended.
    ensures bytes { output.new.bytes ≡ output.old.bytes ++ spelling max sends.now }
    ensures spelled { AllByRecursion (IsSpelled max) sends.now }
    ensures own { AllByRecursion (λ s. receiver s ≡ c) sends.now }
{
    put_each(c, output, scratch, max, sends);
}
