//! Reads a publish at once if all of its frames are unread. Start at [`whole_publish`].

ghost use Rattle.std.specs.Prelude.{◌≡◌, ◌≤◌, length, true, IfSome};
ghost use Rattle.model.specs.Commands.{Nothing};
ghost use Rattle.frame.specs.Reading.{seen};
ghost use Rattle.assembly.specs.Names.{SpellsPublish};
ghost use Rattle.assembly.specs.Pending.{pending_at};
ghost use Rattle.assembly.specs.Whole.{AreContentFrames, GivesWhole, IsFrontPayload, IsWholeContent};

use crate::contents::Awaited;
use crate::dropping::is_too_large;
use crate::frames::is_on_wrong_channel;
use crate::names::LastNames;
use frame::{Frame, Read, read_frame};
use headers::{read_header, read_size};
use methods::read_method;
use model::{Body, Command, Content, Publish};
use std::alloc::Global;

/// The payloads of a header frame and of the body frame after it, and the length in bytes of both frames.
#[derive(Clone, Copy, Drop)]
pub(crate) struct ContentFrames<'a> {
    pub(crate) header: &'a [u8],
    pub(crate) body: &'a [u8],
    pub(crate) length: usize,
}

/// Returns the publish whose method is in `frame` if its other frames are a header and one body frame at the front of `rest`. Also returns
/// the length in bytes of these two.
///
/// Returns `None` for any other frame or content, and if an allocation fails: [`take_frame`](crate::frames::take_frame) then handles `frame`.
#[inline(always)]
pub(crate) fn whole_publish(
    alloc: Global,
    max: u32,
    keeps: bool,
    names: &mut LastNames,
    contents: &[Awaited],
    frame: &Frame<'_>,
    rest: &[u8],
) -> Option<(Command, usize)>
    requires { 4096 ≤ max }
    ensures within { IfSome result (λ whole. whole.1 ≤ length rest.now) }
    ensures gives { IfSome result (λ whole. GivesWhole max keeps contents.now (seen frame.now) rest.now whole.0 whole.1) }
{
    let channel = frame.channel;
    if !keeps
        || frame.kind != 1
        || is_on_wrong_channel(frame)
        || !awaits_method(contents, channel)
    {
        return None;
    }
    let frames = content_frames(max, channel, rest)?;
    let content = content_of(alloc, &frames)?;
    let publish = publish_of(alloc, names, frame.payload)?;
    let command = Command::Full {
        channel,
        publish,
        content,
    };
    Some((command, frames.length))
}

/// Returns whether `channel` awaits a method. A channel past the end of `contents` is left to [`take_frame`](crate::frames::take_frame).
fn awaits_method(contents: &[Awaited], channel: u16) -> bool
    ensures { result ≡ true → pending_at contents.now channel ≡ Nothing }
{
    matches!(contents.get(usize::from(channel)), Some(Awaited::Nothing))
}

/// Returns the header frame at the front of `rest` and the body frame after it if both are on `channel`.
fn content_frames(max: u32, channel: u16, rest: &[u8]) -> Option<ContentFrames<'_>>
    requires { 4096 ≤ max }
    ensures { IfSome result (λ frames. AreContentFrames max channel rest.now frames) }
{
    let (header, size) = payload_of(max, 2, channel, rest)?;
    let (body, more) = payload_of(max, 3, channel, &rest[size..])?;
    let length = size + more;
    Some(ContentFrames {
        header,
        body,
        length,
    })
}

/// Returns the payload of the frame at the front of `bytes`, and the frame's length in bytes, if it has this `kind` and `channel` and may have both.
#[inline(always)]
fn payload_of(max: u32, kind: u8, channel: u16, bytes: &[u8]) -> Option<(&[u8], usize)>
    requires { 4096 ≤ max }
    ensures { IfSome result (λ found. IsFrontPayload max kind channel bytes.now found.0.now found.1) }
{
    match read_frame(bytes, max) {
        Read::Whole(frame, size)
            if frame.kind == kind && frame.channel == channel && !is_on_wrong_channel(&frame) => {
            Some((frame.payload, size))
        }
        _ => None,
    }
}

/// Returns the content that `frames` encode if the body is whole, not empty, and not too large.
fn content_of(alloc: Global, frames: &ContentFrames<'_>) -> Option<Content>
    ensures { IfSome result (λ content. IsWholeContent frames.now.header.now frames.now.body.now content) }
{
    let Ok(size) = read_size(frames.header) else {
        return None;
    };
    if size == 0 || size != frames.body.len() as u64 || is_too_large(frames.header, size) {
        return None;
    }
    let Ok(header) = read_header(alloc, frames.header) else {
        return None;
    };
    let Ok(body) = Body::from_slice(alloc, frames.body) else {
        return None;
    };
    Some(Content {
        properties: header.properties,
        body,
    })
}

/// Returns the publish that `payload` encodes, from the cache or decoded and then cached.
fn publish_of(alloc: Global, names: &mut LastNames, payload: &[u8]) -> Option<Publish>
    ensures { IfSome result (λ publish. SpellsPublish payload.now publish) }
{
    if let Some(publish) = names.publish_of(payload) {
        return Some(publish);
    }
    let method = read_method(alloc, payload).ok()?;
    match method.into_publish() {
        Ok(publish) => Some(names.learn(alloc, payload, publish)),
        Err(_) => None,
    }
}
