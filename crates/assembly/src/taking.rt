//! Handles the frame that a channel awaits: method, header or piece of a body.

ghost use Rattle.std.specs.Prelude.{◌≡◌, true, false, Ok};
ghost use Rattle.model.specs.Commands;
ghost use Rattle.model.specs.Commands.{awaited, is_too_large as exceeds, kept_publish as kept, taken_method};
ghost use Rattle.model.specs.Headers.{size_at};
ghost use Rattle.model.specs.Grammar.{SaysMethod};
ghost use Rattle.model.specs.declared.events.Command.TheVariants as command;
ghost use Rattle.frame.specs.Reading.{seen};
ghost use Rattle.assembly.specs.Pending.{pending_of, IsSpelledSoFar, HasPublish, IsGathered};
ghost use Rattle.assembly.specs.declared.contents.Gathering.{Gathering as Begun};
ghost use Rattle.assembly.specs.declared.contents.Awaited.TheVariants.{Nothing, WantsHeader, WantsBody};
ghost use Rattle.assembly.specs.Taking.{DeclaresSize, TakesEffect, TakesFrame, TakesHeader, TakesIfAwaited};
ghost use Rattle.assembly.specs.Names.{SpellsPublish};

use crate::bodies::Pieces;
use crate::contents::{Awaited, Gathering};
use crate::dropping::{drop_begun, drop_piece, is_too_large};
use crate::faults::{Fault, of_header, of_method, of_size};
use crate::names::LastNames;
use frame::Frame;
use headers::{read_header, read_size};
use methods::read_method;
use model::{Body, Command, Content, Method, Properties, Publish, Text};
use std::alloc::Global;
use std::mem;

/// Handles a frame other than a heartbeat, on a channel that may have it. A type that is not awaited is a fault (505).
#[inline(always)]
pub(crate) fn take_awaited(
    alloc: Global,
    keeps: bool,
    names: &mut LastNames,
    pending: &mut Awaited,
    frame: &Frame<'_>,
) -> Result<Option<Command>, Fault>
    requires { IsSpelledSoFar pending.old }
    ensures spelled { IsSpelledSoFar pending.new }
    ensures does { TakesIfAwaited keeps (seen frame.now) pending.old result pending.new }
{
    if frame.kind != awaited_kind(pending) {
        return Err(Fault::Broken(505));
    }
    match pending {
        Awaited::Nothing => take_method(alloc, keeps, names, pending, frame),
        Awaited::WantsHeader(_) => take_header(alloc, keeps, pending, frame),
        Awaited::WantsBody(_) => take_piece(keeps, pending, frame),
        Awaited::Drops(_) => drop_piece(pending, frame),
    }
}

/// Returns the frame type that the channel awaits.
fn awaited_kind(pending: &Awaited) -> u8
    ensures { result ≡ awaited (pending_of pending.now) }
{
    match pending {
        Awaited::Nothing => 1,
        Awaited::WantsHeader(_) => 2,
        Awaited::WantsBody(_) => 3,
        Awaited::Drops(_) => 3,
    }
}

/// Handles a method: it is a command, unless it is a publish, which waits for its content.
fn take_method(
    alloc: Global,
    keeps: bool,
    names: &mut LastNames,
    pending: &mut Awaited,
    frame: &Frame<'_>,
) -> Result<Option<Command>, Fault>
    requires { pending.old ≡ Nothing }
    ensures spelled { IsSpelledSoFar pending.new }
    ensures does { TakesFrame keeps (seen frame.now) pending.old result pending.new }
{
    if let Some(publish) = names.publish_of(frame.payload) {
        *pending = Awaited::WantsHeader(kept_publish(keeps, publish));
        return Ok(None);
    }
    match read_method(alloc, frame.payload) {
        Ok(method) => begin(alloc, keeps, names, pending, frame, method),
        Err(refusal) => Err(of_method(refusal)),
    }
}

/// Handles a method that was decoded: it is a command, unless it is a publish, which waits for its content.
fn begin(
    alloc: Global,
    keeps: bool,
    names: &mut LastNames,
    pending: &mut Awaited,
    frame: &Frame<'_>,
    method: Method,
) -> Result<Option<Command>, Fault>
    requires nothing { pending.old ≡ Nothing }
    requires said { SaysMethod frame.now.payload.now (Ok method) }
    ensures spelled { IsSpelledSoFar pending.new }
    ensures does { TakesEffect (λ t. t ≡ taken_method keeps frame.now.channel (Ok method)) Commands.Nothing result (pending_of pending.new) }
{
    match method.into_publish() {
        Ok(publish) => {
            *pending = Awaited::WantsHeader(begun(alloc, keeps, names, frame, publish));
            Ok(None)
        }
        Err(method) => {
            let channel = frame.channel;
            Ok(Some(Command::Plain { channel, method }))
        }
    }
}

/// Returns what is kept of a publish that was decoded, and caches it if contents are kept.
fn begun(
    alloc: Global,
    keeps: bool,
    names: &mut LastNames,
    frame: &Frame<'_>,
    publish: Publish,
) -> Publish
    requires { SpellsPublish frame.now.payload.now publish }
    ensures { result ≡ kept keeps publish }
{
    if keeps {
        return names.learn(alloc, frame.payload, publish);
    }
    kept_publish(keeps, publish)
}

/// Returns what is kept of `publish` until its content is whole: an empty publish if contents are only counted.
fn kept_publish(keeps: bool, publish: Publish) -> Publish
    ensures { result ≡ kept keeps publish }
{
    if keeps {
        return publish;
    }
    Publish {
        reserved: 0,
        exchange: Text::empty(),
        routing_key: Text::empty(),
        mandatory: false,
        immediate: false,
    }
}

/// Handles a header, which declares the body of the publish before it. If the content is too large nothing else of the header is read.
fn take_header(
    alloc: Global,
    keeps: bool,
    pending: &mut Awaited,
    frame: &Frame<'_>,
) -> Result<Option<Command>, Fault>
    requires begun { HasPublish pending.old }
    requires spelled { IsSpelledSoFar pending.old }
    ensures spelled { IsSpelledSoFar pending.new }
    ensures does { TakesFrame keeps (seen frame.now) pending.old result pending.new }
{
    match read_size(frame.payload) {
        Ok(size) => {
            if is_too_large(frame.payload, size) {
                return drop_begun(pending, frame.channel, size, 0);
            }
            begin_content(alloc, keeps, pending, frame)
        }
        Err(refusal) => Err(of_size(refusal)),
    }
}

/// Handles the header of a content that isn't too large: its body is awaited, to be kept or only counted.
fn begin_content(
    alloc: Global,
    keeps: bool,
    pending: &mut Awaited,
    frame: &Frame<'_>,
) -> Result<Option<Command>, Fault>
    requires begun { HasPublish pending.old }
    requires spelled { IsSpelledSoFar pending.old }
    requires small { exceeds frame.now.payload.now (size_at frame.now.payload.now) ≡ false }
    ensures spelled { IsSpelledSoFar pending.new }
    ensures does { TakesHeader keeps (seen frame.now) pending.old result pending.new }
{
    if keeps {
        gather_content(alloc, pending, frame)
    } else {
        count_content(alloc, pending, frame)
    }
}

/// Handles a header whose body is kept. An empty body is complete at once.
fn gather_content(
    alloc: Global,
    pending: &mut Awaited,
    frame: &Frame<'_>,
) -> Result<Option<Command>, Fault>
    requires begun { HasPublish pending.old }
    requires spelled { IsSpelledSoFar pending.old }
    requires small { exceeds frame.now.payload.now (size_at frame.now.payload.now) ≡ false }
    ensures spelled { IsSpelledSoFar pending.new }
    ensures does { TakesHeader true (seen frame.now) pending.old result pending.new }
{
    match read_header(alloc, frame.payload) {
        Ok(header) => {
            let publish = begun_publish(pending);
            if header.size == 0 {
                let whole = full(frame.channel, publish, header.properties, Body::empty());
                return Ok(Some(whole));
            }
            *pending = Awaited::WantsBody(Gathering {
                publish,
                properties: header.properties,
                size: header.size,
                body: Pieces::new(alloc),
            });
            Ok(None)
        }
        Err(refusal) => Err(of_header(refusal)),
    }
}

/// Handles a header whose body is only counted. An empty body is complete at once.
fn count_content(
    alloc: Global,
    pending: &mut Awaited,
    frame: &Frame<'_>,
) -> Result<Option<Command>, Fault>
    requires { IsSpelledSoFar pending.old }
    ensures spelled { IsSpelledSoFar pending.new }
    ensures does { TakesHeader false (seen frame.now) pending.old result pending.new }
{
    match size_of_header(alloc, frame.payload) {
        Ok(size) => drop_begun(pending, frame.channel, size, 0),
        Err(fault) => Err(fault),
    }
}

/// Decodes a header, and returns the body size that it declares.
fn size_of_header(alloc: Global, payload: &[u8]) -> Result<u64, Fault>
    ensures { DeclaresSize payload.now result }
{
    match read_header(alloc, payload) {
        Ok(header) => Ok(header.size),
        Err(refusal) => Err(of_header(refusal)),
    }
}

/// Takes the publish out of `pending`, which awaits a method then.
fn begun_publish(pending: &mut Awaited) -> Publish
    requires { HasPublish pending.old }
    ensures publish { pending.old ≡ WantsHeader result }
    ensures nothing { pending.new ≡ Nothing }
{
    match mem::replace(pending, Awaited::Nothing) {
        Awaited::WantsHeader(publish) => publish,
        _ => unreachable!(),
    }
}

/// Returns the command of a publish with its whole content.
fn full(channel: u16, publish: Publish, properties: Properties, body: Body) -> Command
    ensures { result ≡ command.Full channel publish (record { properties = properties; body = body }) }
{
    Command::Full {
        channel,
        publish,
        content: Content { properties, body },
    }
}

/// Handles a piece of a body. If contents are no longer kept, the pieces before it are dropped, too.
fn take_piece(
    keeps: bool,
    pending: &mut Awaited,
    frame: &Frame<'_>,
) -> Result<Option<Command>, Fault>
    requires gathered { IsGathered pending.old }
    requires spelled { IsSpelledSoFar pending.old }
    ensures spelled { IsSpelledSoFar pending.new }
    ensures does { TakesFrame keeps (seen frame.now) pending.old result pending.new }
{
    if keeps {
        return take_body(pending, frame);
    }
    match pending {
        Awaited::WantsBody(gathering) => {
            let size = gathering.size;
            let count = gathering.body.len() as u64 + frame.payload.len() as u64;
            drop_begun(pending, frame.channel, size, count)
        }
        _ => unreachable!(),
    }
}

/// Handles a piece of a body that is kept. A body of more than its declared size is a fault (501). At exactly that size the publish is complete,
/// and returned as a command.
fn take_body(pending: &mut Awaited, frame: &Frame<'_>) -> Result<Option<Command>, Fault>
    requires gathered { IsGathered pending.old }
    requires spelled { IsSpelledSoFar pending.old }
    ensures spelled { IsSpelledSoFar pending.new }
    ensures does { TakesFrame true (seen frame.now) pending.old result pending.new }
{
    match pending {
        Awaited::WantsBody(gathering) => {
            let length = gathering.body.len() as u64 + frame.payload.len() as u64;
            if gathering.size < length {
                return Err(Fault::Broken(501));
            }
            if length < gathering.size {
                return match gathering
                    .body
                    .append(frame.payload, gathering.size as usize)
                {
                    Ok(()) => Ok(None),
                    Err(_) => Err(Fault::Memory),
                };
            }
            match gathering.body.finish(frame.payload) {
                Ok(body) => Ok(Some(complete(pending, frame.channel, body))),
                Err(_) => Err(Fault::Memory),
            }
        }
        _ => unreachable!(),
    }
}

/// Returns the publish in `pending` with its whole `body`. The channel awaits a method then.
fn complete(pending: &mut Awaited, channel: u16, body: Body) -> Command
    requires { IsGathered pending.old }
    ensures full { (g : Begun) → pending.old ≡ WantsBody g → result ≡ command.Full channel g.publish (record { properties = g.properties; body = body }) }
    ensures nothing { pending.new ≡ Nothing }
{
    match mem::replace(pending, Awaited::Nothing) {
        Awaited::WantsBody(gathering) => {
            full(channel, gathering.publish, gathering.properties, body)
        }
        _ => unreachable!(),
    }
}
