//! Reads the next event in a connection's bytes.

ghost use Rattle.std.specs.Prelude.{◌≡◌, None, OnOk, OnErr};
ghost use Rattle.model.specs.Commands.{IsCommand};
ghost use Rattle.model.specs.Arrivals.{event_of as event_of_command, SameToCome};
ghost use Rattle.model.specs.declared.events.Event.TheVariants as happens;
ghost use Rattle.assembly.specs.Held.{stream_of};
ghost use Rattle.outputs.specs.Storages.{AreAtMost};
ghost use Rattle.engine.specs.Reading.{IsKeptEvent, ComesNext, HasMore, kept_of, kept_for};

use crate::reserve::next;
use assembly::{Fault, Stream};
use model::{Command, Event, Method};
use outputs::Spares;
use std::alloc::AllocError;

/// Reads the next event of connection `number` into `kept`, unless one is pending: the next command in its bytes, or the fault that they
/// end in. Frees the reserve only if at most `allowance` bytes are unread. Fails only if an allocation fails while nothing is spare beyond the
/// reserve; nothing is pending then, and the same event comes next.
pub(crate) fn read_next(
    number: u64,
    spares: &mut Spares,
    stream: &mut Stream,
    allowance: usize,
    kept: &mut Option<Event>,
) -> Result<(), AllocError>
    requires { IsKeptEvent number kept.old stream.old.fault }
    ensures ok { OnOk result (ComesNext number kept.old (stream_of stream.old) kept.new stream.new.fault (stream_of stream.new)) }
    ensures err { OnErr result (SameToCome (kept_of kept.old) (stream_of stream.old) None (stream_of stream.new)) }
    ensures wants { OnErr result (HasMore (kept_of kept.old) (stream_of stream.old)) }
    ensures none { OnErr result (kept.new ≡ None) }
    ensures spare { OnErr result (AreAtMost 16 8 spares.new) }
{
    if kept.is_some() {
        return Ok(());
    }
    match next(spares, stream, allowance) {
        Ok(Some(command)) => {
            keep(kept, number, command);
            Ok(())
        }
        Ok(None) => Ok(()),
        Err(Fault::Broken(code)) => {
            keep_fault(kept, number, code);
            Ok(())
        }
        Err(Fault::Memory) => Err(AllocError),
    }
}

/// Makes `command` of `connection` the pending event.
fn keep(kept: &mut Option<Event>, connection: u64, command: Command)
    ensures { kept.new ≡ Some (event_of_command connection command) }
{
    *kept = Some(event_of(connection, command));
}

/// Makes the fault of `connection` with reply code `code` the pending event.
fn keep_fault(kept: &mut Option<Event>, connection: u64, code: u16)
    ensures { kept.new ≡ Some (happens.Fault connection code) }
{
    *kept = Some(Event::Fault { connection, code });
}

/// Clears the pending event.
pub(crate) fn forget(kept: &mut Option<Event>)
    ensures { kept.new ≡ None }
{
    *kept = None;
}

/// Clears a pending fault, which the stream yields again. A pending command stays.
pub(crate) fn forget_fault(kept: &mut Option<Event>)
    ensures { kept.new ≡ kept_for kept.old }
{
    if let Some(Event::Fault { .. }) = kept {
        forget(kept);
    }
}

/// Converts a command of `connection` into an event.
fn event_of(connection: u64, command: Command) -> Event
    ensures { result ≡ event_of_command connection command }
{
    match command {
        Command::Head { bytes } => Event::First { connection, bytes },
        Command::Plain { channel, method } => Event::Command {
            connection,
            channel,
            method,
            content: None,
        },
        Command::Full {
            channel,
            publish,
            content,
        } => Event::Command {
            connection,
            channel,
            method: Method::BasicPublish(publish),
            content: Some(content),
        },
        Command::TooLarge { channel } => Event::TooLarge {
            connection,
            channel,
        },
    }
}
