//! Reads a method's ids, and hands its arguments to the reader of its class.

ghost use Rattle.std.specs.Prelude.{◌≡◌, ◌<◌, ℕ, List, false, length, MatchOption};
ghost use Rattle.model.specs.Grammar;
ghost use Rattle.model.specs.Grammar.{IsMethod, Spells};
ghost use Rattle.methods.specs.Reading.{FailsToRead, ReturnsMethod, IsMethodOr, BeginsMethod, ReadsArguments};

use crate::classes::{basic, channel, confirm, connection, exchange, queue};
use crate::cursor::Cursor;
use crate::refusals::BadMethod;
use byteorder::{BigEndian, ByteOrder};
use model::Method;
use std::alloc::Global;

/// Decodes the payload of a method frame.
///
/// Each refusal is a variant of [`BadMethod`] with its reply code. [`BadMethod::Memory`] means that an allocation failed.
pub fn read_method(alloc: Global, payload: &[u8]) -> Result<Method, BadMethod>
    ensures read { ReturnsMethod payload.now result }
    // Promise: a method that `payload` encodes is returned, unless an allocation fails.
    ensures only { (m : Method) → IsMethod m → Spells payload.now m → IsMethodOr m result }
{
    match ids_at(payload) {
        None => Err(BadMethod::FrameError),
        Some((class, method, arguments)) => with_ids(alloc, class, method, arguments),
    }
}

// Splits class id and method id off the front of `payload`; `None` if it has fewer than 4 bytes.
fn ids_at(payload: &[u8]) -> Option<(u16, u16, &[u8])>
    ensures { MatchOption result (length payload.now < 4) (λ x. BeginsMethod payload.now x.0 x.1 x.2.now) }
{
    if payload.len() < 4 {
        return None;
    }
    let (front, rest) = payload.split_at(4);
    let class = BigEndian::read_u16(front);
    let method = BigEndian::read_u16(&front[2..]);
    Some((class, method, rest))
}

fn with_ids(alloc: Global, class: u16, method: u16, arguments: &[u8]) -> Result<Method, BadMethod>
    ensures { ReadsArguments class method arguments.now result }
{
    if is_left_out(class, method) {
        return Err(BadMethod::NotImplemented);
    }
    let arguments = Cursor {
        alloc,
        rest: arguments,
    };
    of_class(class, method, arguments)
}

/// Returns whether the method is one that is not implemented: class tx, or basic.recover-async.
fn is_left_out(class: u16, method: u16) -> bool
    ensures { result ≡ Grammar.is_left_out class method }
{
    class == 90 || class == 60 && method == 100
}

fn of_class(class: u16, method: u16, arguments: Cursor<'_>) -> Result<Method, BadMethod>
    requires { Grammar.is_left_out class method ≡ false }
    ensures { ReadsArguments class method arguments.entry.rest.now result }
{
    match class {
        10 => connection(method, arguments),
        20 => channel(method, arguments),
        40 => exchange(method, arguments),
        50 => queue(method, arguments),
        60 => basic(method, arguments),
        85 => confirm(method, arguments),
        _ => Err(BadMethod::CommandInvalid),
    }
}
