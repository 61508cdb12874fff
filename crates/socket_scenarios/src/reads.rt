//! What reads of a socket get. Start with [`Sight`].

use crate::scenes::Scene;
use scenario_outcomes::{Unmet, expect, expect_number};
use serving::{Read, Wire as _};
use sockets::Sockets;

/// The rounds after which a scenario gives up, whatever else the machine does.
const PATIENCE: u32 = 1_000;

/// What is expected of reads of a socket. A claim says what that means.
#[derive(Clone, Copy, Drop)]
pub(crate) enum Sight {
    /// It gives this many bytes at once, in the end.
    Gives(u64),
    /// It gives this many bytes, in one round after another.
    GivesAll(u64),
    /// It gives this many bytes in the next round.
    GivesNext(u64, &'static str),
    /// It gives this many bytes after a rest.
    GivesRested(u64),
    /// It gives nothing in the next round, and is not ended.
    Waits(&'static str),
    /// It is ended in the end, and gives nothing before.
    IsEnded(&'static str),
    /// Its client's end is read within four rounds.
    Ends,
    /// Every earlier event is heard, in rounds that rest.
    IsHeard,
    /// Nothing is expected of a read, in the round that is going on.
    Anything,
}

/// Does a round that reads from one socket.
pub(crate) fn round(sockets: &mut Sockets, socket: u64) -> Read {
    let mut buffer = [0u8; 16];
    sockets.accept();
    sockets.read(socket, &mut buffer)
}

/// Returns how many bytes `socket` gives. Does rounds until it gives some; a round that gets nothing rests.
fn got_in_the_end(sockets: &mut Sockets, socket: u64) -> Result<u64, Unmet> {
    for _ in 0..PATIENCE {
        match round(sockets, socket) {
            Read::Got(count) => return Ok(count as u64),
            Read::Wait => sockets.rest(),
            _ => return Err(Unmet::Call("read")),
        }
    }
    Err(Unmet::Claim("bytes came"))
}

/// Checks that `socket` gives `expected` bytes in the end.
pub(crate) fn expect_got(sockets: &mut Sockets, socket: u64, expected: u64) -> Result<(), Unmet> {
    let count = got_in_the_end(sockets, socket)?;
    expect_number("the number of bytes", count, expected)
}

/// Checks that `socket` gives `count` bytes, in one round after another.
fn expect_all(sockets: &mut Sockets, socket: u64, count: u64) -> Result<(), Unmet> {
    let mut left = count;
    for _ in 0..count {
        if left == 0 {
            break;
        }
        let some = got_in_the_end(sockets, socket)?;
        left = left.saturating_sub(some);
    }
    Ok(())
}

/// Checks that `socket` gives `expected` bytes in the next round; `claim` says what that means.
fn expect_next(
    sockets: &mut Sockets,
    socket: u64,
    expected: u64,
    claim: &'static str,
) -> Result<(), Unmet> {
    match round(sockets, socket) {
        Read::Got(count) => expect_number("the number of bytes", count as u64, expected),
        _ => Err(Unmet::Claim(claim)),
    }
}

/// Checks that `socket` gives `expected` bytes after a rest, which may first report earlier events.
fn expect_rested(sockets: &mut Sockets, socket: u64, expected: u64) -> Result<(), Unmet> {
    for _ in 0..3 {
        sockets.rest();
        if let Read::Got(count) = round(sockets, socket) {
            return expect_number("the number of bytes", count as u64, expected);
        }
    }
    Err(Unmet::Claim("a rest reports what came before it"))
}

/// Checks that a round that reads from `socket` gets nothing, and that the socket is not ended; `claim` says what that means.
pub(crate) fn expect_waits(
    sockets: &mut Sockets,
    socket: u64,
    claim: &'static str,
) -> Result<(), Unmet> {
    expect(claim, matches!(round(sockets, socket), Read::Wait))
}

/// Checks that a read of `socket` fails in the end; `claim` says what that means. Each read before it has to wait, and its round rests.
fn expect_ended(sockets: &mut Sockets, socket: u64, claim: &'static str) -> Result<(), Unmet> {
    for _ in 0..PATIENCE {
        match round(sockets, socket) {
            Read::Failed => return Ok(()),
            Read::Wait => sockets.rest(),
            _ => return Err(Unmet::Call("read")),
        }
    }
    Err(Unmet::Claim(claim))
}

/// Checks that the end of a client is read within four rounds.
fn expect_end(sockets: &mut Sockets, socket: u64) -> Result<(), Unmet> {
    for _ in 0..4 {
        match round(sockets, socket) {
            Read::End => return Ok(()),
            _ => sockets.rest(),
        }
    }
    Err(Unmet::Claim("the end is read"))
}

/// Does rounds that rest, until every earlier event is reported.
fn hear_all(sockets: &mut Sockets, socket: u64) -> Result<(), Unmet> {
    for _ in 0..3 {
        round(sockets, socket);
        sockets.rest();
    }
    Ok(())
}

/// Reads from a socket, in the round that is going on.
fn read(sockets: &mut Sockets, socket: u64) -> Result<(), Unmet> {
    let mut buffer = [0u8; 16];
    sockets.read(socket, &mut buffer);
    Ok(())
}

/// Checks what reads of a socket get.
fn look(sockets: &mut Sockets, socket: u64, sight: Sight) -> Result<(), Unmet> {
    match sight {
        Sight::Gives(count) => expect_got(sockets, socket, count),
        Sight::GivesAll(count) => expect_all(sockets, socket, count),
        Sight::GivesNext(count, claim) => expect_next(sockets, socket, count, claim),
        Sight::GivesRested(count) => expect_rested(sockets, socket, count),
        Sight::Waits(claim) => expect_waits(sockets, socket, claim),
        Sight::IsEnded(claim) => expect_ended(sockets, socket, claim),
        Sight::Ends => expect_end(sockets, socket),
        Sight::IsHeard => hear_all(sockets, socket),
        Sight::Anything => read(sockets, socket),
    }
}

/// Checks what reads of a client's socket get.
pub(crate) fn take(scene: &mut Scene, client: usize, sight: Sight) -> Result<(), Unmet> {
    let socket = scene.socket(client);
    look(&mut scene.sockets, socket, sight)
}
