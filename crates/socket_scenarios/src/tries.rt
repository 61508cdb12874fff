//! What is tried several times, since other work on the machine may have it fail once. Start with [`Try`].

use crate::reads::expect_got;
use crate::scenes::{Scene, accepted};
use scenario_outcomes::{Unmet, expect, expect_number, value_of};
use serving::{Accept, Wire as _, Write};
use sockets::Sockets;
use std::time::{Duration, Instant};

/// The most milliseconds that an answer takes if its second piece doesn't wait. A piece that waits is sent once the client's system
/// acknowledges the first, which takes at least 40 milliseconds.
const AT_ONCE: u64 = 20;

/// What is tried, and counted if it succeeds.
#[derive(Clone, Copy, Drop)]
pub(crate) enum Try {
    /// The socket of client 0, which has room again, takes a write in the first round after a rest, and client 0 reads it. The rest also names the
    /// socket of client 1, so the round takes no turn unless its number is divisible by 16: the write doesn't succeed just because it is the socket's
    /// turn.
    IsWrittenToBesideASpeaker,
    /// A client that has connected is accepted in the round after the rest that it ended.
    IsAcceptedAfterARest,
    /// Client 0, which asks, gets both pieces of its answer at once.
    IsAnsweredAtOnce,
    /// At least this many tries succeeded.
    Succeeded(u32, &'static str),
}

/// Counts a try that succeeded.
fn count(scene: &mut Scene, is_success: bool) -> Result<(), Unmet> {
    if is_success {
        scene.successes = scene.successes.saturating_add(1);
    }
    Ok(())
}

/// Returns whether a socket takes five bytes in the first round after a rest.
fn is_written_to_after_a_rest(sockets: &mut Sockets, socket: u64) -> bool {
    sockets.rest();
    sockets.accept();
    matches!(sockets.write(socket, b"three"), Write::Took(5))
}

/// Tries whether the socket of client 0 is written to after a rest that also names the socket of client 1.
fn write_beside_a_speaker(scene: &mut Scene) -> Result<(), Unmet> {
    let (full, speaking) = (scene.socket(0), scene.socket(1));
    scene.say(1, b"one")?;
    let is_written = is_written_to_after_a_rest(&mut scene.sockets, full);
    expect_got(&mut scene.sockets, speaking, 3)?;
    if is_written {
        scene.read_back(0, 5)?;
    }
    count(scene, is_written)
}

/// Returns whether a client that has connected is accepted in the round after the rest that it ended. All events of the client are reported by then.
fn is_accepted_at_once(sockets: &mut Sockets) -> Result<bool, Unmet> {
    sockets.rest();
    let is_at_once = matches!(sockets.accept(), Accept::Socket(_));
    if !is_at_once {
        accepted(sockets)?;
    }
    sockets.accept();
    sockets.rest();
    Ok(is_at_once)
}

/// Tries whether a client that has connected is accepted at once.
fn accept_after_a_rest(scene: &mut Scene) -> Result<(), Unmet> {
    let is_at_once = is_accepted_at_once(&mut scene.sockets)?;
    count(scene, is_at_once)
}

/// Writes a piece of three bytes to a socket that has room.
fn write(sockets: &mut Sockets, socket: u64, piece: &[u8]) -> Result<(), Unmet> {
    match sockets.write(socket, piece) {
        Write::Took(count) => expect_number("the number of bytes", count as u64, 3),
        _ => Err(Unmet::Call("write")),
    }
}

/// Writes the two pieces of an answer to the socket of client 0, which reads them.
fn answer(scene: &mut Scene) -> Result<(), Unmet> {
    let socket = scene.socket(0);
    write(&mut scene.sockets, socket, b"one")?;
    write(&mut scene.sockets, socket, b"two")?;
    scene.read_back(0, 6)
}

/// Tries whether client 0, which asks, gets both pieces of its answer at once.
fn answer_at_once(scene: &mut Scene) -> Result<(), Unmet> {
    let socket = scene.socket(0);
    scene.say(0, b"?")?;
    expect_got(&mut scene.sockets, socket, 1)?;
    let began = value_of("Instant::now", Instant::now(&scene.rt))?;
    answer(scene)?;
    let lasted = value_of("Instant::elapsed", began.elapsed(&scene.rt))?;
    count(scene, lasted <= Duration::from_millis(AT_ONCE))
}

/// Tries something, or checks how often that succeeded.
pub(crate) fn take(scene: &mut Scene, once: Try) -> Result<(), Unmet> {
    match once {
        Try::IsWrittenToBesideASpeaker => write_beside_a_speaker(scene),
        Try::IsAcceptedAfterARest => accept_after_a_rest(scene),
        Try::IsAnsweredAtOnce => answer_at_once(scene),
        Try::Succeeded(least, claim) => expect(claim, scene.successes >= least),
    }
}
