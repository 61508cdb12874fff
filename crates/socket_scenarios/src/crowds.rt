//! Steps of all clients at once. Start with [`Crowd`].

use crate::reads::expect_waits;
use crate::scenes::Scene;
use scenario_outcomes::{Unmet, expect, expect_number};
use serving::{Read, Wire as _};
use sockets::Sockets;

/// The number of sockets at once: twice as many files are open, and a process may have 1,024.
pub(crate) const MANY: usize = 400;

/// The rounds without a rest within which each socket that has something is read.
const SOON: u32 = 16;

/// What is claimed of a socket that was just accepted.
pub(crate) const NEW: &str = "a socket that just came has nothing";

/// What all clients do, or what is expected of all their sockets.
#[derive(Clone, Copy, Drop)]
pub(crate) enum Crowd {
    /// [`MANY`] clients connect, of which none sends anything, and their sockets are accepted, read and rest.
    Comes,
    /// Each client writes three bytes.
    Speaks,
    /// A round reads from each socket.
    IsRead,
    /// After a rest, one of them gives bytes.
    HasOne,
    /// Within [`SOON`] rounds, in which none rests, each of them gives bytes.
    GivesSoon,
    /// Each gives sixteen bytes in one round.
    GivesMuch(&'static str),
}

/// Connects [`MANY`] clients, and accepts their sockets.
fn meet_many(scene: &mut Scene) -> Result<(), Unmet> {
    for _ in 0..MANY {
        scene.meet()?;
    }
    Ok(())
}

/// Checks that each of these sockets has nothing.
fn expect_silent(sockets: &mut Sockets, names: &[u64]) -> Result<(), Unmet> {
    for name in names {
        expect_waits(sockets, *name, NEW)?;
    }
    Ok(())
}

/// Connects [`MANY`] clients, reads from their sockets, and rests.
fn come(scene: &mut Scene) -> Result<(), Unmet> {
    meet_many(scene)?;
    expect_silent(&mut scene.sockets, scene.names.as_slice())?;
    scene.rest()
}

/// Has each client write three bytes.
fn speak(scene: &mut Scene) -> Result<(), Unmet> {
    for client in 0..scene.clients.len() {
        scene.say(client, b"one")?;
    }
    Ok(())
}

/// Returns how many sockets give bytes in one round.
fn speaking(sockets: &mut Sockets, names: &[u64]) -> u64 {
    let mut buffer = [0u8; 16];
    let mut count = 0u64;
    sockets.accept();
    for name in names {
        if let Read::Got(_) = sockets.read(*name, &mut buffer) {
            count = count.saturating_add(1);
        }
    }
    count
}

/// Reads from each socket in one round.
fn read_each(sockets: &mut Sockets, names: &[u64]) -> Result<(), Unmet> {
    speaking(sockets, names);
    Ok(())
}

/// Returns how many sockets give bytes after a rest, which may first report earlier events.
fn spoken_after_a_rest(sockets: &mut Sockets, names: &[u64]) -> u64 {
    for _ in 0..3 {
        sockets.rest();
        let count = speaking(sockets, names);
        if count > 0 {
            return count;
        }
    }
    0
}

/// Checks that one socket gives bytes after a rest.
fn expect_one(sockets: &mut Sockets, names: &[u64]) -> Result<(), Unmet> {
    let count = spoken_after_a_rest(sockets, names);
    expect_number("the number of sockets that gave something", count, 1)
}

/// Checks that each socket gives bytes soon, without a rest.
fn expect_soon(sockets: &mut Sockets, names: &[u64]) -> Result<(), Unmet> {
    let mut given = 0u64;
    for _ in 0..SOON {
        given = given.saturating_add(speaking(sockets, names));
    }
    let expected = names.len() as u64;
    expect_number("the number of sockets that were read", given, expected)
}

/// Checks that each socket gives sixteen bytes in one round; `claim` says what that means.
fn expect_much(sockets: &mut Sockets, names: &[u64], claim: &'static str) -> Result<(), Unmet> {
    let mut buffer = [0u8; 16];
    let mut are_full = true;
    sockets.accept();
    for name in names {
        let is_full = matches!(sockets.read(*name, &mut buffer), Read::Got(16));
        are_full = are_full & is_full;
    }
    expect(claim, are_full)
}

/// Has all clients do something, or checks what all sockets give.
pub(crate) fn take(scene: &mut Scene, crowd: Crowd) -> Result<(), Unmet> {
    match crowd {
        Crowd::Comes => come(scene),
        Crowd::Speaks => speak(scene),
        Crowd::IsRead => read_each(&mut scene.sockets, scene.names.as_slice()),
        Crowd::HasOne => expect_one(&mut scene.sockets, scene.names.as_slice()),
        Crowd::GivesSoon => expect_soon(&mut scene.sockets, scene.names.as_slice()),
        Crowd::GivesMuch(claim) => {
            expect_much(&mut scene.sockets, scene.names.as_slice(), claim)
        }
    }
}
