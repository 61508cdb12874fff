//! Silent and full sockets, for which the wire answers in a run of slots. Start with [`Pass`].

use crate::scenes::Scene;
use crate::times::is_past;
use scenario_outcomes::{Unmet, expect_number, value_of};
use serving::{Peer, Read, Wire as _, Write};
use slab::Slab;
use sockets::Sockets;

/// The rounds after which a scenario gives up, whatever else the machine does.
const PATIENCE: u32 = 100;

/// The number of rounds without a rest within which a silent or full socket has its turn.
const TURNS: u32 = 16;

/// What is expected of two slots. The first and the second socket are those of clients 0 and 1.
#[derive(Clone, Copy, Drop)]
pub(crate) enum Pass {
    /// The slots are given the sockets of these two clients.
    Holds(usize, usize),
    /// No slot is skipped as silent.
    SkipsNone,
    /// The first is skipped as silent, up to the second, which gives four bytes.
    SkipsSilent,
    /// The first is skipped as full, up to the second, which takes bytes.
    SkipsFull,
    /// Both are skipped as full in a round after a rest that named the socket of this client.
    SkipsAll(usize),
    /// The first is not skipped as silent, within [`TURNS`] rounds.
    StopsAtSilent,
    /// The first is not skipped as full, within [`TURNS`] rounds.
    StopsAtFull,
    /// The first is ended, and not skipped, in the round after the moment that was set.
    EndsInTime,
}

/// Puts the sockets of two clients into slots.
fn hold(scene: &mut Scene, first: usize, second: usize) -> Result<(), Unmet> {
    for client in [first, second] {
        let peer = Peer {
            connection: 1,
            socket: scene.socket(client),
        };
        value_of("insert", scene.peers.insert(peer))?;
    }
    Ok(())
}

/// Checks that no slot is skipped, in a new round.
fn expect_none(sockets: &mut Sockets, peers: &Slab<Peer>) -> Result<(), Unmet> {
    sockets.accept();
    let place = sockets.pass_silent(peers, 0, 2);
    expect_number("the slot that is asked next", place as u64, 0)
}

/// Does a round after a rest. Returns how many bytes the second socket gives, if the first is skipped.
fn second_gives(
    sockets: &mut Sockets,
    peers: &Slab<Peer>,
    first: u64,
    second: u64,
) -> Option<usize> {
    let mut buffer = [0u8; 16];
    sockets.rest();
    sockets.accept();
    match sockets.pass_silent(peers, 0, 2) {
        0 => {
            sockets.read(first, &mut buffer);
            None
        }
        1 => match sockets.read(second, &mut buffer) {
            Read::Got(count) => Some(count),
            _ => None,
        },
        _ => None,
    }
}

/// Checks that the second socket gives four bytes, once the first is skipped, which has nothing, and the second is not.
fn expect_second_gives(
    sockets: &mut Sockets,
    peers: &Slab<Peer>,
    first: u64,
    second: u64,
) -> Result<(), Unmet> {
    for _ in 0..PATIENCE {
        if let Some(count) = second_gives(sockets, peers, first, second) {
            return expect_number("the number of bytes", count as u64, 4);
        }
    }
    Err(Unmet::Claim("a silent socket is passed by, and one that has something is not"))
}

/// Does a round after a rest. Returns whether the first socket, which is full, is skipped, and the second takes bytes.
fn second_takes(sockets: &mut Sockets, peers: &Slab<Peer>, first: u64, second: u64) -> bool {
    sockets.rest();
    sockets.accept();
    match sockets.pass_full(peers, 0, 2) {
        0 => {
            sockets.write(first, b"four");
            false
        }
        1 => matches!(sockets.write(second, b"four"), Write::Took(_)),
        _ => false,
    }
}

/// Checks that in some round the first socket, which is full, is skipped and the second is not, and that the second takes bytes.
fn expect_second_takes(
    sockets: &mut Sockets,
    peers: &Slab<Peer>,
    first: u64,
    second: u64,
) -> Result<(), Unmet> {
    for _ in 0..PATIENCE {
        if second_takes(sockets, peers, first, second) {
            return Ok(());
        }
    }
    Err(Unmet::Claim("a full socket is passed by, and one that has room is not"))
}

/// Checks that both slots are skipped in a round after a rest that named the socket of `speaker`.
fn expect_all_full(scene: &mut Scene, speaker: usize) -> Result<(), Unmet> {
    for _ in 0..PATIENCE {
        scene.say(speaker, b"one")?;
        scene.sockets.rest();
        scene.sockets.accept();
        if scene.sockets.pass_full(&scene.peers, 0, 2) == 2 {
            return Ok(());
        }
    }
    Err(Unmet::Claim("full sockets are passed by"))
}

/// What is claimed of a socket that is skipped.
const IN_TURN: &str = "a socket that is passed by is asked in its turn";

/// Checks that the first slot, whose socket has nothing, has its turn within [`TURNS`] rounds: it is not skipped then.
fn expect_silent_turn(sockets: &mut Sockets, peers: &Slab<Peer>) -> Result<(), Unmet> {
    for _ in 0..TURNS {
        sockets.accept();
        if sockets.pass_silent(peers, 0, 2) == 0 {
            return Ok(());
        }
    }
    Err(Unmet::Claim(IN_TURN))
}

/// Checks that the first slot, whose socket is full, has its turn within [`TURNS`] rounds: it is not skipped then.
fn expect_full_turn(sockets: &mut Sockets, peers: &Slab<Peer>) -> Result<(), Unmet> {
    for _ in 0..TURNS {
        sockets.accept();
        if sockets.pass_full(peers, 0, 2) == 0 {
            return Ok(());
        }
    }
    Err(Unmet::Claim(IN_TURN))
}

/// Does a round. Returns whether the socket of the first slot is not skipped, and is ended.
fn is_first_ended(sockets: &mut Sockets, peers: &Slab<Peer>, first: u64) -> bool {
    let mut buffer = [0u8; 16];
    sockets.accept();
    let is_passed = sockets.pass_silent(peers, 0, 1) > 0;
    !is_passed && matches!(sockets.read(first, &mut buffer), Read::Failed)
}

/// Checks that the socket of the first slot is ended in the round after the moment that was set.
fn expect_ended_in_time(scene: &mut Scene) -> Result<(), Unmet> {
    let first = scene.socket(0);
    for _ in 0..PATIENCE {
        scene.sockets.rest();
        let is_late = is_past(scene);
        if is_first_ended(&mut scene.sockets, &scene.peers, first) {
            return Ok(());
        }
        if is_late {
            break;
        }
    }
    Err(Unmet::Claim("it is read in the round after its time, and ended"))
}

/// Checks what two slots hold, or which of them are skipped.
pub(crate) fn take(scene: &mut Scene, pass: Pass) -> Result<(), Unmet> {
    let first = scene.socket(0);
    let second = scene.socket(1);
    match pass {
        Pass::Holds(first, second) => hold(scene, first, second),
        Pass::SkipsNone => expect_none(&mut scene.sockets, &scene.peers),
        Pass::SkipsSilent => {
            expect_second_gives(&mut scene.sockets, &scene.peers, first, second)
        }
        Pass::SkipsFull => expect_second_takes(&mut scene.sockets, &scene.peers, first, second),
        Pass::SkipsAll(speaker) => expect_all_full(scene, speaker),
        Pass::StopsAtSilent => expect_silent_turn(&mut scene.sockets, &scene.peers),
        Pass::StopsAtFull => expect_full_turn(&mut scene.sockets, &scene.peers),
        Pass::EndsInTime => expect_ended_in_time(scene),
    }
}
