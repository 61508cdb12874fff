//! Writes to a socket, and what its connection says of itself. Start with [`Room`].

use crate::scenes::Scene;
use scenario_outcomes::{Unmet, expect, expect_number};
use serving::{Wire as _, Write};
use sockets::Sockets;

/// The number of writes that surely fill a socket that nobody reads, however much the system buffers.
const MOST_WRITES: u32 = 100_000;

/// The rounds after which a scenario gives up, whatever else the machine does.
const PATIENCE: u32 = 1_000;

/// What a socket is told, or what is expected of writes to it.
#[derive(Clone, Copy, Drop)]
pub(crate) enum Room {
    /// It is written to until it takes less than it is offered.
    IsFilled,
    /// It takes nothing.
    IsFull,
    /// It takes three bytes after a rest.
    HasRoom,
    /// Writes to it fail in the end.
    IsEnded,
    /// Its connection runs.
    IsWelcomed,
    /// Its connection is closed.
    IsLeft,
    /// The bytes that were read last were a part of a content.
    IsInside,
}

/// Writes until a socket takes less than it is offered, and returns how many bytes it took.
fn fill(sockets: &mut Sockets, socket: u64) -> Result<u64, Unmet> {
    let bytes = [0u8; 4096];
    let mut taken = 0u64;
    for _ in 0..MOST_WRITES {
        sockets.accept();
        match sockets.write(socket, bytes.as_slice()) {
            Write::Took(count) => {
                taken = taken.saturating_add(count as u64);
                if count < bytes.len() {
                    return Ok(taken);
                }
            }
            Write::Wait => return Ok(taken),
            Write::Failed => return Err(Unmet::Call("write")),
        }
    }
    Err(Unmet::Claim("a socket that nobody reads gets full"))
}

/// Fills a socket, and remembers how many bytes it took.
fn fill_up(scene: &mut Scene, socket: u64) -> Result<(), Unmet> {
    scene.taken = fill(&mut scene.sockets, socket)?;
    Ok(())
}

/// Checks that a socket takes nothing.
fn expect_full(sockets: &mut Sockets, socket: u64) -> Result<(), Unmet> {
    let waits = matches!(sockets.write(socket, b"one"), Write::Wait);
    expect("a full socket takes nothing", waits)
}

/// Checks that a socket takes bytes after a rest, which may first report earlier events.
fn expect_room(sockets: &mut Sockets, socket: u64) -> Result<(), Unmet> {
    for _ in 0..3 {
        sockets.rest();
        sockets.accept();
        if let Write::Took(count) = sockets.write(socket, b"one") {
            return expect_number("the number of bytes", count as u64, 3);
        }
    }
    Err(Unmet::Claim("a rest reports room"))
}

/// Checks that writes to a full socket fail in the end, in rounds that rest.
fn expect_no_write(sockets: &mut Sockets, socket: u64) -> Result<(), Unmet> {
    let bytes = [0u8; 4096];
    for _ in 0..PATIENCE {
        sockets.accept();
        match sockets.write(socket, bytes.as_slice()) {
            Write::Failed => return Ok(()),
            // the system may find room late
            Write::Wait | Write::Took(_) => sockets.rest(),
        }
    }
    Err(Unmet::Claim("a full socket is ended after `farewell`"))
}

/// Says that the connection of a socket runs.
fn welcome(sockets: &mut Sockets, socket: u64) -> Result<(), Unmet> {
    sockets.welcome(socket);
    Ok(())
}

/// Says that the connection of a socket is closed.
fn bid_farewell(sockets: &mut Sockets, socket: u64) -> Result<(), Unmet> {
    sockets.farewell(socket);
    Ok(())
}

/// Says that a part of a content was read.
fn note_part(sockets: &mut Sockets, socket: u64) -> Result<(), Unmet> {
    sockets.note_part(socket);
    Ok(())
}

/// Tells a client's socket something, or checks what writes to it do.
pub(crate) fn take(scene: &mut Scene, client: usize, room: Room) -> Result<(), Unmet> {
    let socket = scene.socket(client);
    match room {
        Room::IsFilled => fill_up(scene, socket),
        Room::IsFull => expect_full(&mut scene.sockets, socket),
        Room::HasRoom => expect_room(&mut scene.sockets, socket),
        Room::IsEnded => expect_no_write(&mut scene.sockets, socket),
        Room::IsWelcomed => welcome(&mut scene.sockets, socket),
        Room::IsLeft => bid_farewell(&mut scene.sockets, socket),
        Room::IsInside => note_part(&mut scene.sockets, socket),
    }
}
