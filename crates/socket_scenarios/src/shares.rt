//! Who is asked for bytes, and when: what crate `turns` decides, over clients that are only counted.

use scenario_outcomes::{Unmet, expect, value_of};
use std::alloc::Global;
use turns::Turns;

/// The number of rounds that are played, and of clients.
const ROUNDS: u64 = 600;

const CLIENTS: usize = 966;

/// The rounds within which bytes are read, and between two fetches of events.
const SOON: u64 = 16;

const FETCH: u64 = 8;

/// The first clients are idle, and each sends something once. Those that follow never pause, up to two that send again and again: a little, and a
/// content that takes many reads.
const IDLE: usize = 900;

const GREEDY: usize = 964;

const GAP: u64 = 20;

const READS: u64 = 16;

/// The most reads of clients that never pause: one a round, and two for each as it comes.
const MOST_GREEDY: u64 = ROUNDS + 2 * 64;

/// The most reads in which nothing came: for each client a few, and eighteen a round for the recent ones and those in their turn.
const MOST_VAIN: u64 = 2 * 966 + 18 * ROUNDS;

/// What a client has sent that was not read: how many reads it takes, and the round since which the next one could have been made.
#[derive(Clone, Copy, Drop)]
struct Sent {
    reads: u64,
    since: u64,
}

/// What the reads came to.
#[derive(Clone, Copy, Drop)]
struct Found {
    /// The most rounds that bytes of a client waited that does pause.
    longest: u64,
    /// The reads of clients that never pause.
    greedy: u64,
    /// The reads in which nothing came.
    vain: u64,
}

/// Returns how many reads it takes what client `index` sends in `round`; 0 if it sends nothing.
fn sends(index: usize, round: u64) -> u64 {
    if index < IDLE {
        u64::from(round == index as u64)
    } else if index < GREEDY {
        u64::MAX
    } else if index == GREEDY {
        u64::from(round % GAP == 0)
    } else {
        READS
    }
}

/// Lets each client send that has nothing left, and tells of all that have something in a round that fetches events.
fn send_all(turns: &mut Turns, clients: &mut [Sent], round: u64) {
    for (index, client) in clients.iter_mut().enumerate() {
        if client.reads == 0 {
            *client = Sent {
                reads: sends(index, round),
                since: round,
            };
        }
        if client.reads > 0 && round % FETCH == 0 {
            turns.speak(index);
        }
    }
}

/// Reads from a client once, which is asked in this round.
fn read(turns: &mut Turns, client: &mut Sent, index: usize, round: u64, found: &mut Found) {
    if client.reads == 0 {
        turns.fall_silent(index);
        found.vain = found.vain.saturating_add(1);
        return;
    }
    let waited = round.saturating_sub(client.since);
    client.reads -= 1;
    client.since = round;
    turns.hear(index, client.reads > 0, false);
    if index >= IDLE && index < GREEDY {
        found.greedy = found.greedy.saturating_add(1);
        return;
    }
    if client.reads > 0 {
        turns.note_part(index);
    }
    found.longest = found.longest.max(waited);
}

/// Plays the rounds, and returns what the reads came to.
fn played(alloc: Global, turns: &mut Turns) -> Result<Found, Unmet> {
    let none = Sent { reads: 0, since: 0 };
    let mut clients = value_of("vec!", vec![in alloc; none; CLIENTS])?;
    let mut found = Found {
        longest: 0,
        greedy: 0,
        vain: 0,
    };
    for round in 1..ROUNDS {
        send_all(turns, clients.as_mut_slice(), round);
        turns.begin(round);
        for (index, client) in clients.iter_mut().enumerate() {
            if turns.is_due(index) {
                read(turns, client, index, round, &mut found);
            }
        }
    }
    Ok(found)
}

/// Beside 64 clients that never pause and 900 that are mostly idle, whatever any other client sends is read soon, few reads are in vain, and those
/// that never pause are read one after another.
pub(crate) fn each_client_is_read_soon(alloc: Global) -> Result<(), Unmet> {
    let mut turns = value_of("Turns::new", Turns::new(alloc))?;
    for index in 0..CLIENTS {
        turns.enter(index);
    }
    let found = played(alloc, &mut turns)?;
    expect("bytes are read soon", found.longest <= SOON)?;
    expect(
        "a round reads one greedy socket",
        found.greedy <= MOST_GREEDY,
    )?;
    expect("few reads are in vain", found.vain <= MOST_VAIN)
}
