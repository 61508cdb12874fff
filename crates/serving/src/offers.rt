//! Decides how many bytes a read of each slot is offered.
//!
//! All clients wait for a round to end, so a round has to be short even if a client floods. A read is offered as many bytes as the slot's share of
//! the round's commands would take, by the size of the commands at its last read. A slot is greedy if its last read got all bytes that it was
//! offered, with a command among them, or if more than [`BURST`] commands came since its last read that got less; any other slot is modest. So a part
//! of a large content doesn't make a slot greedy. Modest slots share [`COMMANDS`].
//! Greedy slots share [`BESIDE_COMMANDS`] if a modest slot gave bytes in the last [`BESIDE_ROUNDS`] rounds, so that the modest one waits for short
//! rounds only, and otherwise [`ALONE_COMMANDS`], so that fewer rounds are needed. A consumer is offered more for its acknowledgements, so that they
//! don't make it greedy. A connection whose messages enter queues that lag is offered less. Only the bounds are promised.

ghost use Rattle.std.specs.Prelude.{◌≡◌, ◌≤◌};
ghost use Rattle.serving.specs.Story.{IsOffer, read_room};

use crate::load::Load;
use std::alloc::{AllocError, Global};

/// The least offer, in bytes.
const LEAST: usize = 256;

/// The greatest offer, in bytes.
const MOST: usize = 65_536;

/// The greatest offer, in bytes, to a socket whose connection is not running yet.
const LOGIN: usize = 512;

/// The number of commands that all greedy slots together are offered room for in a round, beside modest ones.
const BESIDE_COMMANDS: usize = 32;

/// The number of commands that all greedy slots together are offered room for in a round, if they are alone.
const ALONE_COMMANDS: usize = 128;

/// The number of rounds for which greedy slots are beside a modest one after it was heard.
const BESIDE_ROUNDS: usize = 16;

/// The number of commands that all modest slots together are offered room for in a round.
const COMMANDS: usize = 256;

/// The most commands that a modest slot gives at once.
const BURST: usize = 256;

/// How many bytes more a slot is offered for each delivery that it has got since its last read: an acknowledgement takes 21.
const ANSWER: usize = 32;

/// What is known of a slot.
#[derive(Clone, Copy, Drop)]
struct Offer {
    /// The greatest offer, in bytes: a read whose messages entered queues that lag halves it, any other raises it.
    room: usize,
    /// The average size in bytes of a command at its last read.
    size: usize,
    /// The number of deliveries that the slot has got since its last read.
    delivered: usize,
    /// Whether its connection was running before its last read.
    runs: bool,
    /// The number of commands that came since its last read that got less than it was offered.
    burst: usize,
    /// Whether its last read got all bytes that it was offered, with a command among them, or ended a burst of more than [`BURST`] commands.
    is_greedy: bool,
}

/// The offer of a slot that was not read yet.
const FIRST: Offer = Offer {
    room: MOST,
    size: MOST,
    delivered: 0,
    runs: false,
    burst: 0,
    is_greedy: false,
};

/// The outcome of a read that got bytes.
#[derive(Clone, Copy, Drop)]
pub(crate) struct Heard {
    /// The number of bytes that were got, and the number that was offered.
    pub(crate) bytes: usize,
    pub(crate) room: usize,
    /// The number of turns that the connection took for these bytes.
    pub(crate) turns: usize,
    /// Whether the connection was running before the read.
    pub(crate) has_run: bool,
    /// Whether messages entered queues that lag.
    pub(crate) has_filled: bool,
}

/// Commands of a round, shared by the slots that gave bytes in the rounds before.
#[derive(Clone, Copy, Drop)]
struct Share {
    /// The number of slots that share the commands.
    among: usize,
    /// The number of commands for each.
    each: usize,
    /// The number of slots that gave bytes in this round.
    given: usize,
}

impl Share {
    /// Makes a share of `commands` for a single slot.
    fn new(commands: usize) -> Share {
        Share {
            among: 1,
            each: commands,
            given: 0,
        }
    }

    /// Begins a round in which `commands` are divided by the number of slots that gave bytes in the last round, or by one less than before if that is
    /// more.
    fn pass(&mut self, commands: usize) {
        self.among = self.given.max(self.among.saturating_sub(1));
        self.each = commands / self.among.max(1);
        self.given = 0;
    }

    /// Counts a slot that gave bytes.
    fn count(&mut self) {
        self.given = self.given.saturating_add(1);
    }

    /// Returns how many bytes one slot's share of the commands takes, if each takes `size` bytes.
    fn room(&self, size: usize) -> usize {
        size.saturating_mul(self.each)
    }
}

/// The offers, by slot.
#[derive(Drop)]
pub(crate) struct Offers {
    offers: Vec<Offer>,
    greedy: Share,
    modest: Share,
    /// The number of rounds since a modest slot gave bytes and stayed modest.
    alone: usize,
    /// The output of the connections to which this round has delivered.
    pub(crate) load: Load,
}

impl Offers {
    /// Makes the offers of `slots` slots that were not read yet. Fails only if an allocation fails.
    pub(crate) fn new(alloc: Global, slots: usize) -> Result<Offers, AllocError> {
        Ok(Offers {
            offers: vec![in alloc; FIRST; slots]?,
            greedy: Share::new(BESIDE_COMMANDS),
            modest: Share::new(COMMANDS),
            alone: 0,
            load: Load::new(alloc, slots)?,
        })
    }

    /// Begins a round.
    pub(crate) fn pass(&mut self) {
        self.alone = self.alone.saturating_add(1);
        self.greedy.pass(greedy_commands(self.alone));
        self.modest.pass(COMMANDS);
    }

    /// Resets the offer of `slot`, which a new socket has.
    pub(crate) fn begin(&mut self, slot: usize) {
        if slot < self.offers.len() {
            self.offers[slot] = FIRST;
        }
    }

    /// Counts a delivery to `slot`.
    pub(crate) fn deliver(&mut self, slot: usize)
        ensures { self.new.load ≡ self.old.load }
    {
        if slot < self.offers.len() {
            let offer = self.offers[slot];
            self.offers[slot] = Offer {
                delivered: offer.delivered.saturating_add(1),
                ..offer
            };
        }
    }

    /// Returns what is known of `slot`.
    fn own(&self, slot: usize) -> Offer {
        if slot < self.offers.len() {
            self.offers[slot]
        } else {
            FIRST
        }
    }

    /// Returns the most bytes that a slot with this `offer` gets in this round.
    fn most(&self, offer: Offer) -> usize
        ensures { result ≤ read_room }
    {
        let part = if offer.is_greedy {
            self.greedy.room(offer.size)
        } else {
            self.modest.room(offer.size)
        };
        let answers = offer.delivered.saturating_mul(ANSWER);
        part.saturating_add(answers)
            .min(if offer.runs { MOST } else { LOGIN })
    }

    /// Returns how many bytes a read of `slot` is offered.
    pub(crate) fn room(&self, slot: usize) -> usize
        ensures { IsOffer result }
    {
        let offer = self.own(slot);
        offer.room.min(self.most(offer)).max(LEAST)
    }

    /// Learns from a read of `slot` that got bytes.
    pub(crate) fn learn(&mut self, slot: usize, heard: Heard) {
        if slot < self.offers.len() {
            let old = self.offers[slot];
            let is_full = heard.bytes >= heard.room;
            let burst = old.burst.saturating_add(heard.turns);
            let is_greedy = (is_full && heard.turns > 0) || burst > BURST;
            self.offers[slot] = Offer {
                room: room_after(old.room, heard.has_filled),
                size: heard.bytes / heard.turns.max(1),
                delivered: 0,
                runs: heard.has_run,
                burst: if is_full { burst } else { 0 },
                is_greedy,
            };
            self.count(old.is_greedy, is_greedy);
        }
    }

    /// Counts a slot that gave bytes, by whether it was greedy before, and whether it is now.
    fn count(&mut self, was_greedy: bool, is_greedy: bool) {
        if was_greedy {
            self.greedy.count();
            return;
        }
        self.modest.count();
        if !is_greedy {
            self.alone = 0;
        }
    }
}

/// Returns the number of commands that greedy slots share if no modest one was heard for `alone` rounds.
fn greedy_commands(alone: usize) -> usize {
    if alone > BESIDE_ROUNDS {
        ALONE_COMMANDS
    } else {
        BESIDE_COMMANDS
    }
}

/// Returns the greatest offer after a read: half of `room` if messages entered queues that lag, otherwise a quarter more.
fn room_after(room: usize, has_filled: bool) -> usize {
    if has_filled {
        (room / 2).max(LEAST)
    } else {
        room.saturating_add(room / 4).min(MOST)
    }
}
