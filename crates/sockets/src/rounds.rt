//! Numbers the rounds, and decides when the system is asked again about a socket that had no room for a write.

ghost use Rattle.std.specs.Prelude.{◌≡◌, ◌≤◌, ◌<◌, ◌+◌, ◌/◌, ◌%◌, ℕ, Some, None, cond, true, false};
ghost use Rattle.serving.specs.declared.wire.Write.TheVariants as write;
ghost use Rattle.sockets.specs.Turns.{AsksIfDue};

use serving::Write;

/// The most full sockets that are asked in a round.
const MOST_ASKED: u64 = 8;

/// The number of rounds that take no turn after events that named a socket: they would have named any other socket that had something.
const NAMED_ROUNDS: u64 = 2;

/// Every round whose number is divisible by this takes a turn, whatever events named.
const SURE: u64 = 16;

/// The number of rounds without a rest after which events are fetched without waiting.
const FETCH_ROUNDS: u64 = 2;

/// The same while sockets wait that have more: then recent sockets are asked in each round.
const PRESSED_FETCH_ROUNDS: u64 = 8;

/// Every round whose number is divisible by this accepts, while sockets wait that have more.
const ACCEPT_ROUNDS: u64 = 4;

/// The sockets that wait to be asked for a write in their turn.
#[derive(Clone, Copy, Drop)]
struct Line {
    /// The number of the line's sockets in the last round that took a turn.
    length: u64,
    /// How many were counted in this round so far.
    met: u64,
    /// How many of those were asked.
    asked: u64,
    ghost within: { asked ≤ 8 },
}

/// The rounds, and the turns that are taken in some of them.
#[derive(Drop)]
pub(crate) struct Rounds {
    /// The number of this round.
    number: u64,
    /// The number of the last round before events were fetched.
    fetched: u64,
    /// The number of the last round before events were fetched that named a socket.
    named: u64,
    /// Whether a turn is taken in this round.
    is_turn: bool,
    /// The number of turns so far.
    turn: u64,
    /// The sockets that had no room for all of a write.
    full: Line,
    /// Whether an event has reported room at a full socket since this round began.
    names_room: bool,
    /// Whether an event reported room at a full socket between the beginning of the last round and that of this one.
    named_room: bool,
}

impl Line {
    /// Makes a line without sockets.
    fn new() -> Line {
        Line {
            length: 0,
            met: 0,
            asked: 0,
        }
    }

    /// Begins a round.
    fn begin(&mut self)
        ensures length { self.new.length ≡ self.old.met }
        ensures met { self.new.met ≡ 0 }
        ensures asked { self.new.asked ≡ 0 }
    {
        self.length = self.met;
        self.met = 0;
        self.asked = 0;
    }

    /// Begins a round. Counts the waiting sockets anew only if the round takes a turn (`is_turn`).
    fn begin_turn(&mut self, is_turn: bool)
        ensures length { is_turn ≡ true → self.new.length ≡ self.old.met }
        ensures asked { self.new.asked ≡ 0 }
    {
        if is_turn {
            self.begin();
        }
        self.asked = 0;
    }

    /// Returns whether a socket that has waited since turn `since` is asked in turn `turn`.
    ///
    /// It is asked if more than `length` / 8 turns have passed since then, and fewer than 8 sockets were asked in this turn. So all are asked in rotation:
    /// between two questions to one socket each other is asked at most once, for which `length` / 8 turns suffice.
    fn asks(&mut self, turn: u64, since: u64) -> bool
        ensures asked { self.new.asked ≡ self.old.asked + cond result 1 0 }
        ensures due { since + self.old.length / 8 < turn → self.old.asked < 8 → result ≡ true }
        ensures later { turn ≤ since + self.old.length / 8 → result ≡ false }
    {
        if !self.is_next(turn, since) {
            return false;
        }
        self.asked += 1;
        true
    }

    /// Returns whether a socket that has waited since turn `since` would be asked in turn `turn`.
    fn is_next(&self, turn: u64, since: u64) -> bool
        ensures due { since + self.now.length / 8 < turn → self.now.asked < 8 → result ≡ true }
        ensures later { turn ≤ since + self.now.length / 8 → result ≡ false }
        ensures most { 8 ≤ self.now.asked → result ≡ false }
    {
        self.asked < MOST_ASKED && turn > since.saturating_add(self.length / MOST_ASKED)
    }

    /// Counts one more waiting socket.
    fn meet(&mut self)
        ensures asked { self.new.asked ≡ self.old.asked }
        ensures length { self.new.length ≡ self.old.length }
    {
        self.met = self.met.saturating_add(1);
    }
}

impl Rounds {
    /// Makes the state before the first round.
    pub(crate) fn new() -> Rounds {
        Rounds {
            number: 0,
            fetched: 0,
            named: 0,
            is_turn: false,
            turn: 0,
            full: Line::new(),
            names_room: false,
            named_room: false,
        }
    }

    /// Begins a round. The round takes a turn if its number is divisible by 16, or if it isn't one of the two rounds after events that named a socket.
    pub(crate) fn begin(&mut self)
        // No full socket has been asked in this round.
        ensures full { self.new.full.asked ≡ 0 }
        // The round's number doesn't fall, and decides whether the round has to take a turn.
        ensures number { self.old.number ≤ self.new.number }
        ensures sure { self.new.number % 16 ≡ 0 → self.new.is_turn ≡ true }
        ensures unnamed { self.old.named + 2 < self.new.number → self.new.is_turn ≡ true }
        // What was learned since the last round began: whether room was reported.
        ensures named { self.new.named_room ≡ self.old.names_room }
    {
        self.number = self.number.saturating_add(1);
        self.is_turn = !self.is_named() || self.number % SURE == 0;
        if self.is_turn {
            self.turn = self.turn.saturating_add(1);
        }
        self.full.begin_turn(self.is_turn);
        self.named_room = self.names_room;
        self.names_room = false;
    }

    /// Returns whether events named a socket just before this round or the one before it, so that the others have nothing.
    fn is_named(&self) -> bool
        ensures long_ago { result ≡ false → self.now.named + 2 < self.now.number }
        ensures not { self.now.named + 2 < self.now.number → result ≡ false }
    {
        self.number <= self.named.saturating_add(NAMED_ROUNDS)
    }

    /// Returns the number of this round.
    pub(crate) fn number(&self) -> u64
        ensures { result ≡ self.now.number }
    {
        self.number
    }

    /// Returns whether events are fetched before the next round begins: none were in the last two rounds, or in the last eight while sockets wait
    /// that have more (`is_pressed`).
    pub(crate) fn fetches(&self, is_pressed: bool) -> bool
        ensures pressed { self.now.fetched + 8 ≤ self.now.number → result ≡ true }
        ensures free { is_pressed ≡ false → self.now.fetched + 2 ≤ self.now.number → result ≡ true }
    {
        if is_pressed {
            return self.number >= self.fetched.saturating_add(PRESSED_FETCH_ROUNDS);
        }
        self.number >= self.fetched.saturating_add(FETCH_ROUNDS)
    }

    /// Returns whether this round accepts even if no event named the listening socket. If sockets wait that have more (`is_pressed`) each fourth does.
    pub(crate) fn accepts(&self, is_pressed: bool) -> bool
        ensures pressed { is_pressed ≡ true → self.now.number % 4 ≡ 0 → result ≡ true }
        ensures free { is_pressed ≡ false → self.now.number % 16 ≡ 0 → result ≡ true }
    {
        if is_pressed {
            return self.number % ACCEPT_ROUNDS == 0;
        }
        self.number % SURE == 0
    }

    /// Records that an event reported room at a socket that was full.
    pub(crate) fn free(&mut self)
        ensures full { self.new.full ≡ self.old.full }
        ensures names { self.new.names_room ≡ true }
    {
        self.names_room = true;
    }

    /// Records that events were fetched, and whether they named a socket, so that all others have nothing.
    pub(crate) fn note_fetched(&mut self, has_named: bool)
        ensures fetched { self.new.fetched ≡ self.old.number }
        ensures named { self.new.named ≡ cond has_named self.old.number self.old.named }
    {
        self.fetched = self.number;
        if has_named {
            self.named = self.number;
        }
    }

    /// Returns the turn since which a socket is full after a write in this round, or `None` if it took all that it was offered.
    ///
    /// No wake-up is lost. If a write took less than it was offered, or nothing, the system reports room by an event after the
    /// write, and only a rest fetches events, which comes after this mark. If a signal interrupted the write there may be no event:
    /// the socket is then asked in its turn.
    pub(crate) fn after_write(&self, answer: Write, offered: usize) -> Option<u64>
        ensures all { answer ≡ write.Took offered → result ≡ None }
        ensures part { (n : ℕ) → answer ≡ write.Took n → n < offered → result ≡ Some self.now.turn }
        ensures none { answer ≡ write.Wait → result ≡ Some self.now.turn }
    {
        match answer {
            Write::Took(count) if count >= offered => None,
            Write::Took(_) => Some(self.turn),
            Write::Wait => Some(self.turn),
            Write::Failed => None,
        }
    }

    /// Returns whether a socket is asked for a write in this round: always if it isn't full, only when it is due if it has been full since turn `since`.
    pub(crate) fn asks_write(&mut self, since: Option<u64>) -> bool
        ensures free { since ≡ None → result ≡ true }
        ensures full { (s : ℕ) → since ≡ Some s → self.new.full.asked ≡ self.old.full.asked + cond result 1 0 }
    {
        let Some(since) = since else {
            return true;
        };
        if !self.is_turn {
            return false;
        }
        self.full.meet();
        self.full.asks(self.turn, since)
    }

    /// Returns whether any socket that was full may be asked for a write in this round: the round takes a turn, or an event reported room between
    /// the beginning of the last round and that of this one.
    pub(crate) fn asks_full(&self) -> bool
        ensures turn { self.now.is_turn ≡ true → result ≡ true }
        ensures named { self.now.named_room ≡ true → result ≡ true }
    {
        self.is_turn || self.named_room
    }

    /// Returns whether a write to a socket is answered in this round without asking the system: the socket was not full, or it is not due.
    pub(crate) fn passes_write(&mut self, since: Option<u64>) -> bool
        ensures due { (s : ℕ) → since ≡ Some s → AsksIfDue self.old.full.length self.old.full.asked self.old.is_turn self.old.turn s result }
        ensures full { self.new.full.asked ≡ self.old.full.asked }
    {
        let Some(since) = since else {
            return true;
        };
        if !self.is_turn {
            return true;
        }
        if self.full.is_next(self.turn, since) {
            return false;
        }
        self.full.meet();
        true
    }
}
