//! Which sockets are asked in a round, and what becomes of them.

ghost use Rattle.std.specs.Prelude.{◌≡◌, ◌≤◌, ◌<◌, ℕ, IfOk, replicate, slice_set, true, false};
ghost use Rattle.marks.specs.Sets.{bit_of};
ghost use Rattle.turns.specs.Turns.{HasMore, IsDue, voice_at};
ghost use Rattle.turns.specs.declared.voices.Voice.TheVariants as voices;

use crate::rings::Ring;
use crate::sets::{PLACES, SocketSet};
use crate::voices::Voice;
use std::alloc::{AllocError, Global};
use std::marker::Model;

/// The most greedy sockets of clients that have logged in that are asked in a round.
const MOST_GREEDY: u32 = 1;

/// The most greedy sockets of clients that have not logged in that are asked in a round.
const MOST_STRANGERS: u32 = 1;

/// The most sockets that are asked in a round for more of a large content.
const MOST_CONTENTS: u32 = 2;

/// The most recent sockets that are asked in a round.
const MOST_RECENT: u32 = 16;

/// The most silent sockets that are asked in a round that asks any.
const MOST_SILENT: u32 = 8;

/// The rounds whose numbers are divisible by this ask silent sockets.
const SURE: u64 = 16;

/// The number of rounds for which a socket is recent after it gave bytes.
const RECENT_ROUNDS: u64 = 256;

/// The most sockets that have their turn in a round, and more.
const MOST_PICKED: u32 = 64;

/// What is known of each socket, and which are asked in this round.
#[derive(Drop)]
pub struct Turns {
    /// The voice of each socket, by index.
    voices: Vec<Voice>,
    /// The round in which each socket was accepted, or last gave bytes.
    heard: Vec<u64>,
    /// The sockets that are asked in each round.
    speaking: SocketSet,
    greedy: Ring,
    strangers: Ring,
    contents: Ring,
    recent: Ring,
    silent: Ring,
    /// The sockets that have their turn in this round.
    picked: SocketSet,
    /// The number of this round.
    round: u64,
}

impl Model for Turns {
    ghost use Rattle.turns.specs.Turns.{AreIn, Seats};

    ghost Value = { Seats };

    ghost view = { λ t. record { voices = t.voices.items; picked = t.picked } };

    ghost invariant = { λ t. AreIn t.speaking t.greedy.members t.strangers.members t.contents.members t.recent.members t.silent.members t.voices.items };
}

impl Turns {
    /// Makes the state before the first round, without sockets. Fails only if an allocation fails.
    pub fn new(alloc: Global) -> Result<Turns, AllocError>
        ensures { IfOk result (λ t. t.voices ≡ replicate 4096 voices.Gone) }
    {
        let voices = all_gone(alloc)?;
        Ok(Turns {
            voices,
            heard: vec![in alloc; 0; PLACES]?,
            speaking: SocketSet::new(alloc)?,
            greedy: Ring::new(alloc)?,
            strangers: Ring::new(alloc)?,
            contents: Ring::new(alloc)?,
            recent: Ring::new(alloc)?,
            silent: Ring::new(alloc)?,
            picked: SocketSet::new(alloc)?,
            round: 0,
        })
    }

    /// Begins round `round`: chooses the sockets that have their turn in it. The recent ones have one only while sockets wait that have more, and in
    /// each 16th round: otherwise events tell soon enough which have something.
    pub fn begin(&mut self, round: u64) {
        self.end_turns();
        self.round = round;
        let is_sure = round % SURE == 0;
        self.greedy.pick(&mut self.picked, MOST_GREEDY);
        self.strangers.pick(&mut self.picked, MOST_STRANGERS);
        self.contents.pick(&mut self.picked, MOST_CONTENTS);
        if is_sure || self.is_pressed() {
            self.recent.pick(&mut self.picked, MOST_RECENT);
        }
        if is_sure {
            self.silent.pick(&mut self.picked, MOST_SILENT);
        }
    }

    /// Ends the turns of the last round.
    fn end_turns(&mut self) {
        for _ in 0..MOST_PICKED {
            if !self.end_turn() {
                return;
            }
        }
    }

    /// Ends the turn of a socket that was chosen and not asked, and returns whether there was one: its connection is paused. If it has more it is asked
    /// in each round from now on, so that no rest is cut short for it, and it is read once its connection goes on.
    fn end_turn(&mut self) -> bool {
        let Some(index) = self.picked.next(0) else {
            return false;
        };
        self.picked.put(index, false);
        self.begin_anew(index);
        true
    }

    /// Returns whether a socket waits that has more than its last read got: then a rest may not wait for events.
    pub fn is_pressed(&self) -> bool
        ensures { result ≡ false → (i : ℕ) → HasMore (voice_at self.now.voices i) → ⊥ }
    {
        if !self.greedy.is_empty() {
            return true;
        }
        if !self.strangers.is_empty() {
            return true;
        }
        !self.contents.is_empty()
    }

    /// Returns whether the socket is asked in this round. It is if it speaks or ends, or has its turn.
    pub fn is_due(&self, index: usize) -> bool
        ensures { result ≡ false → IsDue self.now index → ⊥ }
    {
        self.speaking.contains(index) || self.picked.contains(index)
    }

    /// Returns the first index at or after `from` whose socket is asked in this round, or `end` if there is none before it.
    pub fn next_due(&self, from: usize, end: usize) -> usize
        requires { from ≤ end }
        ensures least { from ≤ result }
        ensures most { result ≤ end }
        ensures passed { (i : ℕ) → from ≤ i → i < result → IsDue self.now i → ⊥ }
    {
        let speaking = first_before(&self.speaking, from, end);
        first_before(&self.picked, from, speaking)
    }

    /// A socket is accepted, and gets this index, with nothing of an earlier socket that had it.
    pub fn enter(&mut self, index: usize)
        ensures { index < 4096 → self.new.voices ≡ slice_set self.old.voices index voices.Speaking }
    {
        self.note_heard(index);
        self.seat(index, Voice::Speaking);
    }

    /// The socket is closed.
    pub fn leave(&mut self, index: usize)
        ensures { index < 4096 → self.new.voices ≡ slice_set self.old.voices index voices.Gone }
    {
        self.seat(index, Voice::Gone);
    }

    /// The peer of the socket has ended it, by an event, or its time is over.
    pub fn end(&mut self, index: usize)
        ensures { index < 4096 → self.new.voices ≡ slice_set self.old.voices index voices.Ending }
    {
        self.seat(index, Voice::Ending);
    }

    /// An event says that the socket has something. One that has more anyway keeps its turn.
    pub fn speak(&mut self, index: usize) {
        match self.voice(index) {
            Voice::Recent | Voice::Silent => self.seat(index, Voice::Speaking),
            _ => {}
        }
    }

    /// A read of the socket got bytes, and filled the buffer or not (`is_full`).
    pub fn hear(&mut self, index: usize, is_full: bool, is_stranger: bool) {
        self.note_heard(index);
        self.picked.put(index, false);
        match self.voice(index) {
            Voice::Ending => {}
            _ if !is_full => self.seat(index, Voice::Recent),
            _ if is_stranger => self.seat(index, Voice::Stranger),
            _ => self.seat(index, Voice::Greedy),
        }
    }

    /// The bytes that filled the last read of the socket were a part of one content, so it isn't greedy.
    pub fn note_part(&mut self, index: usize) {
        if let Voice::Greedy = self.voice(index) {
            self.seat(index, Voice::Content);
        }
    }

    /// A read of the socket got nothing.
    pub fn fall_silent(&mut self, index: usize) {
        let is_recent = self.is_recent(index);
        self.picked.put(index, false);
        match self.voice(index) {
            Voice::Ending => {}
            Voice::Recent if is_recent => {}
            _ if is_recent => self.seat(index, Voice::Recent),
            _ => self.seat(index, Voice::Silent),
        }
    }

    /// The client of the socket has logged in, or its connection has stopped or is paused: one that has more is asked in each round.
    pub fn begin_anew(&mut self, index: usize) {
        match self.voice(index) {
            Voice::Greedy | Voice::Stranger | Voice::Content => self.seat(index, Voice::Speaking),
            _ => {}
        }
    }

    /// Returns the voice of the socket.
    fn voice(&self, index: usize) -> Voice
        ensures { result ≡ voice_at self.now.voices index }
    {
        if index < self.voices.len() {
            self.voices[index]
        } else {
            Voice::Gone
        }
    }

    /// Records that the socket came or gave bytes in this round.
    fn note_heard(&mut self, index: usize)
        ensures { self.new ≡ self.old }
    {
        if index < self.heard.len() {
            self.heard[index] = self.round;
        }
    }

    /// Returns whether the socket came or gave bytes in the last 256 rounds.
    fn is_recent(&self, index: usize) -> bool {
        index < self.heard.len() && self.round <= self.heard[index].saturating_add(RECENT_ROUNDS)
    }

    /// Gives the socket a voice, and puts it into the set of that voice.
    fn seat(&mut self, index: usize, voice: Voice)
        ensures { index < 4096 → self.new.voices ≡ slice_set self.old.voices index voice }
    {
        if index >= PLACES {
            return;
        }
        if index >= self.voices.len() {
            return;
        }
        self.speaking.put(index, voice.is_asked());
        self.greedy.put(index, voice.is_greedy());
        self.strangers.put(index, voice.is_stranger());
        self.contents.put(index, voice.is_content());
        self.recent.put(index, voice.is_recent());
        self.silent.put(index, voice.is_silent());
        self.voices[index] = voice;
    }
}

/// Returns the voices of sockets of which none has come. Fails only if an allocation fails.
fn all_gone(alloc: Global) -> Result<Vec<Voice>, AllocError>
    ensures { IfOk result (λ gone. gone.items ≡ replicate 4096 voices.Gone) }
{
    let gone = vec![in alloc; Voice::Gone; PLACES]?;
    Ok(gone)
}

/// Returns the first member at or after `from`, or `end` if there is none before it.
fn first_before(set: &SocketSet, from: usize, end: usize) -> usize
    requires { from ≤ end }
    ensures least { from ≤ result }
    ensures most { result ≤ end }
    ensures passed { (i : ℕ) → from ≤ i → i < result → bit_of set.now i ≡ 1 → ⊥ }
{
    match set.next(from) {
        Some(index) => index.min(end),
        None => end,
    }
}
