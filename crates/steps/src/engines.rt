//! Steps of an engine: each is one of its calls. Start with [`Calls`].

use crate::called::{put_route, put_run, put_served};
use crate::setups::Disk;
use crate::worlds::{Step, World, put_failure};
use callers::answer;
use engine::{Engine, Refused, Turn};
use line_parts::{LineAnswer, Unanswered};
use model::Note;
use notes::Notes;
use runs::Delivered;
use std::alloc::AllocError;
use std::fs;

/// basic.ack on channel 1, up to its delivery tag.
const ACK: &[u8] = b"\x01\x00\x01\x00\x00\x00\x0d\x00\x3c\x00\x50";

/// The end of a basic.ack of one delivery.
const ACK_END: &[u8] = b"\x00\xce";

/// The type of a method's frame.
const METHOD: &[u8] = b"\x01";

/// The most consumers of a channel.
const MOST_CONSUMERS: u64 = 256;

/// The size of a page of memory, in bytes.
const PAGE: u64 = 4_096;

/// An engine that lines call, with what they counted so far.
#[derive(Drop)]
pub(crate) struct Calls<'a> {
    disk: Disk<'a>,
    /// The definitions file of the engine.
    file: &'a str,
    engine: Engine,
    /// The number of deliveries that were acknowledged by `ack`.
    acked: u64,
    /// The resident memory of the process in bytes, when `resident` was taken.
    resident: u64,
}

/// Appends the number of the connection that was opened, or why none was.
fn put_opened(out: &mut LineAnswer, opened: Result<u64, Refused>) {
    match opened {
        Ok(number) => out.put_number(number),
        Err(Refused::Full) => out.put("full"),
        Err(Refused::Spent) => out.put("spent"),
        Err(Refused::Memory) => out.put("memory"),
    }
}

/// Appends the queue that the last note says was entered, if it says so.
fn put_entered(out: &mut LineAnswer, notes: &[Note]) {
    if let Some(Note::Entered { queue, .. }) = notes.last() {
        out.put(", entered ");
        out.put_bytes(queue.as_bytes());
    }
}

/// Appends the number of notes, and the queue that the last one says was entered.
fn put_notes(out: &mut LineAnswer, notes: Notes) {
    out.put("did ");
    out.put_number(notes.len() as u64);
    if let Some(notes) = notes.into_vec() {
        put_entered(out, notes.as_slice());
    }
}

/// Appends what a turn did.
fn put_turn(out: &mut LineAnswer, turn: Result<Turn, AllocError>) {
    match turn {
        Ok(Turn::Did(notes)) => put_notes(out, notes),
        Ok(Turn::Idle) => out.put("idle"),
        Ok(Turn::Paused) => out.put("paused"),
        Ok(Turn::Over) => out.put("over"),
        Err(_) => out.put("memory"),
    }
}

/// Returns the connection of a delivery, or 0 if none was made.
fn connection_of(delivered: Result<Option<Delivered>, AllocError>) -> u64 {
    match delivered {
        Ok(Some(delivered)) => delivered.connection,
        _ => 0,
    }
}

/// Appends `parts` to `bytes`, one behind the other.
fn put_parts(out: &mut LineAnswer, bytes: &mut Vec<u8>, parts: &[&[u8]]) {
    for part in parts {
        out.value_of(bytes.extend_from_slice(part), Unanswered::Memory);
    }
}

/// Opens a connection that is running with channels 1 to `channels`; 0 stands for 2.
fn open_ready(out: &mut LineAnswer, engine: &mut Engine, channels: u64) {
    let channels = if channels == 0 { 2 } else { channels };
    match u8::try_from(channels) {
        Ok(channels) => put_opened(out, engine.open_ready(out.alloc(), channels)),
        Err(_) => out.fail(Unanswered::Form),
    }
}

/// Opens `count` connections with one channel, and appends the number of the last that got the number behind the one before it.
fn open_all(out: &mut LineAnswer, engine: &mut Engine, count: u64) {
    let mut last = 0u64;
    for _ in 0..count {
        let number = engine.open_ready(out.alloc(), 1).unwrap_or(0);
        if number == last.saturating_add(1) {
            last = number;
        }
    }
    out.put_number(last);
}

/// Feeds `bytes` to connection `c`, performs what they complete, and returns its output, which is taken.
fn answered(out: &mut LineAnswer, engine: &mut Engine, c: u64, bytes: &[u8]) -> Vec<u8> {
    let mut taken = Vec::new(out.alloc());
    let outcome = answer(out.alloc(), engine, c, bytes, &mut taken);
    put_failure(out, outcome, "memory");
    taken
}

/// Appends the whole answer to bytes of a connection.
fn put_answer(out: &mut LineAnswer, engine: &mut Engine, step: &Step<'_>) {
    let taken = answered(out, engine, step.first, step.bytes.as_slice());
    out.put_hex(taken.as_slice());
}

/// Has connection `c` acknowledge `count` deliveries one by one, those behind the first `acked`.
fn acknowledge(out: &mut LineAnswer, engine: &mut Engine, c: u64, acked: u64, count: u64) {
    let mut acks = Vec::new(out.alloc());
    for place in 0..count {
        let tag = acked.saturating_add(place).saturating_add(1).to_be_bytes();
        put_parts(out, &mut acks, &[ACK, tag.as_slice(), ACK_END]);
    }
    answered(out, engine, c, acks.as_slice());
}

/// Returns as many methods on channel `channel` as it may have consumers. `method` is the size, payload and end of each.
fn filling(out: &mut LineAnswer, channel: u64, method: &[u8]) -> Vec<u8> {
    let mut frames = Vec::new(out.alloc());
    let number = u16::try_from(channel).unwrap_or(0).to_be_bytes();
    for _ in 0..MOST_CONSUMERS {
        put_parts(out, &mut frames, &[METHOD, number.as_slice(), method]);
    }
    frames
}

/// Fills each channel from the second number of `step` to its third.
fn crowd(out: &mut LineAnswer, engine: &mut Engine, step: &Step<'_>) {
    for channel in step.second..step.third.saturating_add(1) {
        let frames = filling(out, channel, step.bytes.as_slice());
        answered(out, engine, step.first, frames.as_slice());
    }
}

/// Makes `count` deliveries. Appends the connection that got them, or 0 if they went to several or one could not be made.
fn pump(out: &mut LineAnswer, engine: &mut Engine, count: u64) {
    let first = connection_of(engine.pump(out.alloc()));
    let mut is_alike = true;
    for _ in 1..count {
        let next = connection_of(engine.pump(out.alloc()));
        is_alike = is_alike && next == first;
    }
    out.put_number(if is_alike { first } else { 0 });
}

/// Takes a step that looks at the output of a connection.
fn put_output(out: &mut LineAnswer, engine: &Engine, step: &Step<'_>) {
    let output = engine.output(step.first);
    match step.kind {
        "output" => out.put_hex(output),
        "size" => out.put_number(output.len() as u64),
        "begins" => out.put_yes_or_no(output.starts_with(step.bytes.as_slice())),
        "ends" => out.put_yes_or_no(output.ends_with(step.bytes.as_slice())),
        "over" => out.put_yes_or_no(engine.is_over(step.first)),
        _ => out.fail(Unanswered::Form),
    }
}

/// Returns the resident memory of the process in bytes, as Linux reports it (`/proc/self/statm`, the second number), or 0 if it doesn't.
fn resident_now(rt: &HostRuntime) -> u64 {
    let Ok(line) = fs::read_to_string(rt, "/proc/self/statm") else {
        return 0;
    };
    let pages = match line.as_str().split_whitespace().nth(1) {
        Some(word) => word.parse::<u64>().unwrap_or(0),
        None => 0,
    };
    pages.saturating_mul(PAGE)
}

/// Appends whether the process has grown by less than `most` bytes since it had `resident`.
fn put_grown(out: &mut LineAnswer, rt: &HostRuntime, resident: u64, most: u64) {
    let now = resident_now(rt);
    out.put_yes_or_no(now > 0 && now.saturating_sub(resident) < most);
}

impl<'a> Calls<'a> {
    /// Returns an engine over the definitions file `file`.
    pub(crate) fn new(disk: Disk<'a>, out: &mut LineAnswer, file: &'a str) -> Option<Calls<'a>> {
        Some(Calls {
            disk,
            file,
            engine: disk.engine(out, file)?,
            acked: 0,
            resident: 0,
        })
    }

    /// Has connection `c` acknowledge its next `count` deliveries.
    fn ack(&mut self, out: &mut LineAnswer, c: u64, count: u64) {
        acknowledge(out, &mut self.engine, c, self.acked, count);
        self.acked = self.acked.saturating_add(count);
    }

    /// Puts files in force.
    fn reload(&mut self, out: &mut LineAnswer, files: &str) {
        if let Some(setup) = self.disk.setup(out, files) {
            let (checked, users) = setup.into_parts();
            let reloaded = self.engine.reload(out.alloc(), checked, users);
            put_failure(out, reloaded, "refused");
        }
    }

    /// Takes a step that doesn't change the engine: another engine of the same file may.
    fn answer_beside(&self, out: &mut LineAnswer, step: &Step<'_>) {
        match step.kind {
            "grown" => put_grown(out, self.disk.rt, self.resident, step.first),
            "ask-route" => put_route(out, step.text),
            "serve-client" => put_served(out, self.disk, self.file, step),
            "run-unopened" => put_run(out, self.disk, self.file, step),
            _ => put_output(out, &self.engine, step),
        }
    }

    /// Takes a step that is about no connection that is open.
    fn answer_of_all(&mut self, out: &mut LineAnswer, step: &Step<'_>) {
        match step.kind {
            "open" => put_opened(out, self.engine.open(out.alloc())),
            "ready" => open_ready(out, &mut self.engine, step.first),
            "ready-all" => open_all(out, &mut self.engine, step.first),
            "pump" => pump(out, &mut self.engine, step.first),
            "reload" => self.reload(out, step.text),
            "resident" => self.resident = resident_now(self.disk.rt),
            _ => self.answer_beside(out, step),
        }
    }
}

impl World for Calls<'_> {
    fn answer(&mut self, out: &mut LineAnswer, step: &Step<'_>) {
        let c = step.first;
        match step.kind {
            "in" => put_failure(out, self.engine.feed(c, step.bytes.as_slice()), "memory"),
            "all" => drop(answered(out, &mut self.engine, c, step.bytes.as_slice())),
            "answer" => put_answer(out, &mut self.engine, step),
            "turn" => put_turn(out, self.engine.turn(out.alloc(), c)),
            "sent" => self.engine.sent(c, step.second),
            "ack" => self.ack(out, c, step.second),
            "crowd" => crowd(out, &mut self.engine, step),
            "lose" => self.engine.lose(c),
            _ => self.answer_of_all(out, step),
        }
    }

    fn is_so(&self, _condition: &str) -> bool {
        false
    }
}
