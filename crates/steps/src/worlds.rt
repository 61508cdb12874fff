//! What the steps of a scenario are taken in. Start with [`World`].

use line_parts::{LineAnswer, Unanswered, number_of};

/// A step: its kind, and what follows it.
#[derive(Drop)]
pub(crate) struct Step<'a> {
    pub(crate) kind: &'a str,
    /// All that follows the kind.
    pub(crate) text: &'a str,
    /// The numbers that follow the kind, 0 for one that is missing. The first one names a connection, a client or a socket, if the kind has one.
    pub(crate) first: u64,
    pub(crate) second: u64,
    pub(crate) third: u64,
    /// The bytes that follow the numbers.
    pub(crate) bytes: Vec<u8>,
}

impl Step<'_> {
    /// Returns a copy of the bytes.
    pub(crate) fn copied_bytes(&self, out: &mut LineAnswer) -> Vec<u8> {
        let mut copy = Vec::new(out.alloc());
        out.value_of(copy.extend_from_slice(&self.bytes), Unanswered::Memory);
        copy
    }
}

/// What the steps of a scenario are taken in: an engine, or a server with its clients.
pub(crate) trait World {
    /// Takes a step, and appends its answer. A step that only does something answers nothing unless it fails.
    fn answer(&mut self, out: &mut LineAnswer, step: &Step<'_>);

    /// Returns whether `condition` is so; no other condition than the world's own is.
    fn is_so(&self, condition: &str) -> bool;
}

/// Returns the number at the front of `text`, and what follows it: 0 if `text` is empty, and the largest number for `all`.
pub(crate) fn number_at<'a>(out: &mut LineAnswer, text: &'a str) -> (u64, &'a str) {
    let (word, rest) = text.split_once(' ').unwrap_or((text, ""));
    let number = match word {
        "" => 0,
        "all" => u64::MAX,
        _ => u64::from(number_of(out, word)),
    };
    (number, rest)
}

/// Appends why a step failed, if it did.
pub(crate) fn put_failure<T: Drop, E: Drop>(
    out: &mut LineAnswer,
    outcome: Result<T, E>,
    why: &str,
) {
    if outcome.is_err() {
        out.put(why);
    }
}
