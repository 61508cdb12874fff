//! Bytes that a file of scenarios calls by a name, and the steps that it writes with them. Start with [`Names::step_of`].

use crate::worlds::{Step, number_at};
use line_parts::{LineAnswer, Unanswered, bytes_of, number_of};
use std::alloc::Global;

/// The kinds of steps that are followed by neither numbers nor bytes.
const OF_TEXT: [&str; 2] = ["reload", "ask-route"];

/// The kinds of steps that are followed by one number and bytes.
const OF_ONE_NUMBER: [&str; 9] = [
    "in",
    "all",
    "answer",
    "begins",
    "ends",
    "has",
    "write",
    "serve-client",
    "run-unopened",
];

/// The kinds of steps whose answer is bytes: what is wanted is written as bytes are.
const ANSWERING_BYTES: [&str; 6] = [
    "took",
    "output",
    "there",
    "awaited",
    "answer",
    "serve-client",
];

/// A name and its bytes.
#[derive(Drop)]
struct Named<'a> {
    name: &'a str,
    bytes: Vec<u8>,
}

/// The names of a file.
#[derive(Drop)]
pub(crate) struct Names<'a> {
    all: Vec<Named<'a>>,
}

impl<'a> Names<'a> {
    pub(crate) fn new(alloc: Global) -> Names<'a> {
        Names {
            all: Vec::new(alloc),
        }
    }

    /// Returns the bytes called `name`, or `None` if no name is this one.
    fn find(&self, name: &str) -> Option<&[u8]> {
        for named in &self.all {
            if named.name == name {
                return Some(named.bytes.as_slice());
            }
        }
        None
    }

    /// Appends the bytes of `word`: those of a name, as often as the count after its `*` says, or those that it writes in hex.
    fn put_word(&self, out: &mut LineAnswer, bytes: &mut Vec<u8>, word: &str) {
        let (name, count) = word.split_once('*').unwrap_or((word, "1"));
        match self.find(name) {
            Some(part) => put_times(out, bytes, part, count),
            None => {
                let part = bytes_of(out, word);
                put_times(out, bytes, part.as_slice(), "1");
            }
        }
    }

    /// Returns the bytes of the words in `text`. Fails with [`Unanswered::Form`] if one is neither a name nor hex.
    fn bytes_of(&self, out: &mut LineAnswer, text: &str) -> Vec<u8> {
        let mut bytes = Vec::new(out.alloc());
        for word in text.split(' ') {
            self.put_word(out, &mut bytes, word);
        }
        bytes
    }

    /// Adds the name that a line `NAME BYTES` defines. The bytes may be written by earlier names.
    pub(crate) fn add(&mut self, out: &mut LineAnswer, line: &'a str) {
        let (name, text) = line.split_once(' ').unwrap_or((line, ""));
        let bytes = self.bytes_of(out, text);
        out.push(&mut self.all, Named { name, bytes });
    }

    /// Returns the step that `line` writes. Fails with [`Unanswered::Form`] if its numbers or its bytes are none.
    pub(crate) fn step_of<'s>(&self, out: &mut LineAnswer, line: &'s str) -> Step<'s> {
        let (kind, text) = line.split_once(' ').unwrap_or((line, ""));
        let count = numbers_of(kind);
        let (first, rest) = number_if(out, count > 0, text);
        let (second, rest) = number_if(out, count > 1, rest);
        let (third, rest) = number_if(out, count > 2, rest);
        let written = if count > 0 { rest } else { "" };
        let bytes = self.bytes_of(out, written);
        Step {
            kind,
            text,
            first,
            second,
            third,
            bytes,
        }
    }

    /// Returns the answer that a step of the kind `kind` should have, if `text` is what the file says of it.
    pub(crate) fn wanted(&self, out: &mut LineAnswer, kind: &str, text: &str) -> LineAnswer {
        let mut wanted = LineAnswer::new(out.alloc());
        if ANSWERING_BYTES.contains(&kind) {
            let bytes = self.bytes_of(out, text);
            wanted.put_hex(bytes.as_slice());
        } else {
            wanted.put(text);
        }
        wanted
    }
}

/// Returns how many numbers follow the kind `kind` of a step, before its bytes, if it has any.
fn numbers_of(kind: &str) -> u8 {
    if OF_TEXT.contains(&kind) {
        0
    } else if OF_ONE_NUMBER.contains(&kind) {
        1
    } else if kind == "client" {
        2
    } else {
        3
    }
}

/// Returns the number at the front of `text`, and what follows it; 0 and the whole text unless `is_there`.
fn number_if<'s>(out: &mut LineAnswer, is_there: bool, text: &'s str) -> (u64, &'s str) {
    if is_there {
        number_at(out, text)
    } else {
        (0, text)
    }
}

/// Appends `part` to `bytes`, `count` times.
fn put_times(out: &mut LineAnswer, bytes: &mut Vec<u8>, part: &[u8], count: &str) {
    for _ in 0..number_of(out, count) {
        out.value_of(bytes.extend_from_slice(part), Unanswered::Memory);
    }
}
