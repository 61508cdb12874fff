//! The answer to a line: a text that is written piece by piece, or why there is none. Start with [`LineAnswer`].

ghost use Rattle.std.specs.Prelude.{◌≡◌, [], length, codes, decimal, MatchResult, Some, None, string_bytes, if◌then◌else◌};
ghost use Rattle.hex.specs.Hex.{encode_lower};
ghost use Rattle.line_parts.specs.Answers.{PutsPiece, failed};

use model::Text;
use std::alloc::Global;
use std::marker::Model;

/// Why a line has no answer. Such a line is reported as different, whatever it expects.
#[derive(Clone, Copy, Drop)]
pub enum Unanswered {
    /// The line is of no known kind, or is malformed.
    Form,
    /// A file that the line names doesn't exist, or has the wrong content.
    File,
    /// An allocation failed.
    Memory,
}

/// An answer that is written piece by piece, or the first reason why there is none.
///
/// Once there is a reason nothing more is appended. So a `put` call needs no result, and a part that could not be made is empty.
#[derive(Drop)]
pub struct LineAnswer {
    alloc: Global,
    text: String,
    lack: Option<Unanswered>,
}

impl Model for LineAnswer {
    ghost use Rattle.std.specs.Prelude.{string_bytes};
    ghost use Rattle.line_parts.specs.Answers.{Answering};

    ghost Value = { Answering };

    ghost view = { λ a. record { text = string_bytes a.text; lack = a.lack } };
}

impl LineAnswer {
    /// Returns an empty answer.
    pub fn new(alloc: Global) -> LineAnswer
        ensures { result ≡ record { text = []; lack = None } }
    {
        LineAnswer {
            alloc,
            text: String::new(alloc),
            lack: None,
        }
    }

    pub fn alloc(&self) -> Global {
        self.alloc
    }

    /// Records that there is no answer, and `why`, unless a reason is recorded already.
    pub fn fail(&mut self, why: Unanswered)
        ensures { self.new ≡ failed why self.old }
    {
        if self.lack.is_none() {
            self.lack = Some(why);
        }
    }

    /// Returns the value of `outcome`, or records `why` there is no answer.
    pub fn value_of<T, E: Drop>(&mut self, outcome: Result<T, E>, why: Unanswered) -> Option<T>
        ensures value { MatchResult outcome (λ value. result ≡ Some value) (λ _. result ≡ None) }
        ensures lack { MatchResult outcome (λ _. self.new ≡ self.old) (λ _. self.new ≡ failed why self.old) }
    {
        match outcome {
            Ok(value) => Some(value),
            Err(_) => {
                self.fail(why);
                None
            }
        }
    }

    /// Appends `item` to `list`, or records that an allocation failed.
    pub fn push<T: Drop>(&mut self, list: &mut Vec<T>, item: T) {
        if list.push(item).is_err() {
            self.fail(Unanswered::Memory);
        }
    }

    /// Returns the recorded reason, if there is no answer.
    pub fn lack(&self) -> Option<Unanswered>
        ensures { result ≡ self.now.lack }
    {
        self.lack
    }

    /// Returns the text appended so far.
    pub fn text(&self) -> &str
        ensures { result.now ≡ self.now.text }
    {
        self.text.as_str()
    }

    /// Returns the number of bytes appended so far.
    pub fn len(&self) -> usize
        ensures { result ≡ length self.now.text }
    {
        self.text.len()
    }

    /// Appends a text.
    pub fn put(&mut self, text: &str)
        ensures { PutsPiece text.now self.old self.new }
    {
        if self.lack.is_none() && self.text.push_str(text).is_err() {
            self.lack = Some(Unanswered::Memory);
        }
    }

    /// Appends a number in decimal.
    pub fn put_number(&mut self, number: u64)
        ensures { PutsPiece (decimal number) self.old self.new }
    {
        match format!(in self.alloc; "{number}") {
            Ok(digits) => self.put(digits.as_str()),
            Err(_) => self.fail(Unanswered::Memory),
        }
    }

    /// Appends bytes in lower-case hex.
    pub fn put_hex(&mut self, bytes: &[u8])
        ensures { PutsPiece (encode_lower bytes.now) self.old self.new }
    {
        match hex::encode(self.alloc, bytes) {
            Ok(digits) => self.put(digits.as_str()),
            Err(_) => self.fail(Unanswered::Memory),
        }
    }

    /// Appends bytes as UTF-8; each invalid sequence becomes U+FFFD.
    pub fn put_bytes(&mut self, bytes: &[u8]) {
        match String::from_utf8_lossy(self.alloc, bytes) {
            Ok(text) => self.put(text.as_str()),
            Err(_) => self.fail(Unanswered::Memory),
        }
    }

    /// Appends a text in quotes.
    pub fn put_quoted(&mut self, text: &Text) {
        self.put("\"");
        self.put_bytes(text.as_bytes());
        self.put("\"");
    }

    /// Appends a space, unless the answer is empty.
    pub fn put_space(&mut self) {
        if !self.text.is_empty() {
            self.put(" ");
        }
    }

    /// Appends a name, after a space unless the answer is empty.
    pub fn put_name(&mut self, name: &Text) {
        self.put_space();
        self.put_bytes(name.as_bytes());
    }

    /// Appends `yes` or `no`.
    pub fn put_yes_or_no(&mut self, is: bool)
        ensures { PutsPiece (if is then codes "yes" else codes "no") self.old self.new }
    {
        self.put(if is { "yes" } else { "no" });
    }

    /// Appends `none` if the answer is empty.
    pub fn put_none_if_empty(&mut self) {
        if self.text.is_empty() {
            self.put("none");
        }
    }

    /// Returns the text as a part of another answer. If this answer has a reason, `whole` gets it.
    pub fn into_part_of(self, whole: &mut LineAnswer) -> String
        ensures part { string_bytes result ≡ self.text }
        ensures lack { (why : Unanswered) → self.lack ≡ Some why → whole.new ≡ failed why whole.old }
        ensures whole { self.lack ≡ None → whole.new ≡ whole.old }
    {
        if let Some(why) = self.lack {
            whole.fail(why);
        }
        self.text
    }
}
