//! Splits a line into words and numbers. Start with [`words_of`].

use crate::answers::{LineAnswer, Unanswered};

/// Parses a number. Fails with [`Unanswered::Form`] if `word` is none.
pub fn number_of(out: &mut LineAnswer, word: &str) -> u32 {
    out.value_of(word.parse::<u32>(), Unanswered::Form)
        .unwrap_or(0)
}

/// Splits `text` at its first space. Fails with [`Unanswered::Form`] if it has none.
pub fn cut<'a>(out: &mut LineAnswer, text: &'a str) -> (&'a str, &'a str) {
    match text.split_once(' ') {
        Some(parts) => parts,
        None => {
            out.fail(Unanswered::Form);
            ("", "")
        }
    }
}

/// Returns the first word and what follows it. A word in quotes may be empty or contain spaces.
fn first_word(text: &str) -> Option<(&str, &str)> {
    match text.strip_prefix('"') {
        Some(quoted) => quoted.split_once('"'),
        None => Some(text.split_once(' ').unwrap_or((text, ""))),
    }
}

/// Appends the first word of `text`, if it has one, to `words`, and returns what follows it.
fn take_word<'a>(out: &mut LineAnswer, words: &mut Vec<&'a str>, text: &'a str) -> &'a str {
    if text.is_empty() {
        return text;
    }
    let Some((word, after)) = first_word(text) else {
        out.fail(Unanswered::Form);
        return "";
    };
    out.push(words, word);
    after
}

/// Splits `text` at spaces into words. Fails with [`Unanswered::Form`] if a quote is not closed.
pub fn words_of<'a>(out: &mut LineAnswer, text: &'a str) -> Vec<&'a str> {
    let mut words = Vec::new(out.alloc());
    let mut rest = text;
    for _ in 0..text.len() {
        rest = take_word(out, &mut words, rest.trim_start());
    }
    words
}
