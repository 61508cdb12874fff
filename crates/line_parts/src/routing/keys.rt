//! Lines about topic patterns and keys.

use crate::{LineAnswer, Unanswered, number_of, words_of};
use std::alloc::{AllocError, Global};
use topic_match::{BadPattern, Matcher, Pattern, Plain, Trie, covers_key, split};

/// Appends whether `text` is a pattern.
fn put_pattern(out: &mut LineAnswer, text: &str) {
    match Pattern::read(out.alloc(), text.as_bytes()) {
        Ok(_) => out.put("read"),
        Err(BadPattern::Malformed) => out.put("refused"),
        Err(BadPattern::Memory) => out.fail(Unanswered::Memory),
    }
}

/// Appends whether `key` matches `pattern`.
fn put_matched(out: &mut LineAnswer, pattern: &str, key: &str) {
    match covers_key(out.alloc(), pattern.as_bytes(), key.as_bytes()) {
        Ok(yes) => out.put_yes_or_no(yes),
        Err(_) => out.fail(Unanswered::Memory),
    }
}

/// Appends the words of `key`, each in quotes.
fn put_words(out: &mut LineAnswer, key: &str) {
    let Ok(words) = split(out.alloc(), key.as_bytes()) else {
        return out.fail(Unanswered::Memory);
    };
    for word in words {
        out.put_space();
        out.put_quoted(&word);
    }
    out.put_none_if_empty();
}

/// Appends the pattern of `text` to `patterns`. Fails with [`Unanswered::Form`] if it is none.
fn push_pattern(out: &mut LineAnswer, patterns: &mut Vec<Pattern>, text: &str) {
    let read = Pattern::read(out.alloc(), text.as_bytes());
    if let Some(pattern) = out.value_of(read, Unanswered::Form) {
        out.push(patterns, pattern);
    }
}

/// Parses `texts` as patterns.
fn patterns_of(out: &mut LineAnswer, texts: &[&str]) -> Vec<Pattern> {
    let mut patterns = Vec::new(out.alloc());
    for text in texts {
        push_pattern(out, &mut patterns, text);
    }
    patterns
}

/// Appends indices.
fn put_places(out: &mut LineAnswer, places: &[usize]) {
    for place in places {
        out.put_space();
        out.put_number(*place as u64);
    }
    out.put_none_if_empty();
}

/// Returns the indices of the patterns that match `key`, as a matcher finds them.
fn found_by<M: Matcher + Drop>(
    alloc: Global,
    patterns: Vec<Pattern>,
    key: &str,
) -> Result<Vec<usize>, AllocError> {
    let matcher = M::new(alloc, patterns)?;
    matcher.matches(alloc, key.as_bytes())
}

/// Appends the indices that comparing one by one finds, and those that a trie finds unless they are the same.
fn put_both(out: &mut LineAnswer, plain: &[usize], trie: &[usize]) {
    put_places(out, plain);
    if plain != trie {
        out.put(", by a trie");
        put_places(out, trie);
    }
}

/// Appends the indices of the `texts` that match `key` as patterns.
fn put_places_of(out: &mut LineAnswer, key: &str, texts: &[&str]) {
    let patterns = patterns_of(out, texts);
    let plain = found_by::<Plain>(out.alloc(), patterns, key);
    let patterns = patterns_of(out, texts);
    let trie = found_by::<Trie>(out.alloc(), patterns, key);
    match (plain, trie) {
        (Ok(plain), Ok(trie)) => put_both(out, plain.as_slice(), trie.as_slice()),
        _ => out.fail(Unanswered::Memory),
    }
}

/// Appends the indices of the patterns that match `key`, and the count that [`Trie::matches_counted`] returns. Returns `None` if an allocation fails.
fn put_counted(out: &mut LineAnswer, patterns: Vec<Pattern>, key: &str) -> Option<()> {
    let alloc = out.alloc();
    let trie = out.value_of(Trie::new(alloc, patterns), Unanswered::Memory)?;
    let counted = trie.matches_counted(alloc, key.as_bytes());
    let (places, count) = out.value_of(counted, Unanswered::Memory)?;
    put_places(out, places.as_slice());
    let count = out.value_of(format!(in alloc; " count {count}"), Unanswered::Memory)?;
    out.put(count.as_str());
    Some(())
}

/// Appends the pattern of `text` with `number` in place of its `%`. Fails with [`Unanswered::Form`] if it has none.
fn push_numbered(out: &mut LineAnswer, patterns: &mut Vec<Pattern>, text: &str, number: u32) {
    let Some((before, after)) = text.split_once('%') else {
        return out.fail(Unanswered::Form);
    };
    match format!(in out.alloc(); "{before}{number}{after}") {
        Ok(pattern) => push_pattern(out, patterns, pattern.as_str()),
        Err(_) => out.fail(Unanswered::Memory),
    }
}

/// Returns the patterns of `text` with each number in `from..to` in place of its `%`.
fn numbered(out: &mut LineAnswer, from: &str, to: &str, text: &str) -> Vec<Pattern> {
    let from = number_of(out, from);
    let to = number_of(out, to);
    let mut patterns = Vec::new(out.alloc());
    for number in from..to {
        push_numbered(out, &mut patterns, text, number);
    }
    patterns
}

/// Answers a line about patterns, given as words.
fn answer_of_words(out: &mut LineAnswer, kind: &str, words: &[&str]) {
    match words {
        [text] if kind == "pattern" => put_pattern(out, text),
        [pattern, key] if kind == "match" => put_matched(out, pattern, key),
        [key] if kind == "words" => put_words(out, key),
        [key, texts @ ..] if kind == "places" => put_places_of(out, key, texts),
        [key, texts @ ..] if kind == "counted" => {
            let patterns = patterns_of(out, texts);
            put_counted(out, patterns, key);
        }
        [key, from, to, text] if kind == "numbered" => {
            let patterns = numbered(out, from, to, text);
            put_counted(out, patterns, key);
        }
        _ => out.fail(Unanswered::Form),
    }
}

/// Answers a line about patterns.
pub fn answer(out: &mut LineAnswer, kind: &str, asked: &str) {
    let words = words_of(out, asked);
    answer_of_words(out, kind, words.as_slice());
}
