//! Calls one after another, of either implementation of a queue.

use crate::stores::calls::put_call;
use crate::{LineAnswer, number_of, words_of};
use queue::{Indexed, Listed, Store};

/// Parses the numbers of a call, separated by colons.
fn numbers_of(out: &mut LineAnswer, words: &str) -> Vec<u32> {
    let mut numbers = Vec::new(out.alloc());
    for word in words.split(':') {
        let number = number_of(out, word);
        out.push(&mut numbers, number);
    }
    numbers
}

/// Makes the call that `word` writes, a name with numbers, and appends its result.
fn put_word<S: Store>(out: &mut LineAnswer, store: &mut S, word: &str) {
    match word.split_once(':') {
        Some((name, words)) => {
            let numbers = numbers_of(out, words);
            put_call(out, store, name, numbers.as_slice());
        }
        None => put_call(out, store, word, &[]),
    }
}

/// Returns the results of the calls that `words` write, made of a queue that is empty at first.
fn answers_of<S: Store>(out: &mut LineAnswer, words: &[&str]) -> String {
    let mut answers = LineAnswer::new(out.alloc());
    let mut store = S::new(out.alloc());
    for word in words {
        put_word(&mut answers, &mut store, word);
    }
    answers.into_part_of(out)
}

/// Appends the results of the queue over a list, and those of the queue with indexes unless they are the same.
pub(crate) fn answer(out: &mut LineAnswer, asked: &str) {
    let words = words_of(out, asked);
    let listed = answers_of::<Listed>(out, words.as_slice());
    let indexed = answers_of::<Indexed>(out, words.as_slice());
    out.put(listed.as_str());
    if listed.as_str() != indexed.as_str() {
        out.put(", with indexes ");
        out.put(indexed.as_str());
    }
}
