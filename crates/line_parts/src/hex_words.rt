//! Decodes bytes that a line writes in hex.

use crate::answers::{LineAnswer, Unanswered};
use crate::words::number_of;

/// Appends the bytes of one word, as often as the count after its `*` says, or once if it has none.
fn put_word(out: &mut LineAnswer, bytes: &mut Vec<u8>, word: &str) {
    let (digits, count) = word.split_once('*').unwrap_or((word, "1"));
    let count = number_of(out, count);
    let part = hex::decode(out.alloc(), digits.as_bytes());
    if let Some(part) = out.value_of(part, Unanswered::Form) {
        for _ in 0..count {
            out.value_of(bytes.extend_from_slice(&part), Unanswered::Memory);
        }
    }
}

/// Decodes words of hex digits into bytes. A word `HEX*COUNT` is decoded to its bytes COUNT times. Fails with
/// [`Unanswered::Form`] if a word is of neither form.
pub fn bytes_of(out: &mut LineAnswer, text: &str) -> Vec<u8> {
    let mut bytes = Vec::new(out.alloc());
    for word in text.split(' ') {
        put_word(out, &mut bytes, word);
    }
    bytes
}
