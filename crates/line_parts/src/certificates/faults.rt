//! The faults of certificates, in words.

use crate::{LineAnswer, Unanswered};
use certificate::CertFault;
use model::Text;

/// Appends a letter: a word in quotes, or `other`.
fn put_letter(out: &mut LineAnswer, named: &Option<Text>) {
    match named {
        Some(text) => out.put_quoted(text),
        None => out.put("other"),
    }
}

/// Appends fault 2: the state, and the letter that leads out of it.
fn put_open(out: &mut LineAnswer, state: usize, named: &Option<Text>) {
    out.put("fault 2 state ");
    out.put_number(state as u64);
    out.put(" letter ");
    put_letter(out, named);
}

/// Appends the text of a fault, and the state that breaks the promise.
fn put_broken(out: &mut LineAnswer, fault: &str, state: usize) {
    out.put(fault);
    out.put_number(state as u64);
}

/// Appends a fault in words.
pub fn put_fault(out: &mut LineAnswer, fault: &CertFault) {
    match fault {
        CertFault::Start => out.put("fault 1"),
        CertFault::Open { state, word } => put_open(out, *state, word),
        CertFault::Missed { state } => put_broken(out, "fault 3 state ", *state),
        CertFault::Forbidden { state } => put_broken(out, "fault 4 state ", *state),
        CertFault::Form => out.put("fault 5"),
        CertFault::Memory => out.fail(Unanswered::Memory),
    }
}
