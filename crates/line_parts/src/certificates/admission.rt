//! Lines about guarantees that are admitted by their certificates.

use super::faults::put_fault;
use crate::routing::put_route;
use crate::{LineAnswer, Unanswered, named_and_edits, sources_of, words_of};
use certificate::{CertFault, Certificate, Checked, admit};
use definitions::read_definitions;
use guarantees::read_guarantees;

/// Appends the number of admitted guarantees, or the queues to which they route the key in `words`.
fn put_admitted(out: &mut LineAnswer, admitted: &Checked, words: &[&str]) {
    match words {
        [] => {
            out.put("admitted ");
            out.put_number(admitted.guarantees().len() as u64);
        }
        [exchange, key] => put_route(out, admitted.topology(), exchange, key),
        _ => out.fail(Unanswered::Form),
    }
}

/// Appends the fault, and the index of the first guarantee that is not admitted.
fn put_not_admitted(out: &mut LineAnswer, place: usize, fault: &CertFault) {
    put_fault(out, fault);
    out.put(" at ");
    out.put_number(place as u64);
}

/// Reads the three files, admits the guarantees by their certificates and answers the line. Returns `None` if a file is refused.
fn answer_of_files(out: &mut LineAnswer, files: &[String], words: &[&str]) -> Option<()> {
    let [definitions, guarantees, certificates] = files else {
        out.fail(Unanswered::Form);
        return None;
    };
    let alloc = out.alloc();
    let read = read_definitions(alloc, definitions.as_bytes());
    let (topology, _) = out.value_of(read, Unanswered::File)?.into_parts();
    let read = read_guarantees(alloc, guarantees.as_bytes(), &topology);
    let stated = out.value_of(read, Unanswered::File)?;
    let read = Certificate::read(alloc, certificates.as_bytes());
    let offered = out.value_of(read, Unanswered::File)?;
    match admit(alloc, topology, stated, offered.as_slice()) {
        Ok(admitted) => put_admitted(out, &admitted, words),
        Err((place, fault)) => put_not_admitted(out, place, &fault),
    }
    Some(())
}

/// Answers a line about admission, which names three files.
pub fn answer(out: &mut LineAnswer, rt: &HostRuntime, asked: &str) {
    let (named, edits) = named_and_edits(asked);
    let words = words_of(out, named);
    let Some((names, rest)) = words.as_slice().split_at_checked(3) else {
        return out.fail(Unanswered::Form);
    };
    let files = sources_of(out, rt, names, edits);
    answer_of_files(out, files.as_slice(), rest);
}
