//! Lines about certificates files.

use crate::{LineAnswer, Unanswered, put_read, text_of_kind};
use certificate::Certificate;

/// Appends the file of `certificates`.
pub fn put_file_of(out: &mut LineAnswer, certificates: &[Certificate]) {
    match Certificate::write(out.alloc(), certificates) {
        Ok(written) => out.put_bytes(written.as_slice()),
        Err(_) => out.fail(Unanswered::File),
    }
}

/// Writes `certificates` again, and appends `the same` if that is the text of the file, or otherwise what is written.
fn put_again(out: &mut LineAnswer, certificates: &[Certificate], file: &[u8]) {
    match Certificate::write(out.alloc(), certificates) {
        Ok(written) if written.as_slice() == file => out.put("the same"),
        Ok(written) => out.put_bytes(written.as_slice()),
        Err(_) => out.fail(Unanswered::File),
    }
}

/// Answers a line about a certificates file: whether it is read, or whether its certificates are written as the same text.
pub fn answer(out: &mut LineAnswer, rt: &HostRuntime, kind: &str, asked: &str) {
    let file = text_of_kind(out, rt, kind, asked);
    let read = Certificate::read(out.alloc(), file.as_slice());
    if kind != "rewritten" {
        return put_read(out, read.map(|found| found.len()));
    }
    if let Some(found) = out.value_of(read, Unanswered::File) {
        put_again(out, found.as_slice(), file.trim_ascii());
    }
}
