//! Reads the files that lines name, and edits them. Start with [`source_of`].
//!
//! In such a file a line `repeat FROM TO TEXT` is replaced by TEXT, once for each number in `FROM..TO`, separated by commas, with
//! the number in place of TEXT's first `%`, if it has one.

use crate::answers::{LineAnswer, Unanswered};
use crate::hex_words::bytes_of;
use crate::words::{cut, number_of};
use definitions::FileCause;
use std::fs;

/// Appends `text`, with `number` in place of its first `%`, if it has one.
fn put_numbered(file: &mut LineAnswer, text: &str, number: u32) {
    match text.split_once('%') {
        Some((before, after)) => {
            file.put(before);
            file.put_number(u64::from(number));
            file.put(after);
        }
        None => file.put(text),
    }
}

/// Appends the expansion of `FROM TO TEXT`.
fn put_repeated(file: &mut LineAnswer, repeat: &str) {
    let (from, rest) = cut(file, repeat);
    let (to, text) = cut(file, rest);
    let from = number_of(file, from);
    for number in from..number_of(file, to) {
        if number > from {
            file.put(",");
        }
        put_numbered(file, text, number);
    }
}

/// Appends a line, expanded if it is a repeat.
fn put_line(file: &mut LineAnswer, line: &str) {
    match line.strip_prefix("repeat ") {
        Some(repeat) => put_repeated(file, repeat),
        None => file.put(line),
    }
    file.put("\n");
}

/// Returns `text` with its repeats expanded.
fn written_out(out: &mut LineAnswer, text: &str) -> String {
    let mut file = LineAnswer::new(out.alloc());
    for line in text.lines() {
        put_line(&mut file, line);
    }
    file.into_part_of(out)
}

/// Reads the file `name` and expands its repeats. Fails with [`Unanswered::File`] if it can't be read.
pub fn file_of(out: &mut LineAnswer, rt: &HostRuntime, name: &str) -> String {
    match fs::read_to_string(rt, name) {
        Ok(text) => written_out(out, text.as_str()),
        Err(_) => {
            out.fail(Unanswered::File);
            String::new(out.alloc())
        }
    }
}

/// Splits an edit into the text that it replaces, and the replacement.
fn old_and_new<'a>(out: &mut LineAnswer, edit: &'a str) -> (&'a str, &'a str) {
    match edit.split_once(" =>") {
        Some((old, new)) => (old, new.strip_prefix(' ').unwrap_or(new)),
        None => {
            out.fail(Unanswered::Form);
            ("", "")
        }
    }
}

/// Appends `text` with its first `old` replaced by `new`. Fails with [`Unanswered::File`] if there is none.
fn put_edited(file: &mut LineAnswer, text: &str, old: &str, new: &str) {
    match text.split_once(old) {
        Some((before, after)) => {
            file.put(before);
            file.put(new);
            file.put(after);
        }
        None => file.fail(Unanswered::File),
    }
}

/// Returns `text` with the edit `OLD => NEW`, which replaces the first OLD.
fn edited_once(out: &mut LineAnswer, text: &str, edit: &str) -> String {
    let (old, new) = old_and_new(out, edit);
    let mut file = LineAnswer::new(out.alloc());
    put_edited(&mut file, text, old, new);
    file.into_part_of(out)
}

/// Returns `text` with each of `edits` made, one after another.
fn edited(out: &mut LineAnswer, text: String, edits: &str) -> String {
    let mut text = text;
    for edit in edits.split(" | ") {
        text = edited_once(out, text.as_str(), edit);
    }
    text
}

/// Reads the file that `FILE | OLD => NEW | OLD => NEW` names, and edits it. Fails with [`Unanswered::File`] if it can't be read,
/// or doesn't contain an edit's OLD.
fn source_of(out: &mut LineAnswer, rt: &HostRuntime, asked: &str) -> String {
    match asked.split_once(" | ") {
        None => file_of(out, rt, asked),
        Some((name, edits)) => {
            let text = file_of(out, rt, name);
            edited(out, text, edits)
        }
    }
}

/// Edits the last of `texts` that contains the edit's OLD.
fn edit_last(out: &mut LineAnswer, texts: &mut [String], edit: &str) {
    let (old, _) = old_and_new(out, edit);
    for text in texts.iter_mut().rev() {
        if text.contains(old) {
            *text = edited_once(out, text.as_str(), edit);
            return;
        }
    }
    out.fail(Unanswered::File);
}

/// Returns the bytes that a line of kind `kind` is about: those that it writes in hex if the kind ends in `-hex`, otherwise those of its file.
pub fn text_of_kind(out: &mut LineAnswer, rt: &HostRuntime, kind: &str, asked: &str) -> Vec<u8> {
    if kind.ends_with("-hex") {
        bytes_of(out, asked)
    } else {
        source_of(out, rt, asked).into_bytes()
    }
}

/// Appends why a file is refused.
pub fn put_refused(out: &mut LineAnswer, cause: FileCause) {
    out.put("refused ");
    out.put_number(u64::from(cause.number()));
}

/// Appends the number of entries that were read of a file, or why it is refused.
pub fn put_read(out: &mut LineAnswer, read: Result<usize, FileCause>) {
    match read {
        Ok(entries) => {
            out.put("read ");
            out.put_number(entries as u64);
        }
        Err(cause) => put_refused(out, cause),
    }
}

/// Reads the files `names`. Each of the edits, if there are some, applies to the last file that contains its OLD.
pub fn sources_of(
    out: &mut LineAnswer,
    rt: &HostRuntime,
    names: &[&str],
    edits: Option<&str>,
) -> Vec<String> {
    let mut files = Vec::new(out.alloc());
    for name in names {
        let file = file_of(out, rt, name);
        out.push(&mut files, file);
    }
    if let Some(edits) = edits {
        for edit in edits.split(" | ") {
            edit_last(out, files.as_mut_slice(), edit);
        }
    }
    files
}

/// Splits a line into what it names, and its edits if it has some.
pub fn named_and_edits(asked: &str) -> (&str, Option<&str>) {
    match asked.split_once(" | ") {
        Some((named, edits)) => (named, Some(edits)),
        None => (asked, None),
    }
}
