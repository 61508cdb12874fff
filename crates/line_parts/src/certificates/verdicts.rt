//! Lines about the certificates, the search and the refutations of one guarantee, which the line states.

use super::faults::put_fault;
use super::rewriting::put_file_of;
use crate::{LineAnswer, Unanswered, named_and_edits, sources_of, words_of};
use certificate::{Certificate, Refutation, check, disprove};
use definitions::read_definitions;
use exchange_graph::Topology;
use guarantee_search::{UndecidedCause, Verdict, search};
use guarantees::Guarantee;
use model::{Mode, Text};

/// Parses a mode.
fn mode_of(out: &mut LineAnswer, mode: &str) -> Mode {
    match mode {
        "reaches" => Mode::Reaches,
        "never" => Mode::Never,
        _ => {
            out.fail(Unanswered::Form);
            Mode::Never
        }
    }
}

/// Copies a word.
fn text_of(out: &mut LineAnswer, word: &str) -> Text {
    let text = Text::from_slice(out.alloc(), word.as_bytes());
    out.value_of(text, Unanswered::Memory)
        .unwrap_or(Text::empty())
}

/// Appends the outcome of checking the only certificate of a file.
fn put_checked(out: &mut LineAnswer, topology: &Topology, guarantee: &Guarantee, file: &str) {
    let read = Certificate::read(out.alloc(), file.as_bytes());
    let Some(found) = out.value_of(read, Unanswered::File) else {
        return;
    };
    let [certificate] = found.as_slice() else {
        return out.fail(Unanswered::File);
    };
    match check(out.alloc(), topology, guarantee, certificate) {
        Ok(()) => out.put("ok"),
        Err(fault) => put_fault(out, &fault),
    }
}

/// Appends that a certificate was found, and whether a check accepts it.
fn put_yes(out: &mut LineAnswer, topology: &Topology, guarantee: &Guarantee, found: &Certificate) {
    if check(out.alloc(), topology, guarantee, found).is_ok() {
        out.put("yes states ");
        out.put_number(found.states().len() as u64);
    } else {
        out.put("yes, which is not accepted");
    }
}

/// Appends the names of a path, unless it is empty.
fn put_path(out: &mut LineAnswer, path: &[Text]) {
    if path.is_empty() {
        return;
    }
    out.put(" path");
    for name in path {
        out.put(" ");
        out.put_quoted(name);
    }
}

/// Appends the key and the path that were found, if they disprove the guarantee.
fn put_no(out: &mut LineAnswer, topology: &Topology, guarantee: &Guarantee, found: &Refutation) {
    if disprove(out.alloc(), topology, guarantee, found) {
        out.put("no key ");
        out.put_quoted(found.key());
        put_path(out, found.path());
    } else {
        out.put("no, which is not shown");
    }
}

/// Appends why a search did not decide.
fn put_cause(out: &mut LineAnswer, cause: UndecidedCause) {
    out.put(match cause {
        UndecidedCause::TooManyStates => "undecided states",
        UndecidedCause::KeyTooLong => "undecided key",
    });
}

/// Appends the verdict of a search.
fn put_searched(out: &mut LineAnswer, topology: &Topology, guarantee: &Guarantee) {
    match search(out.alloc(), topology, guarantee) {
        Ok(Verdict::Yes(found)) => put_yes(out, topology, guarantee, &found),
        Ok(Verdict::No(found)) => put_no(out, topology, guarantee, &found),
        Ok(Verdict::Undecided(cause)) => put_cause(out, cause),
        Err(_) => out.fail(Unanswered::Memory),
    }
}

/// Appends the file of the certificate that a search finds, or `none`.
fn put_found(out: &mut LineAnswer, topology: &Topology, guarantee: &Guarantee) {
    match search(out.alloc(), topology, guarantee) {
        Ok(Verdict::Yes(found)) => put_file_of(out, &[found]),
        Ok(_) => out.put("none"),
        Err(_) => out.fail(Unanswered::Memory),
    }
}

/// Returns a path with the names `names`.
fn path_of(out: &mut LineAnswer, names: &[&str]) -> Vec<Text> {
    let mut path = Vec::new(out.alloc());
    for name in names {
        let name = text_of(out, name);
        out.push(&mut path, name);
    }
    path
}

/// Appends whether `key`, with a path of the given names, disproves the guarantee.
fn put_disproved(
    out: &mut LineAnswer,
    topology: &Topology,
    guarantee: &Guarantee,
    key: &str,
    names: &[&str],
) {
    let path = path_of(out, names);
    let refutation = Refutation::new(text_of(out, key), path);
    out.put_yes_or_no(disprove(out.alloc(), topology, guarantee, &refutation));
}

/// Answers a line about `guarantee`, by the words after it, and by a certificates file if one is named.
fn answer_of_guarantee(
    out: &mut LineAnswer,
    kind: &str,
    topology: &Topology,
    guarantee: &Guarantee,
    files: &[String],
    words: &[&str],
) {
    match (words, files) {
        ([], [_]) if kind == "search" => put_searched(out, topology, guarantee),
        ([], [_]) if kind == "certificate" => put_found(out, topology, guarantee),
        ([], [_, file]) if kind == "check" => {
            put_checked(out, topology, guarantee, file.as_str());
        }
        ([key, names @ ..], [_]) if kind == "disprove" => {
            put_disproved(out, topology, guarantee, key, names);
        }
        _ => out.fail(Unanswered::Form),
    }
}

/// Returns the `except` patterns, which are the words that begin with a dash, without it, and the other words.
fn excepts_and_others<'a>(out: &mut LineAnswer, words: &[&'a str]) -> (Vec<Text>, Vec<&'a str>) {
    let mut excepts = Vec::new(out.alloc());
    let mut others = Vec::new(out.alloc());
    for word in words {
        match word.strip_prefix('-') {
            Some(pattern) => {
                let pattern = text_of(out, pattern);
                out.push(&mut excepts, pattern);
            }
            None => out.push(&mut others, *word),
        }
    }
    (excepts, others)
}

/// Answers a line over a topology. Its first words are a guarantee, `MODE EXCHANGE PATTERN QUEUE`, and `-PATTERN` for each of its
/// `except` patterns.
fn answer_over(
    out: &mut LineAnswer,
    kind: &str,
    topology: &Topology,
    files: &[String],
    words: &[&str],
) {
    let [mode, exchange, pattern, queue, rest @ ..] = words else {
        return out.fail(Unanswered::Form);
    };
    let mode = mode_of(out, mode);
    let exchange = text_of(out, exchange);
    let pattern = text_of(out, pattern);
    let queue = text_of(out, queue);
    let (excepts, others) = excepts_and_others(out, rest);
    match Guarantee::new(mode, exchange, pattern, queue, excepts) {
        Some(guarantee) => {
            answer_of_guarantee(out, kind, topology, &guarantee, files, others.as_slice());
        }
        None => out.fail(Unanswered::Form),
    }
}

/// Answers a line about one guarantee, which names a definitions file, and for a check a certificates file.
pub fn answer(out: &mut LineAnswer, rt: &HostRuntime, kind: &str, asked: &str) {
    let (named, edits) = named_and_edits(asked);
    let words = words_of(out, named);
    let count = if kind == "check" { 2 } else { 1 };
    let Some((names, rest)) = words.as_slice().split_at_checked(count) else {
        return out.fail(Unanswered::Form);
    };
    let files = sources_of(out, rt, names, edits);
    let Some(definitions) = files.first() else {
        return out.fail(Unanswered::File);
    };
    let read = read_definitions(out.alloc(), definitions.as_bytes());
    if let Some(read) = out.value_of(read, Unanswered::File) {
        answer_over(out, kind, read.topology(), files.as_slice(), rest);
    }
}
