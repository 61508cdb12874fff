//! Lines about guarantees files over a topology.

use crate::{LineAnswer, Unanswered, file_of, number_of, put_read, text_of_kind, words_of};
use definitions::read_definitions;
use exchange_graph::Topology;
use guarantees::{Guarantee, read_guarantees};
use model::Mode;

/// Appends the parts of a guarantee.
fn put_parts(out: &mut LineAnswer, guarantee: &Guarantee) {
    out.put(match guarantee.mode() {
        Mode::Reaches => "reaches",
        Mode::Never => "never",
    });
    out.put_name(guarantee.exchange());
    out.put_name(guarantee.pattern());
    out.put_name(guarantee.queue());
}

/// Appends whether `guarantee` covers a message published to `exchange` under `key`.
fn put_covered(out: &mut LineAnswer, guarantee: &Guarantee, exchange: &str, key: &str) {
    match guarantee.covers(out.alloc(), exchange.as_bytes(), key.as_bytes()) {
        Ok(yes) => out.put_yes_or_no(yes),
        Err(_) => out.fail(Unanswered::Memory),
    }
}

/// Answers a line about `guarantee`.
fn answer_of_words(out: &mut LineAnswer, kind: &str, guarantee: &Guarantee, words: &[&str]) {
    match words {
        [] if kind == "guarantee" => put_parts(out, guarantee),
        [exchange, key] if kind == "covers" => put_covered(out, guarantee, exchange, key),
        _ => out.fail(Unanswered::Form),
    }
}

/// Answers a line about the guarantee at the index that the first word gives.
fn answer_at(out: &mut LineAnswer, kind: &str, guarantees: &[Guarantee], words: &[&str]) {
    let Some((place, rest)) = words.split_first() else {
        return out.fail(Unanswered::Form);
    };
    let place = number_of(out, place);
    match guarantees.get(place as usize) {
        Some(guarantee) => answer_of_words(out, kind, guarantee, rest),
        None => out.fail(Unanswered::Form),
    }
}

/// Answers a line about guarantees over a topology: whether a file is read, or what one of its guarantees says.
fn answer_over(
    out: &mut LineAnswer,
    rt: &HostRuntime,
    kind: &str,
    topology: &Topology,
    asked: &str,
) {
    if kind.starts_with("guarantees") {
        let file = text_of_kind(out, rt, kind, asked);
        let read = read_guarantees(out.alloc(), file.as_slice(), topology);
        return put_read(out, read.map(|read| read.len()));
    }
    let (name, rest) = asked.split_once(' ').unwrap_or((asked, ""));
    let file = file_of(out, rt, name);
    let words = words_of(out, rest);
    let read = read_guarantees(out.alloc(), file.as_bytes(), topology);
    if let Some(read) = out.value_of(read, Unanswered::File) {
        answer_at(out, kind, read.as_slice(), words.as_slice());
    }
}

/// Answers a line about guarantees, which names a definitions file first.
pub fn answer(out: &mut LineAnswer, rt: &HostRuntime, kind: &str, asked: &str) {
    let (name, rest) = asked.split_once(' ').unwrap_or((asked, ""));
    let file = file_of(out, rt, name);
    let read = read_definitions(out.alloc(), file.as_bytes());
    if let Some(read) = out.value_of(read, Unanswered::File) {
        answer_over(out, rt, kind, read.topology(), rest);
    }
}
