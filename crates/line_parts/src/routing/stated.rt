//! Lines about definitions files, and about what they define.

use super::routes::{put_dead_route, put_route, put_visited};
use crate::{LineAnswer, Unanswered, file_of, number_of, put_refused, text_of_kind, words_of};
use definitions::{Definitions, read_definitions};
use exchange_graph::Topology;
use model::{DeclaredQueue, Exchange, ExchangeKind, Text, User};

/// Appends `read`, or why the file is refused.
fn put_outcome(out: &mut LineAnswer, bytes: &[u8]) {
    match read_definitions(out.alloc(), bytes) {
        Ok(_) => out.put("read"),
        Err(bad) => put_refused(out, bad),
    }
}

fn put_counts(out: &mut LineAnswer, topology: &Topology, users: &[User]) {
    out.put_number(topology.exchanges().len() as u64);
    out.put(" exchanges, ");
    out.put_number(topology.queues().len() as u64);
    out.put(" queues, ");
    out.put_number(topology.bindings().len() as u64);
    out.put(" bindings, ");
    out.put_number(users.len() as u64);
    out.put(" users");
}

/// Appends `label`, and `name` in quotes, if there is one.
fn put_labelled(out: &mut LineAnswer, label: &str, name: &Option<Text>) {
    if let Some(name) = name {
        out.put(label);
        out.put_quoted(name);
    }
}

/// Appends `label` and a queue's limit, if it has one.
fn put_limit(out: &mut LineAnswer, label: &str, limit: Option<u32>) {
    if let Some(limit) = limit {
        out.put(label);
        out.put_number(u64::from(limit));
    }
}

/// Appends a queue's index, name, limits and dead-lettering.
fn put_declared(out: &mut LineAnswer, place: usize, queue: &DeclaredQueue) {
    out.put_number(place as u64);
    out.put_name(&queue.name);
    put_limit(out, ", limit ", queue.limit);
    put_limit(out, ", bytes ", queue.byte_limit);
    put_labelled(out, ", dead letters to ", &queue.dead_letter_exchange);
    put_labelled(out, ", under ", &queue.dead_letter_key);
}

fn put_queue(out: &mut LineAnswer, topology: &Topology, name: &str) {
    match topology.queue_at(name.as_bytes()) {
        None => out.put("none"),
        Some(place) => put_declared(out, place, topology.queue(place)),
    }
}

fn kind_of(kind: ExchangeKind) -> &'static str {
    match kind {
        ExchangeKind::Direct => "direct",
        ExchangeKind::Fanout => "fanout",
        ExchangeKind::Topic => "topic",
    }
}

/// Appends an exchange's type and alternate exchange.
fn put_typed(out: &mut LineAnswer, exchange: &Exchange) {
    out.put(kind_of(exchange.kind));
    if exchange.internal {
        out.put(", internal");
    }
    put_labelled(out, ", else to ", &exchange.alternate);
}

fn put_exchange(out: &mut LineAnswer, topology: &Topology, name: &str) {
    match topology.exchange(name.as_bytes()) {
        None => out.put("none"),
        Some(exchange) => put_typed(out, exchange),
    }
}

/// Appends the name and the hash of the user at the index `place`.
fn put_user(out: &mut LineAnswer, users: &[User], place: &str) {
    let place = number_of(out, place);
    match users.get(place as usize) {
        Some(user) => {
            out.put_name(&user.name);
            out.put_space();
            out.put_hex(user.hash.as_bytes());
        }
        None => out.fail(Unanswered::Form),
    }
}

/// Answers a line about the definitions `read`, given as words.
fn answer_of_words(out: &mut LineAnswer, kind: &str, read: &Definitions, words: &[&str]) {
    let topology = read.topology();
    match words {
        [] if kind == "counts" => put_counts(out, topology, read.users()),
        [name] if kind == "queue" => put_queue(out, topology, name),
        [name] if kind == "exchange" => put_exchange(out, topology, name),
        [place] if kind == "user" => put_user(out, read.users(), place),
        [exchange, key] if kind == "route" => put_route(out, topology, exchange, key),
        [exchange, key] if kind == "visited" => put_visited(out, topology, exchange, key),
        [queue, key] if kind == "dead-route" => put_dead_route(out, topology, queue, key),
        _ => out.fail(Unanswered::Form),
    }
}

/// Answers a line about a definitions file: whether it is read, or what it defines.
pub fn answer(out: &mut LineAnswer, rt: &HostRuntime, kind: &str, asked: &str) {
    if kind.starts_with("definitions") {
        let file = text_of_kind(out, rt, kind, asked);
        return put_outcome(out, file.as_slice());
    }
    let (name, rest) = asked.split_once(' ').unwrap_or((asked, ""));
    let file = file_of(out, rt, name);
    let words = words_of(out, rest);
    let read = read_definitions(out.alloc(), file.as_bytes());
    if let Some(read) = out.value_of(read, Unanswered::File) {
        answer_of_words(out, kind, &read, words.as_slice());
    }
}
