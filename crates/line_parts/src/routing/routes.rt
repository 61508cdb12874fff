//! Lines about the routes of a key.

use crate::{LineAnswer, Unanswered};
use exchange_graph::Topology;
use model::Text;
use std::alloc::{AllocError, Global};

/// Appends the names of the queues at the indices `places`, or `none`.
fn put_queues(out: &mut LineAnswer, topology: &Topology, places: &[usize]) {
    for place in places {
        match topology.queues().get(*place) {
            Some(queue) => out.put_name(&queue.name),
            None => out.fail(Unanswered::File),
        }
    }
    out.put_none_if_empty();
}

/// Appends a word, in quotes if it is empty.
fn put_word(out: &mut LineAnswer, word: &[u8]) {
    if word.is_empty() {
        out.put("\"\"");
    } else {
        out.put_bytes(word);
    }
}

/// Appends `names`, or `none`.
fn put_names(out: &mut LineAnswer, names: &[Text]) {
    for name in names {
        out.put_space();
        put_word(out, name.as_bytes());
    }
    out.put_none_if_empty();
}

/// Appends the queues to which `key` leads from `exchange`, or `none`.
pub fn put_route(out: &mut LineAnswer, topology: &Topology, exchange: &str, key: &str) {
    match topology.route(out.alloc(), exchange.as_bytes(), key.as_bytes()) {
        Ok(places) => put_queues(out, topology, places.as_slice()),
        Err(_) => out.fail(Unanswered::Memory),
    }
}

/// Appends the exchanges that `key` passes from `exchange` on, or `none`.
pub fn put_visited(out: &mut LineAnswer, topology: &Topology, exchange: &str, key: &str) {
    match topology.visited(out.alloc(), exchange.as_bytes(), key.as_bytes()) {
        Ok(names) => put_names(out, names.as_slice()),
        Err(_) => out.fail(Unanswered::Memory),
    }
}

/// Appends the queues to which one dead-letter step leads from `queue`, and the key; or `none`.
pub fn put_dead_route(out: &mut LineAnswer, topology: &Topology, queue: &str, key: &str) {
    match topology.dead_route(out.alloc(), queue.as_bytes(), key.as_bytes()) {
        Ok(Some(route)) => {
            put_queues(out, topology, route.queues.as_slice());
            out.put(" under ");
            put_word(out, route.key);
        }
        Ok(None) => out.put("none"),
        Err(_) => out.fail(Unanswered::Memory),
    }
}
