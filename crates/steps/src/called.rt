//! The callers that the pages for embedders quote, and the run of a list of arrivals.

use crate::setups::Disk;
use crate::worlds::Step;
use callers::{ask_route, serve_client};
use engine::{Setup, run};
use line_parts::{LineAnswer, Unanswered, cut};
use model::{Arrival, Binding, DeclaredQueue, Destination, Exchange, ExchangeKind, Text};
use runs::Transcript;

/// Returns a queue called `name`, without length limits and without a dead-letter exchange.
fn plain_queue(name: Text) -> DeclaredQueue {
    DeclaredQueue {
        name,
        limit: None,
        byte_limit: None,
        dead_letter_exchange: None,
        dead_letter_key: None,
    }
}

/// Returns a direct exchange called `name`, without an alternate exchange.
fn direct_exchange(name: Text) -> Exchange {
    Exchange {
        name,
        kind: ExchangeKind::Direct,
        internal: false,
        alternate: None,
    }
}

/// Returns the binding of the exchange `D` to the queue `b` by the key `new`.
fn key_to_b() -> Binding {
    Binding {
        source: Text::short(b"D"),
        to: Destination::Queue(Text::short(b"b")),
        key: Text::short(b"new"),
    }
}

/// Appends the indices of the queues that `EXCHANGE KEY` reaches: there are the queues `a` and `b`, and an exchange `D` that routes `new` to `b`.
pub(crate) fn put_route(out: &mut LineAnswer, asked: &str) {
    let alloc = out.alloc();
    let (exchange, key) = cut(out, asked);
    let mut exchanges = Vec::new(alloc);
    let mut queues = Vec::new(alloc);
    let mut bindings = Vec::new(alloc);
    out.push(&mut exchanges, direct_exchange(Text::short(b"D")));
    out.push(&mut queues, plain_queue(Text::short(b"a")));
    out.push(&mut queues, plain_queue(Text::short(b"b")));
    out.push(&mut bindings, key_to_b());
    let asked = ask_route(
        alloc,
        exchanges,
        queues,
        bindings,
        exchange.as_bytes(),
        key.as_bytes(),
    );
    if let Some(targets) = out.value_of(asked, Unanswered::File) {
        put_targets(out, targets.as_slice());
    }
}

/// Appends the indices of queues.
fn put_targets(out: &mut LineAnswer, targets: &[usize]) {
    for target in targets {
        out.put_space();
        out.put_number(*target as u64);
    }
}

/// Serves a client that sends the bytes of `step`, over an engine of the definitions file `file`, and appends what it takes.
pub(crate) fn put_served(out: &mut LineAnswer, disk: Disk<'_>, file: &str, step: &Step<'_>) {
    let Some(engine) = disk.engine(out, file) else {
        return;
    };
    let input = step.copied_bytes(out);
    match serve_client(out.alloc(), engine, input, step.first) {
        Ok(Some(taken)) => out.put_hex(taken.as_slice()),
        _ => out.fail(Unanswered::Memory),
    }
}

/// Returns arrivals that begin nothing: connection `c`, which is not opened, sends `bytes`, takes some, and is lost behind a delivery.
fn arrivals(out: &mut LineAnswer, c: u64, bytes: &[u8]) -> Vec<Arrival<Setup>> {
    let mut arrivals = Vec::new(out.alloc());
    if let Some(bytes) = out.value_of(Text::from_slice(out.alloc(), bytes), Unanswered::Memory) {
        out.push(&mut arrivals, Arrival::In(c, bytes));
    }
    out.push(&mut arrivals, Arrival::Sent(c, 5));
    out.push(&mut arrivals, Arrival::Pump);
    out.push(&mut arrivals, Arrival::Lose(c));
    arrivals
}

/// Appends the numbers of connections and of notes of a run.
fn put_counts(out: &mut LineAnswer, shown: &Transcript) {
    out.put_number(shown.connections().len() as u64);
    out.put(" ");
    out.put_number(shown.notes().len() as u64);
}

/// Runs arrivals that begin nothing over the definitions file `file`, and appends what the transcript has.
pub(crate) fn put_run(out: &mut LineAnswer, disk: Disk<'_>, file: &str, step: &Step<'_>) {
    let Some(setup) = disk.plain_setup(out, file) else {
        return;
    };
    let (checked, users) = setup.into_parts();
    let arrivals = arrivals(out, step.first, step.bytes.as_slice());
    let shown = run(out.alloc(), &checked, users.as_slice(), arrivals.as_slice());
    if let Some(shown) = out.value_of(shown, Unanswered::Memory) {
        put_counts(out, &shown);
    }
}
