//! Answers the lines about routing: patterns and keys, definitions and their topologies, guarantees and what they cover.
//!
//! | kinds | subject |
//! |---|---|
//! | `pattern`, `match`, `places`, `counted`, `numbered`, `words` | `topic_match`: patterns, and which keys they match, by both matchers |
//! | `definitions`, `definitions-hex` | `definitions`: whether a file is read, or why it is refused |
//! | `counts`, `queue`, `exchange`, `user` | `definitions`: what a file defines |
//! | `route`, `visited`, `dead-route` | `exchange_graph`: the queues that a key reaches; the exchanges that it passes; one dead-letter step |
//! | `guarantees`, `guarantees-hex`, `guarantee`, `covers` | `guarantees`: whether a file is read, or why not; what a guarantee says and covers |

mod guarantee_files;
mod keys;
mod routes;
mod stated;

use crate::LineAnswer;
pub use routes::put_route;

/// The kinds of lines about patterns.
const OF_PATTERNS: [&str; 6] = ["pattern", "match", "places", "counted", "numbered", "words"];

/// The kinds of lines about guarantees files.
const OF_GUARANTEES: [&str; 4] = ["guarantees", "guarantees-hex", "guarantee", "covers"];

/// The kinds of lines about definitions files.
const OF_DEFINITIONS: [&str; 9] = [
    "definitions",
    "definitions-hex",
    "counts",
    "queue",
    "exchange",
    "user",
    "route",
    "visited",
    "dead-route",
];

/// Answers a line about routing. Returns `false` if `kind` is no kind of such a line.
pub fn answer(out: &mut LineAnswer, rt: &HostRuntime, kind: &str, asked: &str) -> bool {
    if OF_PATTERNS.contains(&kind) {
        keys::answer(out, kind, asked);
    } else if OF_DEFINITIONS.contains(&kind) {
        stated::answer(out, rt, kind, asked);
    } else if OF_GUARANTEES.contains(&kind) {
        guarantee_files::answer(out, rt, kind, asked);
    } else {
        return false;
    }
    true
}
