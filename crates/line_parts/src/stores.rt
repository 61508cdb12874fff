//! Answers the lines about queues: makes the same calls of both implementations of a queue.
//!
//! | kind | subject |
//! |---|---|
//! | `store` | `queue`: calls one after another, of a queue over a list and of one with indexes |

mod calls;
mod entries;
mod runs;
mod tags;

use crate::LineAnswer;

/// Answers a line about queues. Returns `false` if `kind` is no kind of such a line.
pub fn answer(out: &mut LineAnswer, kind: &str, asked: &str) -> bool {
    if kind == "store" {
        runs::answer(out, asked);
        return true;
    }
    false
}
