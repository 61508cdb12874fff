//! Answers the lines about certificates: what is admitted, checked, found and disproved, and certificates files.
//!
//! | kinds | subject |
//! |---|---|
//! | `admit`, `admitted` | `certificate`: what is admitted of a guarantees file by a certificates file, and where it routes a key |
//! | `check` | `certificate`: whether the certificate of a file is accepted, or its fault |
//! | `search`, `certificate` | `guarantee_search`: the verdict, which a check or `disprove` confirms; the file of the certificate found |
//! | `disprove` | `certificate`: whether a key, with a path, breaks a guarantee |
//! | `certificates`, `certificates-hex`, `rewritten` | `certificate`: whether a file is read, or why it is refused; whether it is written unchanged |

mod admission;
mod faults;
mod rewriting;
mod verdicts;

use crate::LineAnswer;

/// The kinds of lines about one guarantee.
const OF_ONE: [&str; 4] = ["check", "search", "certificate", "disprove"];

/// The kinds of lines about certificates files.
const OF_FILES: [&str; 3] = ["certificates", "certificates-hex", "rewritten"];

/// Answers a line about certificates. Returns `false` if `kind` is no kind of such a line.
pub fn answer(out: &mut LineAnswer, rt: &HostRuntime, kind: &str, asked: &str) -> bool {
    if OF_ONE.contains(&kind) {
        verdicts::answer(out, rt, kind, asked);
    } else if OF_FILES.contains(&kind) {
        rewriting::answer(out, rt, kind, asked);
    } else if kind == "admit" || kind == "admitted" {
        admission::answer(out, rt, asked);
    } else {
        return false;
    }
    true
}
