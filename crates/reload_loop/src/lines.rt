//! When a line is written about files that are not put in force.

ghost use Rattle.std.specs.Prelude.{◌≡◌, ◌<◌, ◌≤◌, ◌+◌, ℕ, Some, IfNone, IfSome, is_ok, option_map};
ghost use Rattle.server.specs.Program.{WritesLine, refusal_line};
ghost use Rattle.server.specs.Streams.{gain};
ghost use Rattle.reload_loop.specs.Looks.{IsFaultReported};
ghost use Rattle.reload_loop.specs.Telling.{IsCarried, IsSilent, last_line, told_at, told_of};

use crate::found::Found;
use crate::reporting::put_fault;
use crate::snapshots::Snapshot;
use runs::ReloadFault;
use server::{Report, put_refusal};
use std::alloc::Global;
use std::io;
use std::io::Write;

/// For how many seconds after a line about files no other is written about them.
const QUIET: u64 = 60;

/// Returns when the last line was written, if that is less than [`QUIET`] seconds before `now`.
pub(crate) fn recent(told: Option<u64>, now: u64) -> Option<u64>
    ensures some { IfSome result (λ at. (told ≡ Some at) × (now < at + 60)) }
    ensures none { IfNone result ((at : ℕ) → told ≡ Some at → at + 60 ≤ now) }
{
    let at = told?;
    match at.checked_add(QUIET) {
        Some(end) if end <= now => None,
        _ => Some(at),
    }
}

/// Returns when the last line was written: at `last`, or now.
pub(crate) fn last_line(last: Option<u64>, now: u64) -> u64
    ensures { result ≡ last_line last now }
{
    match last {
        Some(at) => at,
        None => now,
    }
}

/// Returns `told`, when a line about the files `before` was last written, if `read` has the same bytes.
fn told_if_same(read: &Snapshot, before: &Snapshot, told: Option<u64>) -> Option<u64>
    ensures { IsCarried (option_map (told_at before.now) told) read.now result }
{
    if read.has_same(before) { told } else { None }
}

/// Returns when a line was last written about files with the bytes in `read`, as `found` remembers it.
pub(crate) fn told_before(found: &Found<'_>, read: &Snapshot) -> Option<u64>
    ensures { IsCarried (told_of found.now) read.now result }
{
    match found {
        Found::Nothing => None,
        Found::Refused {
            read: before,
            told,
            ..
        } => told_if_same(read, before, *told),
        Found::Admitted {
            read: before,
            told,
            ..
        } => told_if_same(read, before, *told),
        Found::Wanting { read: before, told } => told_if_same(read, before, *told),
    }
}

/// Writes the line of `report` to `err`, unless one was written recently, at `last`. Fails if `err` doesn't take the line whole.
pub(crate) fn tell_refusal<E: Write>(
    alloc: Global,
    last: Option<u64>,
    report: Report<'_>,
    err: &mut E,
) -> io::Result<()>
    ensures silent { IfSome last (λ _. IsSilent (gain E.contents err.old err.new) (is_ok result)) }
    ensures line { IfNone last (WritesLine (gain E.contents err.old err.new) (refusal_line report.entry.file.now report.entry.why) (is_ok result)) }
{
    match last {
        Some(_) => Ok(()),
        None => put_refusal(alloc, err, report),
    }
}

/// Writes why a reload was not done to `err`, unless a line was written recently, at `last`. Fails if `err` doesn't take the line whole.
pub(crate) fn tell_fault<E: Write>(
    alloc: Global,
    last: Option<u64>,
    fault: ReloadFault,
    err: &mut E,
) -> io::Result<()>
    ensures silent { IfSome last (λ _. IsSilent (gain E.contents err.old err.new) (is_ok result)) }
    ensures line { IfNone last (IsFaultReported (gain E.contents err.old err.new) fault (is_ok result)) }
{
    match last {
        Some(_) => Ok(()),
        None => put_fault(alloc, err, fault),
    }
}
