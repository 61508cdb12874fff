//! Reads a replay script. Start with [`read_script`].

ghost use Rattle.std.specs.Prelude.{◌≡◌, ◌≤◌, MatchResult, Some};
ghost use Rattle.scripts.specs.Script.{script, line_of, opened_after, RefusesScript};
ghost use Rattle.scripts.specs.Lines.{TakesLine};

use crate::lines::{Arrival, BadLine, line_of};
use model::first_part;
use std::alloc::Global;

/// Why a script was not read.
#[derive(Clone, Copy, PartialEq, Eq, Debug, Drop)]
pub enum BadScript {
    /// The number, counted from 1, of the first line at fault: it has no form that a script allows, opens too many connections, or
    /// names one that was not opened.
    Line(u64),
    /// An allocation failed.
    Memory,
}

/// Returns the number of connections that a line opens: 1 or 0.
fn openings(line: &Option<Arrival>) -> u64
    ensures { opened_after 0 (Some line.now) ≡ result }
{
    match line {
        Some(Arrival::Open | Arrival::Ready(_)) => 1,
        _ => 0,
    }
}

/// Appends the event of `line` to `found`, if it has one. Returns the number of connections opened by then; `opened` were before it.
fn take_line(
    alloc: Global,
    found: &mut Vec<Arrival>,
    opened: u64,
    line: &[u8],
) -> Result<u64, BadLine>
    requires { opened ≤ 1024 }
    ensures { TakesLine result found.old.items found.new.items opened (line_of opened line.now) }
{
    let arrival = line_of(alloc, opened, line)?;
    let after = opened + openings(&arrival);
    if let Some(arrival) = arrival {
        found.push(arrival)?;
    }
    Ok(after)
}

/// Parses a replay script into its events, in their order.
///
/// LF ends a line, and one space separates its fields. Empty lines and lines that begin with `#` are skipped. `open` opens a
/// connection from which no byte has come, `ready K` one that is running with channels 1 to K open. `in C HEX` is a piece of
/// bytes from connection C, `sent C N` takes N bytes of its output, `lose C` loses it. `pump` delivers a message if one can be
/// delivered. `reload DEFS GUARANTEES CERTS` names the files of the topology to load.
///
/// Fails with the number of the first line at fault, or with [`BadScript::Memory`] if an allocation fails.
pub fn read_script(alloc: Global, text: &[u8]) -> Result<Vec<Arrival>, BadScript>
    ensures { MatchResult result (λ found. script text.now ≡ Ok found.items) (λ fault. RefusesScript fault (script text.now)) }
{
    let mut found = Vec::new(alloc);
    let mut opened = 0;
    let mut number: u64 = 0;
    let mut rest = Some(text);
    'lines: while let Some(text) = rest {
        let (line, after) = first_part(text, b'\n');
        number += 1;
        match take_line(alloc, &mut found, opened, line) {
            Ok(after) => opened = after,
            Err(BadLine::Malformed) => return Err(BadScript::Line(number)),
            Err(BadLine::Memory) => return Err(BadScript::Memory),
        }
        rest = after;
    }
    Ok(found)
}
