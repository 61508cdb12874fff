//! Reports a reload that is refused.

ghost use Rattle.std.specs.Prelude.{◌≡◌, is_ok, string_bytes, IfOk};
ghost use Rattle.server.specs.Program.{WritesLine};
ghost use Rattle.server.specs.Streams.{change};
ghost use Rattle.reload_loop.specs.Looks.{IsFaultReported, obstacle_message};

use model::Obstacle;
use runs::ReloadFault;
use scripts::obstacle_line;
use server::{put, put_out_of_memory};
use std::alloc::{AllocError, Global};
use std::io;
use std::io::Write;

/// Returns the line that reports `obstacle`. Fails only if an allocation fails.
fn line_of(alloc: Global, obstacle: &Obstacle) -> Result<String, AllocError>
    ensures { IfOk result (λ line. string_bytes line ≡ obstacle_message obstacle.now) }
{
    let line = obstacle_line(alloc, obstacle)?;
    format!(in alloc; "warren: {line}")
}

/// Writes the line of `obstacle` to `err`, whole unless a write fails.
fn put_obstacle<E: Write>(alloc: Global, err: &mut E, obstacle: Obstacle) -> io::Result<()>
    ensures { WritesLine (change (E.contents err.old) (E.contents err.new)) (obstacle_message obstacle) (is_ok result) }
{
    match line_of(alloc, &obstacle) {
        Ok(line) => put(err, line.as_bytes()),
        Err(_) => put_out_of_memory(err),
    }
}

/// Writes why a reload was not done to `err`, whole unless a write fails.
pub(crate) fn put_fault<E: Write>(alloc: Global, err: &mut E, fault: ReloadFault) -> io::Result<()>
    ensures { IsFaultReported (change (E.contents err.old) (E.contents err.new)) fault (is_ok result) }
{
    match fault.obstacle() {
        Some(obstacle) => put_obstacle(alloc, err, obstacle),
        None => put_out_of_memory(err),
    }
}
