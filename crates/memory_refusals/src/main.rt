//! Tests that a call changes nothing if an allocation fails in it: repeats each such call, and prints the results.
//!
//! Standard input has sections (`sections`): files, scripts that run over them, and single calls. Their results are printed. The
//! output is the same whichever allocation failed, except for the last line, which counts the repeated calls.
#![tactic(auto)]

mod asking;
mod counts;
mod noting;
mod put_out;
mod replaying;
mod running;
mod sections;

use counts::Counts;
use model::limits;
use running::answered;
use std::alloc::Global;
use std::io::{self, ErrorKind, Read as _, Write as _};
use std::process::ExitCode;

/// Reads standard input.
fn input(rt: &HostRuntime) -> io::Result<String> {
    let mut text = String::new(rt.alloc());
    rt.reader()
        .take(limits::FILE_BYTES as u64)
        .read_to_string(&mut text)?;
    Ok(text)
}

/// Runs the sections. If an allocation fails outside of their calls, runs them all again, which is counted, too.
fn tried(alloc: Global, input: &str) -> io::Result<(String, Counts)> {
    let mut counts = Counts::default();
    match answered(alloc, input, &mut counts) {
        Ok(text) => Ok((text, counts)),
        Err(error) if error.kind() == ErrorKind::OutOfMemory => {
            let mut counts = Counts::default();
            counts.wholes = 1;
            let text = answered(alloc, input, &mut counts)?;
            Ok((text, counts))
        }
        Err(error) => Err(error),
    }
}

fn main(rt: HostRuntime) -> io::Result<ExitCode> {
    let alloc = rt.alloc();
    let input = match input(&rt) {
        Ok(input) => input,
        Err(_) => return Ok(ExitCode::from(4)),
    };
    let (text, counts) = tried(alloc, input.as_str())?;
    let mut out = io::writer(&rt);
    out.write_all(text.as_bytes())?;
    counts.put(&mut out)?;
    if counts.is_sound() {
        Ok(ExitCode::SUCCESS)
    } else {
        Ok(ExitCode::FAILURE)
    }
}
