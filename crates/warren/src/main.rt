//! The program `warren`: its words and streams are those of the process, its files, its clock and its sockets those of the machine.
#![tactic(auto)]

use reload_loop::{Disk, MachineClock, System, program_with_sockets};
use std::io::Write;
use std::process::ExitCode;
use std::{env, io};

/// Returns the words of the command line. Fails if one is not UTF-8, or if an allocation fails.
fn words(rt: &HostRuntime) -> io::Result<Vec<String>> {
    let mut words = Vec::new(rt.alloc());
    for word in env::args(rt)? {
        words.push(word)?;
    }
    Ok(words)
}

/// Reports why the command line's words could not be read, and returns the exit status: 4 after an allocation failure, 3 otherwise.
fn refuse<W: Write>(err: &mut W, error: &io::Error) -> u8 {
    if error.kind() == io::ErrorKind::OutOfMemory {
        let _ = writeln!(err, "warren: memory");
        return 4;
    }
    let _ = writeln!(
        err,
        "error: invalid UTF-8 was detected in one or more arguments"
    );
    3
}

/// Does what the words ask for, and returns the exit status.
fn run<O: Write, E: Write>(rt: &HostRuntime, words: &[String], out: &mut O, err: &mut E) -> u8 {
    let mut files = Disk { rt };
    let mut system = System { rt };
    let mut clock = MachineClock::start(rt);
    let ended = program_with_sockets(
        rt.alloc(),
        words,
        &mut system,
        &mut files,
        &mut clock,
        out,
        err,
    );
    let status = ended.status;
    drop(ended);
    status
}

fn main(rt: HostRuntime) -> ExitCode {
    let mut out = io::writer(&rt);
    let error_stream = rt.stderr();
    let mut err = io::writer(&error_stream);
    let status = match words(&rt) {
        Ok(words) => run(&rt, words.as_slice(), &mut out, &mut err),
        Err(error) => refuse(&mut err, &error),
    };
    ExitCode::from(status)
}
