//! Answers the lines of files, and compares the answers. Start with `run`.

use crate::counts::Count;
use crate::parts::{LineParts, is_silent, parts_of};
use crate::wire;
use line_parts::{LineAnswer, Unanswered, certificates, routing, stores};
use std::process::ExitCode;
use std::{fs, io};

/// Answers a line of kind `kind`. A line that isn't about routing, certificates or queues is about the wire.
fn put_answer(out: &mut LineAnswer, rt: &HostRuntime, kind: &str, asked: &str) {
    if !routing::answer(out, rt, kind, asked)
        && !certificates::answer(out, rt, kind, asked)
        && !stores::answer(out, kind, asked)
    {
        wire::answer(out, kind, asked);
    }
}

/// Prints a line without an answer, and the reason `said`. Returns `false`.
fn differs(rt: &HostRuntime, file: &str, line: &str, said: &str) -> io::Result<bool> {
    println!(rt; "{file}: {line}\n  {said}")?;
    Ok(false)
}

/// Returns whether `got` is the expected answer, and prints the line if it isn't.
fn is_wanted(
    rt: &HostRuntime,
    file: &str,
    line: &str,
    got: &str,
    wanted: &str,
) -> io::Result<bool> {
    if got == wanted {
        return Ok(true);
    }
    println!(rt; "{file}: {line}\n  got {got}")?;
    Ok(false)
}

/// Returns whether a line with the parts `parts` has the expected answer, and prints the line if it hasn't.
fn is_answered(rt: &HostRuntime, file: &str, line: &str, parts: LineParts<'_>) -> io::Result<bool> {
    let mut answer = LineAnswer::new(rt.alloc());
    put_answer(&mut answer, rt, parts.kind, parts.asked);
    match answer.lack() {
        None => is_wanted(rt, file, line, answer.text(), parts.wanted),
        Some(Unanswered::Form) => differs(rt, file, line, "has no answer: its form"),
        Some(Unanswered::File) => differs(rt, file, line, "has no answer: its file"),
        Some(Unanswered::Memory) => differs(rt, file, line, "has no answer: memory"),
    }
}

/// Returns whether `line` has the expected answer, and prints it if it hasn't.
fn is_met(rt: &HostRuntime, file: &str, line: &str) -> io::Result<bool> {
    match parts_of(line) {
        Some(parts) => is_answered(rt, file, line, parts),
        None => differs(rt, file, line, "has no arrow"),
    }
}

/// Answers the lines of a text, and counts them.
fn answer_lines(rt: &HostRuntime, file: &str, text: &str) -> io::Result<Count> {
    let mut count = Count::none();
    for line in text.lines() {
        if !is_silent(line) {
            count.add_line(is_met(rt, file, line)?);
        }
    }
    Ok(count)
}

/// Answers the lines of one file, and prints their number.
fn answer_file(rt: &HostRuntime, file: &str) -> io::Result<Count> {
    let text = fs::read_to_string(rt, file)?;
    let count = answer_lines(rt, file, text.as_str())?;
    println!(rt; "{file}: {}", count.lines)?;
    Ok(count)
}

/// Answers the lines of the files that standard input names, one file a line.
/// Prints each line that differs with its answer, the number of lines of each file, and at the end the number of all lines and of those
/// that differ.
pub fn run(rt: &HostRuntime) -> io::Result<ExitCode> {
    let mut count = Count::none();
    for file in rt.lines(rt.alloc()) {
        let file = file?;
        count.add_file(answer_file(rt, file.as_str())?);
    }
    println!(rt; "{} lines, {} differ", count.lines, count.differing)?;
    if count.is_passed() {
        Ok(ExitCode::SUCCESS)
    } else {
        Ok(ExitCode::FAILURE)
    }
}
