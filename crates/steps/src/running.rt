//! Runs the scenarios of files. Start with [`run_file`].

use crate::engines::Calls;
use crate::names::Names;
use crate::peers::Peers;
use crate::setups::Disk;
use crate::wires::{Fault, Served};
use crate::worlds::World;
use line_parts::{LineAnswer, Unanswered, number_of};
use scenario_outcomes::Sums;
use std::{fs, io};

/// The mark before the name of a scenario.
const MARK: &str = "\n==== ";

/// The most characters of an answer that are printed.
const SHOWN: usize = 400;

/// The largest number of runs of a scenario in which each call fails in turn.
const MOST_RUNS: u64 = 10_000;

/// Returns whether a line says nothing: it is empty, or begins with `#`.
fn is_silent(line: &str) -> bool {
    line.is_empty() || line.starts_with('#')
}

/// Returns the names that the head of a file defines.
fn names_of<'a>(out: &mut LineAnswer, head: &'a str) -> Names<'a> {
    let mut names = Names::new(out.alloc());
    for line in head.lines() {
        if !is_silent(line) {
            names.add(out, line);
        }
    }
    names
}

/// Appends the reason why a step has no answer.
fn put_lack(wrong: &mut LineAnswer, lack: Unanswered) {
    match lack {
        Unanswered::Form => wrong.put(" has no answer: its form"),
        Unanswered::File => wrong.put(" has no answer: its file"),
        Unanswered::Memory => wrong.put(" has no answer: memory"),
    }
}

/// Appends an answer that is not the wanted one, or its beginning if it is long.
fn put_got(wrong: &mut LineAnswer, text: &str) {
    wrong.put(" got ");
    match text.get(..SHOWN) {
        Some(beginning) => {
            wrong.put(beginning);
            wrong.put("..");
        }
        None => wrong.put(text),
    }
}

/// Compares the answer to `step` with the one that is wanted, and appends what is wrong.
fn compare(wrong: &mut LineAnswer, step: &str, answer: &LineAnswer, wanted: &str) {
    if let Some(lack) = answer.lack() {
        wrong.put(step);
        put_lack(wrong, lack);
    } else if answer.text() != wanted {
        wrong.put(step);
        put_got(wrong, answer.text());
    }
}

/// Takes the step that a line writes, and appends what is wrong.
fn take_step<W: World>(world: &mut W, names: &Names<'_>, wrong: &mut LineAnswer, line: &str) {
    let (question, wanted) = line.rsplit_once(" -> ").unwrap_or((line, ""));
    let mut answer = LineAnswer::new(wrong.alloc());
    let step = names.step_of(&mut answer, question);
    let wanted = names.wanted(&mut answer, step.kind, wanted);
    world.answer(&mut answer, &step);
    compare(wrong, line, &answer, wanted.text());
}

/// Returns whether nothing is wrong yet.
fn is_right(wrong: &LineAnswer) -> bool {
    wrong.len() == 0 && wrong.lack().is_none()
}

/// Takes steps, up to the first that is wrong: `STEP; STEP`.
fn take_steps<W: World>(world: &mut W, names: &Names<'_>, wrong: &mut LineAnswer, steps: &str) {
    for step in steps.split("; ") {
        if is_right(wrong) {
            take_step(world, names, wrong, step);
        }
    }
}

/// Returns whether each of `conditions` is so; none are so.
fn are_so<W: World>(world: &W, conditions: &str) -> bool {
    for condition in conditions.split(", ") {
        if !condition.is_empty() && !world.is_so(condition) {
            return false;
        }
    }
    true
}

/// Takes the steps of a line: `STEPS`, `COUNT times: STEPS`, or either behind `if CONDITION, CONDITION: `, if each of these is so.
fn take_line<W: World>(world: &mut W, names: &Names<'_>, wrong: &mut LineAnswer, line: &str) {
    let (conditions, rest) = match line.strip_prefix("if ") {
        Some(rest) => rest.split_once(": ").unwrap_or((rest, "")),
        None => ("", line),
    };
    if !are_so(&*world, conditions) {
        return;
    }
    let (times, steps) = rest.split_once(" times: ").unwrap_or(("1", rest));
    for _ in 0..number_of(wrong, times) {
        take_steps(world, names, wrong, steps);
    }
}

/// Takes the steps of a scenario, up to the first that is wrong, or to a line `end unless CONDITION` whose condition isn't so.
fn take_lines<W: World>(world: &mut W, names: &Names<'_>, wrong: &mut LineAnswer, lines: &str) {
    for line in lines.lines() {
        if let Some(condition) = line.strip_prefix("end unless ") {
            if !world.is_so(condition) {
                return;
            }
        } else if is_right(wrong) && !is_silent(line) {
            take_line(world, names, wrong, line);
        }
    }
}

/// Takes the steps of clients that are served in memory, with a fault. Returns whether a call failed by it.
fn take_served(
    disk: Disk<'_>,
    names: &Names<'_>,
    wrong: &mut LineAnswer,
    file: &str,
    fault: Fault<'_>,
    lines: &str,
) -> bool {
    match Served::new(disk, wrong, file, fault) {
        Some(mut world) => {
            take_lines(&mut world, names, wrong, lines);
            world.is_so("fault")
        }
        None => false,
    }
}

/// Takes the steps once for each of `calls`, which fails in that run, and returns the number of these runs.
fn fail_each(
    disk: Disk<'_>,
    names: &Names<'_>,
    wrong: &mut LineAnswer,
    file: &str,
    calls: &str,
    lines: &str,
) -> u64 {
    for count in 0..MOST_RUNS {
        let number = count.saturating_add(1);
        let fault = Fault { calls, number };
        if !take_served(disk, names, wrong, file, fault, lines) || !is_right(wrong) {
            return count;
        }
    }
    MOST_RUNS
}

/// Takes the steps with calls that fail in turn: `CALLS CALLS -> RUNS RUNS`. Compares the numbers of runs with those that are wanted, unless a step is wrong.
fn run_each(
    disk: Disk<'_>,
    names: &Names<'_>,
    wrong: &mut LineAnswer,
    file: &str,
    asked: &str,
    lines: &str,
) {
    let (words, wanted) = asked.split_once(" -> ").unwrap_or((asked, ""));
    let mut answer = LineAnswer::new(wrong.alloc());
    for calls in words.split(' ') {
        answer.put_space();
        answer.put_number(fail_each(disk, names, wrong, file, calls, lines));
    }
    if is_right(wrong) {
        compare(wrong, words, &answer, wanted);
    }
}

/// Runs a scenario of clients that are served in memory: `FILE`, `FILE refuse CALLS`, or `FILE each CALLS CALLS -> RUNS RUNS`.
fn run_served(disk: Disk<'_>, names: &Names<'_>, wrong: &mut LineAnswer, asked: &str, lines: &str) {
    match asked.split_once(" each ") {
        Some((file, each)) => run_each(disk, names, wrong, file, each, lines),
        None => {
            let (file, calls) = asked.split_once(" refuse ").unwrap_or((asked, ""));
            let fault = Fault { calls, number: 0 };
            take_served(disk, names, wrong, file, fault, lines);
        }
    }
}

/// Runs the scenario whose steps are `lines`, in the world that the line `kind` `asked` names.
fn run_in<'a>(
    disk: Disk<'a>,
    names: &Names<'_>,
    wrong: &mut LineAnswer,
    kind: &str,
    asked: &'a str,
    lines: &str,
) {
    match kind {
        "memory" => run_served(disk, names, wrong, asked, lines),
        "engine" => {
            if let Some(mut world) = Calls::new(disk, wrong, asked) {
                take_lines(&mut world, names, wrong, lines);
            }
        }
        "sockets" => {
            if let Some(mut world) = Peers::new(disk, disk.rt, wrong, asked) {
                take_lines(&mut world, names, wrong, lines);
            }
        }
        _ => wrong.fail(Unanswered::Form),
    }
}

/// Runs the scenario whose first line is its world, and its others are its steps. Appends the step that is wrong, and what it answered.
fn run_scenario<'a>(disk: Disk<'a>, names: &Names<'_>, wrong: &mut LineAnswer, scenario: &'a str) {
    let (world, lines) = scenario.split_once('\n').unwrap_or((scenario, ""));
    let (kind, asked) = world.split_once(' ').unwrap_or((world, ""));
    run_in(disk, names, wrong, kind, asked, lines);
    if let Some(lack) = wrong.lack() {
        let mut said = LineAnswer::new(wrong.alloc());
        said.put(world);
        put_lack(&mut said, lack);
        *wrong = said;
    }
}

/// Runs the scenarios of the file `name`, and prints a line for each: its name with `ok`, or with the step that is wrong.
pub fn run_file(sums: &mut Sums, disk: Disk<'_>, name: &str) -> io::Result<()> {
    let alloc = disk.rt.alloc();
    let folder = disk.folder;
    let path = format!(in alloc; "{folder}/{name}")?;
    let text = fs::read_to_string(disk.rt, path)?;
    let (head, scenarios) = text
        .as_str()
        .split_once(MARK)
        .unwrap_or((text.as_str(), ""));
    let mut defined = LineAnswer::new(alloc);
    let names = names_of(&mut defined, head);
    for scenario in scenarios.split(MARK) {
        let (name, rest) = scenario.split_once('\n').unwrap_or((scenario, ""));
        let mut wrong = LineAnswer::new(alloc);
        if defined.lack().is_some() {
            wrong.put("a name of the file has no bytes");
        } else {
            run_scenario(disk, &names, &mut wrong, rest);
        }
        sums.record_text(disk.rt, name, wrong.text())?;
    }
    Ok(())
}
