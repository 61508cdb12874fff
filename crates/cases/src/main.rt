//! Runs cases: command lines of the program, and what each prints. A case is data, so adding one needs no proof.
//!
//! Standard input names the cases, one a line. Case `x` is the words in `x.words`, and what they print in `x.expected`. If there
//! is `x.script`, it is the file that the word `script` names, and the words are run with it unchanged, in single bytes, and with
//! each piece cut in two. Each of the files may have rows (`rows`): then the case is run once for each. The files are in the
//! current folder, or in the folder that an argument names.
#![tactic(auto)]

mod all_scenarios;
mod comparing;
mod cutting;
mod disk;
mod files;
mod printing;
mod rows;
mod trials;

use all_scenarios::all_hold;
use disk::Folder;
use std::process::ExitCode;
use std::{env, io};
use trials::run_rows;

/// The number of cases and rows that ran, and the number of cases that failed.
#[derive(Clone, Copy, Drop)]
struct Tally {
    cases: u64,
    rows: u64,
    failed: u64,
}

impl Tally {
    /// Counts a case that has this number of rows; `None` says that it failed.
    fn and(self, rows: Option<u64>) -> Tally {
        Tally {
            cases: self.cases.saturating_add(1),
            rows: self.rows.saturating_add(rows.unwrap_or(0)),
            failed: self.failed.saturating_add(u64::from(rows.is_none())),
        }
    }
}

/// Prints the number of rows of a case, or that it failed.
fn print_row(rt: &HostRuntime, name: &str, rows: Option<u64>) -> io::Result<()> {
    match rows {
        Some(rows) => println!(rt; "{name}: {rows} ok"),
        None => println!(rt; "{name}: failed"),
    }
}

/// Runs a case and prints its line. Returns its number of rows, or `None` if one of them failed.
fn run(folder: Folder<'_>, name: &str) -> io::Result<Option<u64>> {
    match run_rows(folder, name) {
        Ok(rows) => {
            print_row(folder.rt, name, rows)?;
            Ok(rows)
        }
        Err(error) => {
            println!(folder.rt; "{name}: {error}")?;
            Ok(None)
        }
    }
}

/// Runs each case that standard input names.
fn run_all(folder: Folder<'_>) -> io::Result<Tally> {
    let mut count = Tally {
        cases: 0,
        rows: 0,
        failed: 0,
    };
    for name in folder.rt.lines(folder.rt.alloc()) {
        count = count.and(run(folder, name?.as_str())?);
    }
    Ok(count)
}

/// Runs the cases and the scenarios. Returns whether there are cases, and all cases and scenarios passed.
fn all_pass(folder: Folder<'_>) -> io::Result<bool> {
    let Tally {
        cases,
        rows,
        failed,
    } = run_all(folder)?;
    println!(folder.rt; "{cases} cases, {rows} rows, {failed} failed")?;
    let hold = all_hold(folder)?;
    Ok(cases > 0 && failed == 0 && hold)
}

fn main(rt: HostRuntime) -> io::Result<ExitCode> {
    let named = env::args(&rt)?.nth(1);
    let path = match &named {
        Some(folder) => folder.as_str(),
        None => ".",
    };
    if all_pass(Folder { rt: &rt, path })? {
        Ok(ExitCode::SUCCESS)
    } else {
        Ok(ExitCode::FAILURE)
    }
}
