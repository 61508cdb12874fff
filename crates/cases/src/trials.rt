//! Runs a case, row by row and cut by cut. Start with [`run_rows`].

use crate::comparing::{Difference, compared};
use crate::cutting::{Cut, cut_script, longest};
use crate::disk::{CaseDisk, Folder};
use crate::files::{Case, case_of, words_of, written_out};
use crate::printing::printed;
use crate::rows::{CaseRow, rows_of, text_at};
use std::alloc::Global;
use std::io;

/// The pieces of a script are cut in two at every place, and also into single bytes, if the longest has at most this number of bytes.
/// If it has more, they are cut in two at places near its ends only.
const CUT_EVERYWHERE: usize = 4_096;

/// A place is near an end if it is at most this number of bytes from it.
const NEAR: usize = 12;

/// A row of a case.
#[derive(Drop)]
struct Trial<'a> {
    words: Vec<String>,
    script: Option<String>,
    expected: &'a str,
}

/// Where a row printed something else than expected.
#[derive(Clone, Copy, Drop)]
struct Failure {
    cut: Cut,
    /// The first line that differs, counted from 1.
    line: u64,
}

/// Runs the words with the script cut by `cut`. Returns the difference, if any.
fn failure_at(folder: Folder<'_>, trial: &Trial<'_>, cut: Cut) -> io::Result<Option<Failure>> {
    let alloc = folder.rt.alloc();
    let script = match &trial.script {
        Some(script) => Some(cut_script(alloc, script.as_str(), cut)?),
        None => None,
    };
    let mut files = CaseDisk {
        folder,
        script: script.as_ref().map(|script| script.as_slice()),
    };
    let made = printed(alloc, trial.words.as_slice(), &mut files, trial.expected)?;
    match compared(trial.expected.as_bytes(), made.as_slice()) {
        Difference::None => Ok(None),
        Difference::At(line) => Ok(Some(Failure { cut, line })),
    }
}

/// Returns whether pieces are cut after `place` bytes, given that the longest has `longest` bytes.
fn is_cut_at(place: usize, longest: usize) -> bool {
    longest <= CUT_EVERYWHERE || place <= NEAR || longest.saturating_sub(place) <= NEAR
}

/// Runs a row with the pieces of its script cut in two. Returns the first difference, if any.
fn failure_in_two(
    folder: Folder<'_>,
    trial: &Trial<'_>,
    longest: usize,
) -> io::Result<Option<Failure>> {
    for place in 1..longest {
        if is_cut_at(place, longest) {
            if let Some(failure) = failure_at(folder, trial, Cut::At(place))? {
                return Ok(Some(failure));
            }
        }
    }
    Ok(None)
}

/// Runs a row with every cut of its script. Returns the first difference, if any.
fn failure_of(folder: Folder<'_>, trial: &Trial<'_>) -> io::Result<Option<Failure>> {
    if let Some(failure) = failure_at(folder, trial, Cut::Whole)? {
        return Ok(Some(failure));
    }
    let longest = match &trial.script {
        Some(script) => longest(script.as_str()),
        None => return Ok(None),
    };
    if longest >= 2 && longest <= CUT_EVERYWHERE {
        if let Some(failure) = failure_at(folder, trial, Cut::Bytes)? {
            return Ok(Some(failure));
        }
    }
    failure_in_two(folder, trial, longest)
}

/// Returns the longer of two lists of rows, or the first if they have the same length.
fn longer<'x, 'a>(first: &'x [CaseRow<'a>], second: &'x [CaseRow<'a>]) -> &'x [CaseRow<'a>] {
    if second.len() > first.len() {
        second
    } else {
        first
    }
}

/// The rows of the files of a case. A case without a script has no rows of a script.
#[derive(Drop)]
struct CaseTable<'a> {
    words: Vec<CaseRow<'a>>,
    scripts: Vec<CaseRow<'a>>,
    expected: Vec<CaseRow<'a>>,
}

impl<'a> CaseTable<'a> {
    fn read(alloc: Global, case: &'a Case) -> io::Result<CaseTable<'a>> {
        Ok(CaseTable {
            words: rows_of(alloc, case.words.as_str())?,
            scripts: match &case.script {
                Some(script) => rows_of(alloc, script.as_str())?,
                None => Vec::new(alloc),
            },
            expected: rows_of(alloc, case.expected.as_str())?,
        })
    }

    /// Returns the rows of the file that has the most.
    fn rows(&self) -> &[CaseRow<'a>] {
        longer(
            longer(self.words.as_slice(), self.scripts.as_slice()),
            self.expected.as_slice(),
        )
    }

    /// Returns the script of the row at index `place`, with its repetitions expanded, or `None` if the case has no scripts.
    fn script(&self, alloc: Global, place: usize, row: &str) -> io::Result<Option<String>> {
        if self.scripts.is_empty() {
            return Ok(None);
        }
        let text = text_at(self.scripts.as_slice(), place, row)?;
        Ok(Some(written_out(alloc, text)?))
    }
}

/// Runs the row at index `place`. Returns the first difference, if any.
fn failure_at_row(
    folder: Folder<'_>,
    table: &CaseTable<'_>,
    place: usize,
    row: &str,
) -> io::Result<Option<Failure>> {
    let alloc = folder.rt.alloc();
    let trial = Trial {
        words: words_of(alloc, text_at(table.words.as_slice(), place, row)?)?,
        script: table.script(alloc, place, row)?,
        expected: text_at(table.expected.as_slice(), place, row)?,
    };
    failure_of(folder, &trial)
}

/// Prints where a row printed something else than expected.
fn print_difference(folder: Folder<'_>, row: &str, failure: Failure) -> io::Result<()> {
    let cut = failure.cut;
    let line = failure.line;
    println!(folder.rt; "  differs at line {line}, {cut}: {row}")
}

/// Runs the rows of a case, and prints which of them failed. Returns their number, or `None` if one failed.
pub fn run_rows(folder: Folder<'_>, name: &str) -> io::Result<Option<u64>> {
    let alloc = folder.rt.alloc();
    let case = case_of(folder, name)?;
    let table = CaseTable::read(alloc, &case)?;
    let mut count = 0u64;
    let mut failed = 0u64;
    for (place, row) in table.rows().iter().enumerate() {
        count = count.saturating_add(1);
        if let Some(failure) = failure_at_row(folder, &table, place, row.name)? {
            failed = failed.saturating_add(1);
            print_difference(folder, row.name, failure)?;
        }
    }
    if failed == 0 {
        Ok(Some(count))
    } else {
        Ok(None)
    }
}
