//! Splits the files of a case into rows. Start with [`rows_of`].
//!
//! A line `==== NAME` begins a row, whose text goes up to the next such line. Only remarks, lines that begin with `#`, may
//! precede the first. A file without rows is a single text, which is used for each row of the other files.

use std::alloc::Global;
use std::io;
use std::io::ErrorKind;

/// The mark before the name of a row.
const MARK: &str = "==== ";

/// A text with its name. The only text of a file without rows has the empty name.
#[derive(Clone, Copy, Drop)]
pub struct CaseRow<'a> {
    pub name: &'a str,
    pub text: &'a str,
}

/// Returns the error for malformed files of a case.
pub fn malformed() -> io::Error {
    io::Error::from(ErrorKind::InvalidData)
}

/// Returns the rows of a file, from the first mark on.
fn marked(alloc: Global, text: &str) -> io::Result<Vec<CaseRow<'_>>> {
    let mut rows = Vec::new(alloc);
    for part in text.split(MARK) {
        match part.split_once('\n') {
            Some((name, text)) => rows.push(CaseRow { name, text })?,
            None => return Err(malformed()),
        }
    }
    Ok(rows)
}

/// Returns the rows of a file.
pub fn rows_of(alloc: Global, text: &str) -> io::Result<Vec<CaseRow<'_>>> {
    match text.split_once(MARK) {
        Some((head, rest)) if head.lines().all(|line| line.starts_with('#')) => marked(alloc, rest),
        Some(_) => Err(malformed()),
        None => {
            let mut rows = Vec::new(alloc);
            rows.push(CaseRow { name: "", text })?;
            Ok(rows)
        }
    }
}

/// Returns the text of the row at `index`, which has to be called `name`; or the only text of a file without rows.
pub fn text_at<'a>(rows: &[CaseRow<'a>], index: usize, name: &str) -> io::Result<&'a str> {
    if let Some(only) = rows.first() {
        if rows.len() == 1 && only.name.is_empty() {
            return Ok(only.text);
        }
    }
    match rows.get(index) {
        Some(row) if row.name == name => Ok(row.text),
        _ => Err(malformed()),
    }
}
