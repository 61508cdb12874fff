//! Runs a command line, and collects what it prints. Start with [`printed`].
//!
//! That is what it writes to standard output, then what it writes to standard error, each line after `! `, then the exit status
//! as `status N`, unless it is 0.

use crate::disk::CaseDisk;
use server::program;
use std::alloc::Global;
use std::io;

/// The line that matches any output on standard error.
const ANY_COMPLAINT: &str = "! ..\n";

/// Appends what was written to standard error.
fn put_complaint(alloc: Global, out: &mut Vec<u8>, complaint: &[u8]) -> io::Result<()> {
    let text = String::from_utf8_lossy(alloc, complaint)?;
    for line in text.split_inclusive('\n') {
        out.extend_from_slice(b"! ")?;
        out.extend_from_slice(line.as_bytes())?;
    }
    Ok(())
}

/// Runs the words, and returns what they print. If `expected` allows any output on standard error, that becomes `! ..`.
pub fn printed(
    alloc: Global,
    words: &[String],
    files: &mut CaseDisk<'_>,
    expected: &str,
) -> io::Result<Vec<u8>> {
    let mut out: Vec<u8> = Vec::new(alloc);
    let mut err: Vec<u8> = Vec::new(alloc);
    let status = program(alloc, words, files, &mut out, &mut err);
    if expected.contains(ANY_COMPLAINT) && !err.is_empty() {
        out.extend_from_slice(ANY_COMPLAINT.as_bytes())?;
    } else {
        put_complaint(alloc, &mut out, err.as_slice())?;
    }
    if status != 0 {
        let last = format!(in alloc; "status {status}\n")?;
        out.extend_from_slice(last.as_bytes())?;
    }
    Ok(out)
}
