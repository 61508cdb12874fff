//! Cuts the pieces of a script. Start with [`cut_script`].

use std::alloc::Global;
use std::{fmt, io};

/// How each piece of a script is cut.
#[derive(Clone, Copy, Drop)]
pub enum Cut {
    /// Not at all.
    Whole,
    /// Into single bytes.
    Bytes,
    /// Into two parts, the first of this number of bytes, if the piece has more.
    At(usize),
}

impl fmt::Display for Cut {
    fn fmt<W: fmt::Write>(&self, f: &mut fmt::Formatter<W>) -> fmt::Result {
        match self {
            Cut::Whole => write!(f, "as it stands"),
            Cut::Bytes => write!(f, "in single bytes"),
            Cut::At(place) => write!(f, "cut behind {place} bytes"),
        }
    }
}

/// Splits a line `in C HEX` before its hex digits. Returns `None` for any other line, and if there are fewer than two bytes.
fn parts(line: &str) -> Option<(&str, &str)> {
    let (before, hex) = line.trim_end_matches('\n').rsplit_once(' ')?;
    let is_cut = before.starts_with("in ")
        && hex.len() >= 4
        && hex.len() % 2 == 0
        && hex.bytes().all(|digit| digit.is_ascii_hexdigit());
    if is_cut { Some((before, hex)) } else { None }
}

fn put_piece(out: &mut Vec<u8>, before: &str, hex: &[u8]) -> io::Result<()> {
    out.extend_from_slice(before.as_bytes())?;
    out.extend_from_slice(b" ")?;
    out.extend_from_slice(hex)?;
    out.extend_from_slice(b"\n")?;
    Ok(())
}

/// Appends a piece cut in two after `place` bytes.
fn put_halves(out: &mut Vec<u8>, before: &str, hex: &[u8], place: usize) -> io::Result<()> {
    match hex.split_at_checked(place.saturating_mul(2)) {
        Some((first, second)) if !first.is_empty() && !second.is_empty() => {
            put_piece(out, before, first)?;
            put_piece(out, before, second)
        }
        _ => put_piece(out, before, hex),
    }
}

/// Appends a piece cut into single bytes.
fn put_bytes(out: &mut Vec<u8>, before: &str, hex: &[u8]) -> io::Result<()> {
    for byte in hex.chunks(2) {
        put_piece(out, before, byte)?;
    }
    Ok(())
}

/// Appends a line with its piece cut.
fn put_line(out: &mut Vec<u8>, line: &str, cut: Cut) -> io::Result<()> {
    match (parts(line), cut) {
        (Some((before, hex)), Cut::Bytes) => put_bytes(out, before, hex.as_bytes()),
        (Some((before, hex)), Cut::At(place)) => put_halves(out, before, hex.as_bytes(), place),
        _ => Ok(out.extend_from_slice(line.as_bytes())?),
    }
}

/// Returns the script with each of its pieces cut.
pub fn cut_script(alloc: Global, script: &str, cut: Cut) -> io::Result<Vec<u8>> {
    let mut out = Vec::new(alloc);
    for line in script.split_inclusive('\n') {
        put_line(&mut out, line, cut)?;
    }
    Ok(out)
}

/// Returns the length in bytes of the longest piece that can be cut.
pub fn longest(script: &str) -> usize {
    let mut most = 0usize;
    for line in script.split_inclusive('\n') {
        if let Some((_, hex)) = parts(line) {
            most = most.max(hex.len() / 2);
        }
    }
    most
}
