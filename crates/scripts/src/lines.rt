//! Parses one line of a script. Start with [`line_of`].

ghost use Rattle.std.specs.Prelude.{◌≡◌, ◌∷◌, ◌<◌, ◌≤◌, ◌==◌, length, IfSome, option_copied, option_map, position, if◌then◌else◌, Some, None};
ghost use Rattle.std.specs.Str.{is_utf8};
ghost use Rattle.scripts.specs.Script.{cut, with_digit, digits_after, number, piece, file_name, opening, ready, connection, bytes_in, sent, lost};
ghost use Rattle.scripts.specs.Script.{names_of, three_names, reload, by_word, arrival_of, line_of};
ghost use Rattle.scripts.specs.Lines.{ReturnsIfThere};

use crate::reloads::ReloadFiles;
use hex::FromHexError;
use model::Text;
use std::alloc::{AllocError, AllocFailed, Global};
use std::str;

/// An event that a script brings; a reload names its files.
pub type Arrival = model::Arrival<ReloadFiles>;

/// The most connections that a script opens.
const MOST_OPENINGS: u64 = 1024;

/// The most channels that a `ready` line opens.
const MOST_READY: u64 = 255;

/// Why a line was not parsed.
#[derive(Clone, Copy, PartialEq, Eq, Debug, Drop)]
pub enum BadLine {
    /// The line has no form that a script allows, opens too many connections, or names one that was not opened.
    Malformed,
    /// An allocation failed.
    Memory,
}

impl From<AllocError> for BadLine {
    ghost use Rattle.std.specs.Prelude.{◌≡◌};
    ghost use Rattle.scripts.specs.declared.lines.BadLine.TheVariants.{Memory};

    ghost from_gives = { λ _ r. r ≡ Memory };

    fn from(_: AllocError) -> BadLine {
        BadLine::Memory
    }
}

impl<T: Drop> From<AllocFailed<T>> for BadLine {
    ghost use Rattle.std.specs.Prelude.{◌≡◌};
    ghost use Rattle.scripts.specs.declared.lines.BadLine.TheVariants.{Memory};

    ghost from_gives = { λ _ r. r ≡ Memory };

    fn from(_: AllocFailed<T>) -> BadLine {
        BadLine::Memory
    }
}

/// Returns the index of the first space.
fn first_space(text: &[u8]) -> Option<usize>
    ensures place { result ≡ position (λ b. b == 32) text.now }
    ensures within { IfSome result (λ place. place < length text.now) }
{
    text.iter().position(|b| *b == b' ')
}

/// Splits `text` at its first space, which neither part keeps. Returns `None` if there is none.
fn cut(text: &[u8]) -> Option<(&[u8], &[u8])>
    ensures { option_map (λ f. (f.0.now, f.1.now)) result ≡ cut text.now }
{
    match first_space(text) {
        Some(place) => Some((text.split_at(place).0, text.split_at(place + 1).1)),
        None => None,
    }
}

/// Appends the decimal digit `b` to `n`. Returns `None` if `b` is no digit or the number reaches 2^64.
fn with_digit(n: u64, b: u8) -> Option<u64>
    ensures { result ≡ with_digit n b }
{
    if b < b'0' || b > b'9' {
        return None;
    }
    n.checked_mul(10)?.checked_add(u64::from(b - b'0'))
}

/// Parses decimal digits. Returns `None` if a byte is no digit or the number reaches 2^64.
fn digits(text: &[u8]) -> Option<u64>
    ensures { result ≡ digits_after 0 text.now }
{
    let mut n = 0;
    for b in text {
        n = with_digit(n, *b)?;
    }
    Some(n)
}

/// Parses a decimal number without sign and without leading zeros.
fn number(text: &[u8]) -> Option<u64>
    ensures { result ≡ number text.now }
{
    let (first, rest) = text.split_first()?;
    if *first == b'0' && !rest.is_empty() {
        return None;
    }
    digits(text)
}

/// Decodes hex digits, at least one pair, in either case.
fn piece(alloc: Global, text: &[u8]) -> Result<Text, BadLine>
    ensures { ReturnsIfThere result (piece text.now) }
{
    if text.is_empty() {
        return Err(BadLine::Malformed);
    }
    match hex::decode(alloc, text) {
        Ok(bytes) => Ok(Text::from_vec(bytes)?),
        Err(FromHexError::OutOfMemory) => Err(BadLine::Memory),
        Err(_) => Err(BadLine::Malformed),
    }
}

/// Returns `bytes` as text if they are UTF-8.
fn text_of(bytes: &[u8]) -> Option<&str>
    ensures { option_map (λ text. text.now) result ≡ if is_utf8 bytes.now then Some bytes.now else None }
{
    match str::from_utf8(bytes) {
        Ok(text) => Some(text),
        Err(_) => None,
    }
}

/// Parses a file's name: UTF-8, at least one byte, no space.
fn file_name(field: &[u8]) -> Option<&str>
    ensures { option_map (λ name. name.now) result ≡ file_name field.now }
{
    if field.is_empty() {
        return None;
    }
    match first_space(field) {
        Some(_) => None,
        None => text_of(field),
    }
}

/// Parses the line `open`, with `opened` connections opened before it.
fn opening(opened: u64) -> Option<Arrival>
    ensures { result ≡ opening opened }
{
    if opened >= MOST_OPENINGS {
        return None;
    }
    Some(Arrival::Open)
}

/// Parses the line `ready K`, whose `field` is K, with `opened` connections opened before it. Returns `None` if K is no number from 1 to 255,
/// or if no further connection may be opened.
fn ready(opened: u64, field: &[u8]) -> Option<Arrival>
    ensures { result ≡ ready opened field.now }
{
    let channels = number(field)?;
    if channels < 1 || channels > MOST_READY || opened >= MOST_OPENINGS {
        return None;
    }
    Some(Arrival::Ready(channels as u8))
}

/// Parses the number of a connection, from 1 to `opened`.
fn connection(opened: u64, field: &[u8]) -> Option<u64>
    ensures { result ≡ connection opened field.now }
{
    let c = number(field)?;
    if c < 1 || c > opened {
        return None;
    }
    Some(c)
}

/// Parses the fields C and HEX of the line `in C HEX`.
fn bytes_in(alloc: Global, opened: u64, c: &[u8], hex: &[u8]) -> Result<Arrival, BadLine>
    ensures { ReturnsIfThere result (bytes_in opened (c.now, hex.now)) }
{
    match connection(opened, c) {
        Some(c) => Ok(Arrival::In(c, piece(alloc, hex)?)),
        None => Err(BadLine::Malformed),
    }
}

/// Parses the fields C and N of the line `sent C N`.
fn sent(opened: u64, c: &[u8], count: &[u8]) -> Option<Arrival>
    ensures { result ≡ sent opened (c.now, count.now) }
{
    let c = connection(opened, c)?;
    let count = number(count)?;
    Some(Arrival::Sent(c, count))
}

/// Parses the field of the line `lose C`.
fn lost(opened: u64, c: &[u8]) -> Option<Arrival>
    ensures { result ≡ lost opened c.now }
{
    let c = connection(opened, c)?;
    Some(Arrival::Lose(c))
}

/// Parses three files' names, a field each.
fn names_of(
    alloc: Global,
    definitions: &[u8],
    guarantees: &[u8],
    certificates: &[u8],
) -> Result<ReloadFiles, BadLine>
    ensures { ReturnsIfThere result (names_of definitions.now guarantees.now certificates.now) }
{
    let definitions = file_name(definitions).ok_or(BadLine::Malformed)?;
    let guarantees = file_name(guarantees).ok_or(BadLine::Malformed)?;
    let certificates = file_name(certificates).ok_or(BadLine::Malformed)?;
    Ok(ReloadFiles::new(alloc, definitions, guarantees, certificates)?)
}

/// Parses three files' names, separated by single spaces.
fn three_names(alloc: Global, fields: &[u8]) -> Result<ReloadFiles, BadLine>
    ensures { ReturnsIfThere result (three_names fields.now) }
{
    let (definitions, rest) = cut(fields).ok_or(BadLine::Malformed)?;
    let (guarantees, certificates) = cut(rest).ok_or(BadLine::Malformed)?;
    names_of(alloc, definitions, guarantees, certificates)
}

/// Parses the fields of the line `reload DEFS GUARANTEES CERTS`.
fn reload(alloc: Global, fields: &[u8]) -> Result<Arrival, BadLine>
    ensures { ReturnsIfThere result (reload fields.now) }
{
    Ok(Arrival::Reload(three_names(alloc, fields)?))
}

/// Parses a line of several fields, whose first is `word` and whose others are `rest`.
fn by_word(alloc: Global, opened: u64, word: &[u8], rest: &[u8]) -> Result<Arrival, BadLine>
    ensures { ReturnsIfThere result (by_word opened (word.now, rest.now)) }
{
    if word == b"ready".as_slice() {
        return ready(opened, rest).ok_or(BadLine::Malformed);
    }
    if word == b"in".as_slice() {
        return match cut(rest) {
            Some((c, hex)) => bytes_in(alloc, opened, c, hex),
            None => Err(BadLine::Malformed),
        };
    }
    if word == b"sent".as_slice() {
        return match cut(rest) {
            Some((c, count)) => sent(opened, c, count).ok_or(BadLine::Malformed),
            None => Err(BadLine::Malformed),
        };
    }
    if word == b"lose".as_slice() {
        return lost(opened, rest).ok_or(BadLine::Malformed);
    }
    if word == b"reload".as_slice() {
        return reload(alloc, rest);
    }
    Err(BadLine::Malformed)
}

/// Parses a line that is not skipped.
fn arrival_of(alloc: Global, opened: u64, line: &[u8]) -> Result<Arrival, BadLine>
    ensures { ReturnsIfThere result (arrival_of opened line.now) }
{
    if line == b"open".as_slice() {
        return opening(opened).ok_or(BadLine::Malformed);
    }
    if line == b"pump".as_slice() {
        return Ok(Arrival::Pump);
    }
    match cut(line) {
        Some((word, rest)) => by_word(alloc, opened, word, rest),
        None => Err(BadLine::Malformed),
    }
}

/// Parses a line, with `opened` connections opened before it. An empty line, or one that begins with `#`, brings nothing.
pub fn line_of(alloc: Global, opened: u64, line: &[u8]) -> Result<Option<Arrival>, BadLine>
    ensures { ReturnsIfThere result (line_of opened line.now) }
{
    match line.first() {
        None => return Ok(None),
        Some(b'#') => return Ok(None),
        Some(_) => {}
    }
    Ok(Some(arrival_of(alloc, opened, line)?))
}
