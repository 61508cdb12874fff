//! Why a command is refused, and the messages that report it.

ghost use Rattle.std.specs.Prelude.{◌≡◌, ◌++◌, ◌∷◌, [], codes, decimal, is_ok, IfOk, string_bytes};
ghost use Rattle.server.specs.Refusals.{of_refused};
ghost use Rattle.server.specs.Program.{refusal_line, out_of_memory, status_of, message_about, RefusesWith, WritesLine};
ghost use Rattle.server.specs.Streams.{PutsOut, TriesPut, change};

use crate::file_refusals::{FileRefusal, RefusedFile};
use crate::storage::Unread;
use crate::streams::{put, status_after};
use std::alloc::{AllocError, Global};
use std::io;
use std::io::Write;

/// The message for an allocation failure.
const OUT_OF_MEMORY: &str = "warren: memory\n";

/// The message for an exchange that doesn't exist.
const NO_EXCHANGE: &str = "warren: no exchange\n";

/// The message for an address at which it can't listen.
const NOT_LISTENING: &str = "warren: cannot listen\n";

/// Why a command is refused.
#[derive(Clone, Copy, PartialEq, Eq, Debug, Drop)]
pub enum CommandRefusal {
    /// This line of the script, counted from 1, is at fault.
    Line(u64),
    /// The cause of this number applies to the file, and none of a lower number.
    Refused(u8),
    /// The file is too long.
    TooLong,
    /// The file cannot be read.
    Unread,
    /// The file cannot be opened, since no descriptor is free.
    NoDescriptor,
    /// The file cannot be written.
    Unwritten,
    /// The file has no exchange of the name that the command gives.
    NoExchange,
    /// Guarantee or certificate `number`, counted from 1, is at fault: its certificate has the fault `fault`; or, with fault 5, the guarantee has no
    /// certificate, or the certificate has no guarantee.
    Certificate { number: u64, fault: u8 },
    /// The program can't listen at the given address.
    NotListening,
    /// An allocation failed.
    Memory,
}

/// Why a command prints nothing, or writes no file, and the file concerned.
#[derive(Clone, Copy, PartialEq, Eq, Debug, Drop)]
pub struct Report<'a> {
    /// The name of the file; may be empty if the refusal concerns none.
    pub file: &'a str,
    pub why: CommandRefusal,
}

impl From<AllocError> for CommandRefusal {
    ghost use Rattle.std.specs.Prelude.{◌≡◌};
    ghost use Rattle.server.specs.declared.refusals.CommandRefusal.TheVariants.{Memory};

    ghost from_gives = { λ _ r. r ≡ Memory };

    fn from(_: AllocError) -> CommandRefusal {
        CommandRefusal::Memory
    }
}

impl From<Unread> for CommandRefusal {
    ghost use Rattle.std.specs.Prelude.{◌≡◌};
    ghost use Rattle.server.specs.Refusals.{of_unread};

    ghost from_gives = { λ why r. r ≡ of_unread why };

    fn from(why: Unread) -> CommandRefusal {
        match why {
            Unread::Failed => CommandRefusal::Unread,
            Unread::NoDescriptor => CommandRefusal::NoDescriptor,
            Unread::TooLong => CommandRefusal::TooLong,
            Unread::Memory => CommandRefusal::Memory,
        }
    }
}

impl From<FileRefusal> for CommandRefusal {
    ghost use Rattle.std.specs.Prelude.{◌≡◌};
    ghost use Rattle.server.specs.Refusals.{of_refused};

    ghost from_gives = { λ why r. r ≡ of_refused why };

    fn from(why: FileRefusal) -> CommandRefusal {
        match why {
            FileRefusal::Refused(number) => CommandRefusal::Refused(number),
            FileRefusal::TooLong => CommandRefusal::TooLong,
            FileRefusal::Unread => CommandRefusal::Unread,
            FileRefusal::NoDescriptor => CommandRefusal::NoDescriptor,
            FileRefusal::Memory => CommandRefusal::Memory,
        }
    }
}

impl<'a> From<AllocError> for Report<'a> {
    ghost use Rattle.std.specs.Prelude.{◌≡◌};
    ghost use Rattle.server.specs.declared.refusals.CommandRefusal.TheVariants.{Memory};

    ghost from_gives = { λ _ r. r.why ≡ Memory };

    fn from(_: AllocError) -> Report<'a> {
        Report {
            file: "",
            why: CommandRefusal::Memory,
        }
    }
}

/// Converts the refusal of a file to the refusal of the command that names it.
pub(crate) fn report_of(refused: RefusedFile<'_>) -> Report<'_>
    ensures file { result.file.now ≡ refused.entry.file.now }
    ensures why { result.why ≡ of_refused refused.entry.why }
{
    Report {
        file: refused.file,
        why: CommandRefusal::from(refused.why),
    }
}

/// Returns the message that says `what` about `file`. Fails only if an allocation fails.
fn file_message(alloc: Global, file: &str, what: &str) -> Result<String, AllocError>
    ensures { IfOk result (λ text. string_bytes text ≡ message_about file.now what.now) }
{
    format!(in alloc; "warren: {file}: {what}\n")
}

/// Returns the message that says `what` and the number `n` about `file`. Fails only if an allocation fails.
fn numbered_message(alloc: Global, file: &str, what: &str, n: u64) -> Result<String, AllocError>
    ensures { IfOk result (λ text. string_bytes text ≡ codes "warren: " ++ (file.now ++ (codes ": " ++ (what.now ++ 32 ∷ (decimal n ++ 10 ∷ []))))) }
{
    format!(in alloc; "warren: {file}: {what} {n}\n")
}

/// Returns the message that certificate `number` has this fault. Fails only if an allocation fails.
fn certificate_message(alloc: Global, number: u64, fault: u8) -> Result<String, AllocError>
    ensures { IfOk result (λ text. string_bytes text ≡ codes "warren: certificate " ++ (decimal number ++ (codes ": fault " ++ (decimal fault ++ 10 ∷ [])))) }
{
    format!(in alloc; "warren: certificate {number}: fault {fault}\n")
}

/// Returns the message of a refusal. Fails only if an allocation fails.
fn message(alloc: Global, file: &str, refusal: CommandRefusal) -> Result<String, AllocError>
    ensures { IfOk result (λ text. string_bytes text ≡ refusal_line file.now refusal) }
{
    match refusal {
        CommandRefusal::Line(n) => numbered_message(alloc, file, "line", n),
        CommandRefusal::Refused(n) => numbered_message(alloc, file, "refused", u64::from(n)),
        CommandRefusal::TooLong => file_message(alloc, file, "refused 10"),
        CommandRefusal::Unread => file_message(alloc, file, "cannot read"),
        CommandRefusal::NoDescriptor => file_message(alloc, file, "no descriptor is free"),
        CommandRefusal::Unwritten => file_message(alloc, file, "cannot write"),
        CommandRefusal::NoExchange => String::from_str(alloc, NO_EXCHANGE),
        CommandRefusal::Certificate { number, fault } => certificate_message(alloc, number, fault),
        CommandRefusal::NotListening => String::from_str(alloc, NOT_LISTENING),
        CommandRefusal::Memory => String::from_str(alloc, OUT_OF_MEMORY),
    }
}

/// Returns the exit status of a refusal: 3 if something is refused, 4 if an allocation, an input or an output failed.
fn status_of(refusal: CommandRefusal) -> u8
    ensures { result ≡ status_of refusal }
{
    match refusal {
        CommandRefusal::Line(_) => 3,
        CommandRefusal::Refused(_) => 3,
        CommandRefusal::TooLong => 3,
        CommandRefusal::Unread => 4,
        CommandRefusal::NoDescriptor => 4,
        CommandRefusal::Unwritten => 4,
        CommandRefusal::NoExchange => 3,
        CommandRefusal::Certificate { .. } => 3,
        CommandRefusal::NotListening => 4,
        CommandRefusal::Memory => 4,
    }
}

/// Writes the message for an allocation failure to `err`. If a write fails, a proper prefix of the message was written.
pub fn put_out_of_memory<E: Write>(err: &mut E) -> io::Result<()>
    ensures { PutsOut (change (E.contents err.old) (E.contents err.new)) out_of_memory (is_ok result) }
{
    put(err, OUT_OF_MEMORY.as_bytes())
}

/// Writes the message of a refusal to `err`, or the message for an allocation failure if building the message fails. If a write
/// fails, a proper prefix was written.
pub fn put_refusal<E: Write>(alloc: Global, err: &mut E, report: Report<'_>) -> io::Result<()>
    ensures { WritesLine (change (E.contents err.old) (E.contents err.new)) (refusal_line report.entry.file.now report.entry.why) (is_ok result) }
{
    match message(alloc, report.file, report.why) {
        Ok(text) => put(err, text.as_bytes()),
        Err(_) => put_out_of_memory(err),
    }
}

/// Reports an allocation failure, and returns the exit status.
pub fn refuse_memory<E: Write>(err: &mut E) -> u8
    ensures { TriesPut (change (E.contents err.old) (E.contents err.new)) out_of_memory 4 result }
{
    status_after(put_out_of_memory(err), 4)
}

/// Reports why a command is refused, and returns the exit status.
pub fn refuse<E: Write>(alloc: Global, err: &mut E, report: Report<'_>) -> u8
    ensures { RefusesWith (change (E.contents err.old) (E.contents err.new)) report.entry.file.now report.entry.why result }
{
    match message(alloc, report.file, report.why) {
        Ok(text) => status_after(put(err, text.as_bytes()), status_of(report.why)),
        Err(_) => refuse_memory(err),
    }
}
