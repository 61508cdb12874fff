//! The program without sockets. Start with [`program`]: it decides a command's answer first, and then prints it.

ghost use Rattle.std.specs.Prelude.{map};
ghost use Rattle.clap.specs.Words.{kind_of};
ghost use Rattle.command_line.specs.CommandLine.{Check, wanted_of};
ghost use Rattle.server.specs.Files.{AreKept};
ghost use Rattle.server.specs.Stated.{file_named};
ghost use Rattle.server.specs.Streams.{gain};
ghost use Rattle.server.specs.Program.{RunsAs, ShowsError};
ghost use Rattle.server.specs.Performing.{AnswersOrNot, AnswersOrReports, AnswersRoute, AnswersVerify, GivesRoutes, PutsAnswer, RunsAsked};

use crate::file_refusals::RefusedFile;
use crate::filing::{draft_for, write_out};
use crate::judging::{Output, judge};
use crate::refusals::{CommandRefusal, Report, refuse, refuse_memory, report_of};
use crate::replaying::{BrokerFiles, replay};
use crate::routes::routed;
use crate::stated::{certificates_of, definitions_of, set_up};
use crate::storage::Files;
use crate::streams::{put, status_after};
use crate::verifying::verify;
use clap::Error;
use clap::error::ErrorKind;
use command_line::{Asked, command};
use std::alloc::Global;
use std::convert::AsStr;
use std::io::Write;

/// What a command prints, with its exit status, and the report of a file that it should have written but couldn't.
#[derive(Drop)]
struct Answered<'a> {
    output: Output,
    unwritten: Option<Report<'a>>,
}

impl<'a> From<Output> for Answered<'a> {
    ghost use Rattle.std.specs.Prelude.{◌≡◌, None};

    ghost from_gives = { λ output answered. (answered.output ≡ output) × (answered.unwritten ≡ None) };

    fn from(output: Output) -> Answered<'a> {
        Answered {
            output,
            unwritten: None,
        }
    }
}

/// Performs `check DEFS GUARANTEES`: returns the verdict on each guarantee. If `out` is given and all guarantees hold, writes the
/// certificates to that file; if they can't be written, returns the verdicts all the same, and why they can't.
fn check<'a, F: Files>(
    alloc: Global,
    definitions: &'a str,
    guarantees: &'a str,
    out: Option<&'a str>,
    files: &mut F,
) -> Result<Answered<'a>, Report<'a>>
    ensures { AnswersOrNot (F.holds files.old) (F.holds files.new) (Check definitions.now guarantees.now (file_named out.entry)) result }
{
    let setup = match set_up(alloc, Some(definitions), Some(guarantees), files) {
        Ok(setup) => setup,
        Err(refused) => return Err(report_of(refused)),
    };
    let draft = draft_for(alloc, out);
    let (output, draft) = match judge(alloc, &setup.topology, setup.guarantees.as_slice(), draft) {
        Ok(judged) => judged,
        Err(error) => return Err(Report::from(error)),
    };
    match write_out(out, output.status, draft, files) {
        Ok(_) => Ok(Answered::from(output)),
        Err(report) => Ok(Answered {
            output,
            unwritten: Some(report),
        }),
    }
}

/// Performs `verify DEFS GUARANTEES CERTS`: returns whether the certificate of each guarantee is accepted.
fn verify_files<'a, F: Files>(
    alloc: Global,
    definitions: &'a str,
    guarantees: &'a str,
    certificates: &'a str,
    files: &mut F,
) -> Result<Output, Report<'a>>
    ensures answers { AnswersVerify (F.holds files.old) definitions.now guarantees.now certificates.now result }
    ensures files { AreKept (F.holds files.old) (F.holds files.new) }
{
    let setup = match set_up(alloc, Some(definitions), Some(guarantees), files) {
        Ok(setup) => setup,
        Err(refused) => return Err(report_of(refused)),
    };
    let certificates = match certificates_of(alloc, Some(certificates), files) {
        Ok(certificates) => certificates,
        Err(refused) => return Err(report_of(refused)),
    };
    match verify(
        alloc,
        &setup.topology,
        setup.guarantees.as_slice(),
        certificates.as_slice(),
    ) {
        Ok(output) => Ok(output),
        Err(error) => Err(Report::from(error)),
    }
}

/// Returns the lines of the queues to which `key` leads from `exchange`, by the definitions in `file`. Returns `None` if there is
/// no such exchange.
fn routed_file<'a, F: Files>(
    alloc: Global,
    file: &'a str,
    exchange: &str,
    key: &str,
    files: &mut F,
) -> Result<Option<Vec<u8>>, RefusedFile<'a>>
    ensures lists { GivesRoutes (F.holds files.old) file.now exchange.now key.now result }
    ensures files { AreKept (F.holds files.old) (F.holds files.new) }
{
    let definitions = match definitions_of(alloc, file, files) {
        Ok(definitions) => definitions,
        Err(refused) => return Err(refused),
    };
    match routed(
        alloc,
        definitions.topology(),
        exchange.as_bytes(),
        key.as_bytes(),
    ) {
        Ok(listed) => Ok(listed),
        Err(error) => Err(RefusedFile::from(error)),
    }
}

/// Performs `route DEFS EXCHANGE KEY`: returns the queues to which the key leads from the exchange.
fn route<'a, F: Files>(
    alloc: Global,
    definitions: &'a str,
    exchange: &str,
    key: &str,
    files: &mut F,
) -> Result<Output, Report<'a>>
    ensures answers { AnswersRoute (F.holds files.old) definitions.now exchange.now key.now result }
    ensures files { AreKept (F.holds files.old) (F.holds files.new) }
{
    match routed_file(alloc, definitions, exchange, key, files) {
        Ok(Some(text)) => Ok(Output { text, status: 0 }),
        Ok(None) => Err(Report {
            file: definitions,
            why: CommandRefusal::NoExchange,
        }),
        Err(refused) => Err(report_of(refused)),
    }
}

/// Performs a command and returns its answer. If it is refused, reports that on `err` and returns the exit status. `serve` is
/// always refused here, since this call has no sockets.
fn answer<'a, F: Files, E: Write>(
    alloc: Global,
    asked: Asked<'a>,
    files: &mut F,
    err: &mut E,
) -> Result<Answered<'a>, u8>
    ensures { AnswersOrReports (F.holds files.old) (F.holds files.new) (wanted_of asked.entry) (gain E.contents err.old err.new) result }
{
    match asked {
        Asked::Check {
            definitions,
            guarantees,
            out,
        } => match check(alloc, definitions, guarantees, out, files) {
            Ok(answered) => Ok(answered),
            Err(report) => Err(refuse(alloc, err, report)),
        },
        Asked::Verify {
            definitions,
            guarantees,
            certificates,
        } => match verify_files(alloc, definitions, guarantees, certificates, files) {
            Ok(output) => Ok(Answered::from(output)),
            Err(report) => Err(refuse(alloc, err, report)),
        },
        Asked::Replay {
            script,
            definitions,
            guarantees,
            certificates,
        } => {
            let named = BrokerFiles {
                definitions,
                guarantees,
                certificates,
            };
            match replay(alloc, script, named, files, err) {
                Ok(output) => Ok(Answered::from(output)),
                Err(status) => Err(status),
            }
        }
        Asked::Serve { .. } => {
            let why = CommandRefusal::NotListening;
            Err(refuse(alloc, err, Report { file: "", why }))
        }
        Asked::Route {
            definitions,
            exchange,
            key,
        } => match route(alloc, definitions, exchange, key, files) {
            Ok(output) => Ok(Answered::from(output)),
            Err(report) => Err(refuse(alloc, err, report)),
        },
    }
}

/// Prints a command's answer, then reports a file that couldn't be written, and returns the exit status.
fn put_answer<O: Write, E: Write>(
    alloc: Global,
    answered: Answered<'_>,
    out: &mut O,
    err: &mut E,
) -> u8
    ensures { PutsAnswer (gain O.contents out.old out.new) (gain E.contents err.old err.new) answered.entry result }
{
    let Answered { output, unwritten } = answered;
    let status = status_after(put(out, output.text.as_slice()), output.status);
    match unwritten {
        None => status,
        Some(report) => refuse(alloc, err, report),
    }
}

/// Reports why a command line is refused, and returns the exit status.
pub fn refuse_words<E: Write>(err: &mut E, error: &Error) -> u8
    ensures { ShowsError (kind_of error.now) (gain E.contents err.old err.new) result }
{
    match error.kind() {
        ErrorKind::OutOfMemory => refuse_memory(err),
        _ => status_after(write!(err, "{error}"), 3),
    }
}

/// Performs the command `asked` and returns the exit status. `serve` is refused here: this call has no sockets.
pub fn answer_asked<F: Files, O: Write, E: Write>(
    alloc: Global,
    asked: Asked<'_>,
    files: &mut F,
    out: &mut O,
    err: &mut E,
) -> u8
    ensures { RunsAsked asked.entry (F.holds files.old) (F.holds files.new) (gain O.contents out.old out.new) (gain E.contents err.old err.new) result }
{
    match answer(alloc, asked, files, err) {
        Ok(answered) => put_answer(alloc, answered, out, err),
        Err(status) => status,
    }
}

/// Performs what `words` ask for, and returns the exit status. The first word is the program's name.
///
/// The status is 0 on success. It is 1 if a guarantee is broken, or if `verify` doesn't accept a certificate; 2 if no guarantee
/// is broken and one is undecided; 3 if a file, a certificate or the command line is refused, or the exchange doesn't exist; 4 if
/// an allocation, an input or an output failed.
///
/// A command prints to `out`, and refusals are reported on `err`. If `check` can't write its file it prints the verdicts, and
/// then reports that. `serve` is refused as if it could not listen: `reload_loop::program_with_sockets` serves.
pub fn program<S: AsStr, F: Files, O: Write, E: Write>(
    alloc: Global,
    words: &[S],
    files: &mut F,
    out: &mut O,
    err: &mut E,
) -> u8
    ensures { RunsAs (map S.text words.now) (F.holds files.old) (F.holds files.new) (gain O.contents out.old out.new) (gain E.contents err.old err.new) result }
{
    let asked = match command(alloc, words) {
        Ok(asked) => asked,
        Err(error) => return refuse_words(err, &error),
    };
    answer_asked(alloc, asked, files, out, err)
}
