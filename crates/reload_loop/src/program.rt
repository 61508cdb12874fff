//! The program with sockets: `serve` too, with looks at its files or without.

ghost use Rattle.std.specs.Prelude.{◌≡◌, None, option_map, IfSome, map};
ghost use Rattle.command_line.specs.CommandLine.{wanted_of};
ghost use Rattle.server.specs.Files.{AreKept};
ghost use Rattle.server.specs.Stated.{file_named};
ghost use Rattle.server.specs.Clients.{service_state};
ghost use Rattle.server.specs.Streams.{gain, status_after};
ghost use Rattle.reload_loop.specs.Program.{IfServed, IfUnserved, IsEvery, IsNotServe, RunsWithSockets, asked_by};

use crate::clock::Clock;
use crate::serving_on::serve_and_reload;
use crate::snapshots::{Names, Reading, Snapshot};
use command_line::{Asked, command};
use server::{
    Ended, Files, Listener, ServeArguments, Service, answer_asked, begin, refuse_words,
    serve_clients, turns_of,
};
use serving::ghost_new_is_served;
use std::alloc::Global;
use std::convert::AsStr;
use std::io::Write;

/// The arguments of `serve`.
#[derive(Clone, Copy, Drop)]
struct AskedToServe<'a> {
    arguments: ServeArguments<'a>,
    /// The number of rounds between two looks at the files, if they are looked at.
    every: Option<&'a str>,
}

/// The arguments of `serve` with `--reload`.
#[derive(Clone, Copy, Drop)]
struct ReloadArguments<'a> {
    arguments: ServeArguments<'a>,
    /// The number of rounds between two looks at the files, as text.
    every: &'a str,
}

/// Returns the arguments of `serve`, if `asked` is that command.
fn asked_to_serve(asked: Asked<'_>) -> Option<AskedToServe<'_>>
    ensures some { IfSome result (λ a. wanted_of asked.entry ≡ asked_by a.arguments (file_named a.every)) }
    ensures none { result ≡ None → IsNotServe (wanted_of asked.entry) }
{
    match asked {
        Asked::Serve {
            definitions,
            guarantees,
            certificates,
            listen,
            turns,
            reload,
        } => Some(AskedToServe {
            arguments: ServeArguments {
                definitions,
                guarantees,
                certificates,
                listen,
                turns,
            },
            every: reload,
        }),
        _ => None,
    }
}

/// Returns the number of rounds between two looks at the files: `given`, or 1 if that is 0 or not a number below 2^64.
fn every_of(given: &str) -> u64
    ensures { IsEvery given.now result }
{
    match given.parse::<u64>() {
        Ok(0) => 1,
        Ok(every) => every,
        Err(_) => 1,
    }
}

/// Returns the exit status of serving: 0 if standard error took each line whole, otherwise 4.
fn status_of(whole: bool) -> u8
    ensures { result ≡ status_after whole 0 }
{
    if whole { 0 } else { 4 }
}

/// Serves clients as `serve_clients` does, and looks at the files after every `every` rounds. No file is changed.
///
/// The files are read once before they are judged, so that what is in force was judged by the bytes that are kept. The
/// status is 4 if standard error did not take each line whole.
fn serve_reloading<L: Listener, F: Files, C: Clock, O: Write, E: Write>(
    alloc: Global,
    call: ReloadArguments<'_>,
    opener: &mut L,
    files: &mut F,
    clock: &mut C,
    out: &mut O,
    err: &mut E,
) -> Ended<L::Sockets>
    ensures yes { IfServed C.may F.holds files.old call.entry L.listens opener.old O.contents out.old out.new E.contents err.old err.new L.Sockets.past result }
    ensures no { IfUnserved C.may F.holds files.old call.entry L.listens opener.old opener.new O.contents out.old out.new E.contents err.old err.new result }
    ensures files { AreKept (F.holds files.old) (F.holds files.new) }
{
    let ReloadArguments { arguments, every } = call;
    let names = Names {
        definitions: arguments.definitions,
        guarantees: arguments.guarantees,
        certificates: arguments.certificates,
    };
    let mut kept = Snapshot::take(alloc, names, files);
    let mut reading = Reading {
        names,
        snapshot: &kept,
    };
    let Service {
        mut server,
        mut sockets,
    } = match begin(alloc, arguments, opener, &mut reading, out, err) {
        Ok(service) => service,
        Err(status) => return Ended::without_clients(status),
    };
    let turns = turns_of(arguments.turns);
    let every = every_of(every);
    ghost_new_is_served(&server, &sockets);
    let whole = serve_and_reload(
        alloc,
        &mut server,
        &mut sockets,
        names,
        &mut kept,
        files,
        clock,
        err,
        every,
        turns,
    );
    Ended {
        status: status_of(whole),
        service: Some(Service { server, sockets }),
    }
}

/// Does what the words ask for, `serve` too, and returns the exit status, and the server if clients were served.
///
/// Any other command is done as `server::program` does it. `serve` reports on `out` where clients connect, once its files are judged.
/// With `--reload` it looks at its files again while it serves; by `clock` it reports a refusal of them again after a minute.
pub fn program_with_sockets<S: AsStr, L: Listener, F: Files, C: Clock, O: Write, E: Write>(
    alloc: Global,
    words: &[S],
    listener: &mut L,
    files: &mut F,
    clock: &mut C,
    out: &mut O,
    err: &mut E,
) -> Ended<L::Sockets>
    ensures { RunsWithSockets C.may (map S.text words.now) (F.holds files.old) (F.holds files.new)
        (listener.new ≡ listener.old) (L.listens listener.old) (gain O.contents out.old out.new) (gain E.contents err.old err.new)
        (option_map (service_state L.Sockets.past) result.service) result.status }
{
    let asked = match command(alloc, words) {
        Ok(asked) => asked,
        Err(error) => return Ended::without_clients(refuse_words(err, &error)),
    };
    let AskedToServe { arguments, every } = match asked_to_serve(asked) {
        Some(asked) => asked,
        None => return Ended::without_clients(answer_asked(alloc, asked, files, out, err)),
    };
    match every {
        Some(every) => {
            let asked = ReloadArguments { arguments, every };
            serve_reloading(alloc, asked, listener, files, clock, out, err)
        }
        None => serve_clients(alloc, arguments, listener, files, out, err),
    }
}
