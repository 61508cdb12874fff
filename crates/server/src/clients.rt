//! The command `serve`: judges its files, opens sockets, reports their address, and serves clients.
//!
//! Start with [`serve_clients`].

ghost use Rattle.std.specs.Prelude.{◌≡◌, IfOk, string_bytes};
ghost use Rattle.server.specs.Files.{AreKept};
ghost use Rattle.server.specs.Stated.{file_named};
ghost use Rattle.server.specs.Clients.{BeginsErr, BeginsOk, EndsNone, EndsSome, IsTaken, IsTurns, OpensSockets, ReportsAddress, StartsServer};
ghost use Rattle.server.specs.Clients.{listening_line};
ghost use Rattle.server.specs.Streams.{gain};

use crate::refusals::{CommandRefusal, Report, refuse, refuse_memory};
use crate::starting::started;
use crate::storage::Files;
use crate::streams::put;
use engine::Engine;
use serving::{Server, Wire, ghost_new_is_served, serve};
use std::alloc::{AllocError, Global};
use std::io::Write;

/// The arguments of `serve`.
#[derive(Clone, Copy, Drop)]
pub struct ServeArguments<'a> {
    pub definitions: &'a str,
    pub guarantees: &'a str,
    pub certificates: &'a str,
    /// The address at which clients connect.
    pub listen: &'a str,
    /// The number of turns to serve, as text.
    pub turns: Option<&'a str>,
}

/// Open sockets, and their address as it is reported.
#[derive(Drop)]
pub struct Listening<W> {
    pub sockets: W,
    pub address: String,
}

/// Opens the listening socket. The program gets its sockets from here, so that tests can serve clients in memory.
pub trait Listener {
    type Sockets: Wire + Drop;

    ghost use Rattle.std.specs.Prelude.{List, ℕ, Option, option_map, string_bytes};
    ghost use Rattle.server.specs.Clients.{Opened};

    // the outcomes that a call with this address may have
    ghost listens: { Self → List ℕ → Option Opened → Type 0 };

    /// Opens sockets at `address`. Returns `None` if it is no address, or if it can't listen there.
    fn listen(&mut self, alloc: Global, address: &str) -> Option<Listening<Self::Sockets>>
        ensures { listens self.old address.now (option_map (λ l. record { past = Self.Sockets.past l.sockets; address = string_bytes l.address }) result) };
}

/// The server of a broker, with its sockets.
#[derive(Drop)]
pub struct Service<W: Wire> {
    pub server: Server<Engine>,
    pub sockets: W,
}

/// The end of `serve`: its exit status, and, if it listened, the server and its sockets in their last state.
#[derive(Drop)]
pub struct Ended<W: Wire> {
    pub status: u8,
    pub service: Option<Service<W>>,
}

impl<W: Wire> Ended<W> {
    ghost use Rattle.std.specs.Prelude.{◌≡◌, None};

    /// Returns the end of a `serve` that served no client, with this exit status.
    pub fn without_clients(status: u8) -> Ended<W>
        ensures { result ≡ record { status = status; service = None } }
    {
        Ended {
            status,
            service: None,
        }
    }
}

/// Returns the number of turns to serve: `given`, or `u64::MAX` if there is none or it isn't a number below 2^64.
pub fn turns_of(given: Option<&str>) -> u64
    ensures { IsTurns (file_named given.entry) result }
{
    match given {
        Some(text) => text.parse::<u64>().unwrap_or(u64::MAX),
        None => u64::MAX,
    }
}

/// Returns the line that reports the address. Fails only if an allocation fails.
fn line_of(alloc: Global, address: &str) -> Result<String, AllocError>
    ensures { IfOk result (λ text. string_bytes text ≡ listening_line address.now) }
{
    format!(in alloc; "warren: listening on {address}\n")
}

/// Writes `text` to `out` and flushes it. Returns whether both succeeded.
fn put_at_once<O: Write>(out: &mut O, text: &[u8]) -> bool
    ensures { IsTaken (gain O.contents out.old out.new) text.now result }
{
    if put(out, text).is_err() {
        return false;
    }
    out.flush().is_ok()
}

/// Reports the address at which clients can connect. Fails with the exit status.
fn report_address<O: Write, E: Write>(
    alloc: Global,
    address: &str,
    out: &mut O,
    err: &mut E,
) -> Result<(), u8>
    ensures { ReportsAddress address.now (gain O.contents out.old out.new) (gain E.contents err.old err.new) result }
{
    let Ok(line) = line_of(alloc, address) else {
        return Err(refuse_memory(err));
    };
    if put_at_once(out, line.as_bytes()) {
        Ok(())
    } else {
        Err(4)
    }
}

/// Opens sockets at `address` and reports the address on `out`. Fails with the exit status.
fn open_sockets<L: Listener, O: Write, E: Write>(
    alloc: Global,
    address: &str,
    listener: &mut L,
    out: &mut O,
    err: &mut E,
) -> Result<L::Sockets, u8>
    ensures { OpensSockets (L.listens listener.old address.now) L.Sockets.past (gain O.contents out.old out.new) (gain E.contents err.old err.new) result }
{
    let Some(Listening { sockets, address }) = listener.listen(alloc, address) else {
        let why = CommandRefusal::NotListening;
        return Err(refuse(alloc, err, Report { file: "", why }));
    };
    match report_address(alloc, address.as_str(), out, err) {
        Ok(()) => Ok(sockets),
        Err(status) => Err(status),
    }
}

/// Starts a broker from the files of `asked`, and returns its server, without any connection.
fn new_server<'a, F: Files>(
    alloc: Global,
    asked: ServeArguments<'a>,
    files: &mut F,
) -> Result<Server<Engine>, Report<'a>>
    ensures starts { StartsServer (F.holds files.old) asked.entry result }
    ensures files { AreKept (F.holds files.old) (F.holds files.new) }
{
    let engine = match started(
        alloc,
        asked.definitions,
        asked.guarantees,
        asked.certificates,
        files,
    ) {
        Ok(engine) => engine,
        Err(report) => return Err(report),
    };
    match Server::new(alloc, engine) {
        Ok(server) => Ok(server),
        Err(error) => Err(Report::from(error)),
    }
}

/// Starts a service to which clients can connect.
///
/// The files are judged before sockets are opened, and none is changed. If the service can't start, reports that on `err` and
/// returns the exit status.
pub fn begin<L: Listener, F: Files, O: Write, E: Write>(
    alloc: Global,
    asked: ServeArguments<'_>,
    listener: &mut L,
    files: &mut F,
    out: &mut O,
    err: &mut E,
) -> Result<Service<L::Sockets>, u8>
    ensures ok { BeginsOk F.holds files.old asked.entry L.listens listener.old O.contents out.old out.new E.contents err.old err.new L.Sockets.past result }
    ensures err { BeginsErr F.holds files.old asked.entry L.listens listener.old listener.new O.contents out.old out.new E.contents err.old err.new result }
    ensures files { AreKept (F.holds files.old) (F.holds files.new) }
{
    let server = match new_server(alloc, asked, files) {
        Ok(server) => server,
        Err(report) => return Err(refuse(alloc, err, report)),
    };
    match open_sockets(alloc, asked.listen, listener, out, err) {
        Ok(sockets) => Ok(Service { server, sockets }),
        Err(status) => Err(status),
    }
}

/// Serves clients at the address `asked.listen`, with the topology and the guarantees of the files in `asked`. Changes no file.
///
/// The files are judged before the listener is called, and refused as [`program`] refuses them. The address is reported on `out`.
pub fn serve_clients<L: Listener, F: Files, O: Write, E: Write>(
    alloc: Global,
    asked: ServeArguments<'_>,
    listener: &mut L,
    files: &mut F,
    out: &mut O,
    err: &mut E,
) -> Ended<L::Sockets>
    ensures some { EndsSome F.holds files.old asked.entry L.listens listener.old O.contents out.old out.new E.contents err.old err.new L.Sockets.past result }
    ensures none { EndsNone F.holds files.old asked.entry L.listens listener.old listener.new O.contents out.old out.new E.contents err.old err.new result }
    ensures files { AreKept (F.holds files.old) (F.holds files.new) }
{
    let Service {
        mut server,
        mut sockets,
    } = match begin(alloc, asked, listener, files, out, err) {
        Ok(service) => service,
        Err(status) => return Ended::without_clients(status),
    };
    let turns = turns_of(asked.turns);
    ghost_new_is_served(&server, &sockets);
    serve(alloc, &mut server, &mut sockets, turns);
    Ended {
        status: 0,
        service: Some(Service { server, sockets }),
    }
}
