//! `serve` over sockets of the system.

ghost use Rattle.std.specs.Prelude.{⊤};

use crate::clocks::Ticking;
use crate::disk::{ScenarioDisk, words_of};
use reload_loop::program_with_sockets;
use scenario_parts::{
    Closed, Unmet, Watched, expect, expect_bytes, expect_number, expect_opened_and_acked,
    opening_and_publish, value_of,
};
use server::{Ended, Listener, Listening};
use sockets::Sockets;
use std::alloc::Global;
use std::io;
use std::io::{Read as _, Write, Write as _};
use std::net::{Net, SocketAddr, TcpStream};

/// Opens sockets of the system. A client connects to them at once, and writes an opening and a publish.
#[derive(Drop)]
struct Visited<N: Net> {
    net: N,
    client: Option<N::Stream>,
    /// The number of times that sockets were requested.
    asked: u64,
}

/// Connects a client to `sockets`. It writes everything at once.
fn visit<N: Net>(net: &N, alloc: Global, sockets: &Sockets) -> Result<N::Stream, Unmet> {
    let address = value_of("Sockets::local_addr", sockets.local_addr())?;
    let mut client = value_of("TcpStream::connect", TcpStream::connect(net, address))?;
    let bytes = opening_and_publish(alloc)?;
    value_of("write_all", client.write_all(bytes.as_slice()))?;
    Ok(client)
}

impl<N: Net> Listener for Visited<N> {
    type Sockets = Watched<Sockets>;

    ghost listens = { λ _ _ _. ⊤ };

    fn listen(&mut self, alloc: Global, address: &str) -> Option<Listening<Watched<Sockets>>> {
        self.asked = self.asked.saturating_add(1);
        let address = address.parse::<SocketAddr>().ok()?;
        let sockets = Sockets::bind(&self.net, alloc, address).ok()?;
        self.client = visit(&self.net, alloc, &sockets).ok();
        let address = sockets.local_addr().ok()?;
        Some(Listening {
            sockets: Watched::new(sockets),
            address: format!(in alloc; "{address}").ok()?,
        })
    }
}

/// An address of this machine with a free port.
const FREE: &str = "127.0.0.1:0";

/// How serving ended.
#[derive(Drop)]
struct ServeOutcome<N: Net> {
    ended: Ended<Watched<Sockets>>,
    listener: Visited<N>,
    err: Vec<u8>,
}

/// Calls the program to serve the file `definitions` at `address`, for 16 rounds.
fn serve<'a, N: Net, O: Write>(
    net: &'a N,
    alloc: Global,
    definitions: &str,
    address: &str,
    out: &mut O,
) -> Result<ServeOutcome<&'a N>, Unmet> {
    let mut listener = Visited {
        net,
        client: None,
        asked: 0,
    };
    let mut disk = ScenarioDisk { script: b"[" };
    let mut clock = Ticking::by(0);
    let mut err: Vec<u8> = Vec::new(alloc);
    let line = value_of(
        "format",
        format!(in alloc;
            "warren serve {definitions} guarantees certificates --listen {address} --turns 16"
        ),
    )?;
    let words = words_of(alloc, line.as_str())?;
    let ended = program_with_sockets(
        alloc,
        words.as_slice(),
        &mut listener,
        &mut disk,
        &mut clock,
        out,
        &mut err,
    );
    Ok(ServeOutcome {
        ended,
        listener,
        err,
    })
}

/// Checks that no client was served, that the program ended with `status`, and that sockets were requested `asked` times.
fn expect_unserved<N: Net>(served: &ServeOutcome<N>, status: u64, asked: u64) -> Result<(), Unmet> {
    expect_number("the status", u64::from(served.ended.status), status)?;
    expect("no client was served", served.ended.service.is_none())?;
    expect_number(
        "how often sockets were asked for",
        served.listener.asked,
        asked,
    )
}

/// Checks that `out` names the address at which `sockets` listen.
fn expect_address(alloc: Global, sockets: &Sockets, out: &[u8]) -> Result<(), Unmet> {
    let address = value_of("Sockets::local_addr", sockets.local_addr())?;
    let line = value_of(
        "format",
        format!(in alloc; "warren: listening on {address}\n"),
    )?;
    expect_bytes("the output", out, line.as_bytes())
}

/// Checks what the sockets of a program that ended did: they were asked for 16 clients, and `out` names their address.
fn expect_served(alloc: Global, ended: &Ended<Watched<Sockets>>, out: &[u8]) -> Result<(), Unmet> {
    expect_number("the status", u64::from(ended.status), 0)?;
    match &ended.service {
        Some(service) => {
            expect_number("the number of turns", service.sockets.accepts, 16)?;
            expect_address(alloc, &service.sockets.sockets, out)
        }
        None => Err(Unmet::Call("serve")),
    }
}

/// Checks that a client whose server has gone reads the answer to its opening and its publish.
fn expect_answered<S: io::Read + Drop>(alloc: Global, client: Option<S>) -> Result<(), Unmet> {
    let Some(mut client) = client else {
        return Err(Unmet::Call("the client"));
    };
    let mut answer: Vec<u8> = Vec::new(alloc);
    value_of("read_to_end", client.read_to_end(&mut answer))?;
    expect_opened_and_acked(alloc, answer.as_slice())
}

/// Checks that a client of `serve` is served: the address is reported, and as many rounds are served as were requested.
pub(crate) fn serve_tells_where_it_listens_and_ends_after_its_turns<N: Net>(
    net: &N,
    alloc: Global,
) -> Result<(), Unmet> {
    let mut out: Vec<u8> = Vec::new(alloc);
    let ServeOutcome {
        ended,
        listener,
        err,
    } = serve(net, alloc, "definitions", FREE, &mut out)?;
    expect("there is no complaint", err.is_empty())?;
    let outcome = expect_served(alloc, &ended, out.as_slice());
    // its socket ends with the server: then the client reads to the end
    drop(ended);
    outcome?;
    expect_answered(alloc, listener.client)
}

/// Checks that no socket is opened if a file is refused.
pub(crate) fn serve_judges_its_files_before_it_listens<N: Net>(
    net: &N,
    alloc: Global,
) -> Result<(), Unmet> {
    let mut out: Vec<u8> = Vec::new(alloc);
    let served = serve(net, alloc, "script", FREE, &mut out)?;
    expect_unserved(&served, 3, 0)?;
    expect("there is no output", out.is_empty())?;
    expect_bytes(
        "the complaint",
        served.err.as_slice(),
        b"warren: script: refused 1\n",
    )
}

/// Checks that an invalid address is reported, and no client served.
pub(crate) fn serve_tells_that_it_cannot_listen<N: Net>(
    net: &N,
    alloc: Global,
) -> Result<(), Unmet> {
    let mut out: Vec<u8> = Vec::new(alloc);
    let served = serve(net, alloc, "definitions", "nowhere", &mut out)?;
    expect_unserved(&served, 4, 1)?;
    expect("there is no output", out.is_empty())?;
    expect_bytes(
        "the complaint",
        served.err.as_slice(),
        b"warren: cannot listen\n",
    )
}

/// Checks that no client is served if the address can't be reported.
pub(crate) fn serve_ends_where_its_address_is_not_taken<N: Net>(
    net: &N,
    alloc: Global,
) -> Result<(), Unmet> {
    let served = serve(net, alloc, "definitions", FREE, &mut Closed)?;
    expect_unserved(&served, 4, 1)?;
    expect("there is no complaint", served.err.is_empty())
}
