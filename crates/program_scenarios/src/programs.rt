//! Runs the program over the files and the sockets of the machine: files in the folder of the run, and sockets of 127.0.0.1.

use reload_loop::{Disk, MachineClock, System, program_with_sockets};
use scenario_parts::{Unmet, expect, expect_bytes, expect_number, value_of};
use server::{Files as _, Unread};
use std::alloc::Global;
use std::fs;
use std::net::TcpListener;

/// The outcome of running the program.
#[derive(Drop)]
struct Outcome {
    status: u8,
    out: Vec<u8>,
    err: Vec<u8>,
}

/// Runs the program with `words`, over the files and the sockets of the machine.
fn run(rt: &HostRuntime, words: &[&str]) -> Outcome {
    let alloc = rt.alloc();
    let mut out: Vec<u8> = Vec::new(alloc);
    let mut err: Vec<u8> = Vec::new(alloc);
    let mut files = Disk { rt };
    let mut system = System { rt };
    let mut clock = MachineClock::start(rt);
    let ended = program_with_sockets(
        alloc,
        words,
        &mut system,
        &mut files,
        &mut clock,
        &mut out,
        &mut err,
    );
    Outcome {
        status: ended.status,
        out,
        err,
    }
}

/// Checks that the program, run with `words`, ends with `status` and writes `out` and the complaint `err`.
fn expect_run(
    rt: &HostRuntime,
    words: &[&str],
    status: u64,
    out: &[u8],
    err: &[u8],
) -> Result<(), Unmet> {
    let run = run(rt, words);
    expect_number("the status", u64::from(run.status), status)?;
    expect_bytes("the output", run.out.as_slice(), out)?;
    expect_bytes("the complaint", run.err.as_slice(), err)
}

/// Definitions with a topic exchange, which routes `orders` and `orders.*.#` to the queue `audit`.
const TWO_KEYS: &str = "definitions/two_keys.json";

/// [`TWO_KEYS`] without the binding key `orders`.
const ONE_KEY: &str = "definitions/one_key.json";

/// The guarantee that each key that `orders.#` matches reaches `audit`.
const ORDERS: &str = "guarantees/orders_to_audit.json";

/// A file that doesn't exist.
const NO_FILE: &str = "definitions/nowhere.json";

/// The name of the file that is written.
const WRITTEN: &str = "certificates_that_were_written.json";

/// The bytes that are written to [`WRITTEN`]: the certificate with the five states that docs/FORMATS.md derives.
const CERTIFICATES: &[u8] =
    b"[{\"exchange\":\"X\",\"form\":1,\"mode\":\"reaches\",\"pattern\":\"orders.#\",\"queue\":\"audit\",\"states\":[[0,0,0],[1,1,1],[4,0,8],[4,0,12],[6,2,2]]}]";

/// Writes the certificates by the program.
fn write(rt: &HostRuntime) -> Result<(), Unmet> {
    let words = ["warren", "check", TWO_KEYS, ORDERS, "--out", WRITTEN];
    expect_run(rt, words.as_slice(), 0, b"1 yes states 5\n", b"")
}

/// Removes the written file.
fn remove(rt: &HostRuntime) -> Result<(), Unmet> {
    value_of("remove_file", fs::remove_file(rt, WRITTEN))
}

/// Checks that comparing the written file with `bytes` returns `is`.
fn expect_found(disk: &mut Disk<'_>, alloc: Global, bytes: &[u8], is: bool) -> Result<(), Unmet> {
    let found = value_of("has_bytes", disk.has_bytes(alloc, WRITTEN, bytes))?;
    expect("the file is compared rightly", found == is)
}

/// Checks that the written file has the bytes [`CERTIFICATES`].
fn expect_text(disk: &mut Disk<'_>, alloc: Global) -> Result<(), Unmet> {
    let text = value_of("read", disk.read(alloc, WRITTEN))?;
    expect_bytes("the file", text.as_slice(), CERTIFICATES)
}

/// Checks that the written file differs from a text that is longer: its bytes as numbers.
fn expect_not_longer(disk: &mut Disk<'_>, alloc: Global) -> Result<(), Unmet> {
    let longer = value_of("format", format!(in alloc; "{CERTIFICATES:?}"))?;
    expect_found(disk, alloc, longer.as_bytes(), false)
}

/// Checks that the written file differs from each of `parts`.
fn expect_no_part(disk: &mut Disk<'_>, alloc: Global, parts: &[&[u8]]) -> Result<(), Unmet> {
    for part in parts {
        expect_found(disk, alloc, part, false)?;
    }
    Ok(())
}

/// Checks that certificates that the program wrote are read back, accepted, and compared in parts.
pub(crate) fn a_file_that_is_written_is_read_back(rt: &HostRuntime) -> Result<(), Unmet> {
    let alloc = rt.alloc();
    let mut disk = Disk { rt };
    write(rt)?;
    expect_text(&mut disk, alloc)?;
    expect_found(&mut disk, alloc, CERTIFICATES, true)?;
    let parts: [&[u8]; 3] = [&CERTIFICATES[1..], &CERTIFICATES[..9], b""];
    expect_no_part(&mut disk, alloc, parts.as_slice())?;
    expect_not_longer(&mut disk, alloc)?;
    let words = ["warren", "verify", TWO_KEYS, ORDERS, WRITTEN];
    expect_run(rt, words.as_slice(), 0, b"1 ok\n", b"")?;
    remove(rt)
}

/// Returns `count` bytes 7, of which the last is `last`.
fn sevens(alloc: Global, count: usize, last: u8) -> Result<Vec<u8>, Unmet> {
    let mut bytes = value_of("vec", vec![in alloc; 7u8; count])?;
    if let Some(byte) = bytes.last_mut() {
        *byte = last;
    }
    Ok(bytes)
}

/// Checks that comparing the written file with `count` bytes 7, of which the last is `last`, returns `is`.
fn expect_sevens(
    disk: &mut Disk<'_>,
    alloc: Global,
    count: usize,
    last: u8,
    is: bool,
) -> Result<(), Unmet> {
    let bytes = sevens(alloc, count, last)?;
    expect_found(disk, alloc, bytes.as_slice(), is)
}

/// Writes a file of 100,000 bytes 7.
fn write_sevens(disk: &mut Disk<'_>, alloc: Global) -> Result<(), Unmet> {
    let bytes = sevens(alloc, 100_000, 7)?;
    value_of("write", disk.write(WRITTEN, bytes.as_slice()))
}

/// Checks that a file longer than a part is compared to its end, also if only the last byte differs.
pub(crate) fn a_long_file_is_compared_to_its_end(rt: &HostRuntime) -> Result<(), Unmet> {
    let alloc = rt.alloc();
    let mut disk = Disk { rt };
    write_sevens(&mut disk, alloc)?;
    expect_sevens(&mut disk, alloc, 100_000, 7, true)?;
    expect_sevens(&mut disk, alloc, 100_001, 7, false)?;
    expect_sevens(&mut disk, alloc, 99_999, 7, false)?;
    expect_sevens(&mut disk, alloc, 100_000, 8, false)?;
    remove(rt)
}

/// Checks that a file that doesn't exist is neither read nor compared.
pub(crate) fn a_file_that_is_not_there_is_unread(rt: &HostRuntime) -> Result<(), Unmet> {
    let alloc = rt.alloc();
    let mut disk = Disk { rt };
    let read = matches!(disk.read(alloc, NO_FILE), Err(Unread::Failed));
    expect("it cannot be read", read)?;
    let compared = matches!(disk.has_bytes(alloc, NO_FILE, b""), Err(Unread::Failed));
    expect("it cannot be compared", compared)
}

/// A command line of the program over files: its words, and what it has to end with.
#[derive(Clone, Copy, Drop)]
struct Command {
    words: &'static [&'static str],
    status: u64,
    out: &'static [u8],
    err: &'static [u8],
}

/// A command line for each exit status above 0 that docs/OPERATIONS.md lists.
const STATUSES: &[Command] = &[
    Command {
        words: &["warren", "check", ONE_KEY, ORDERS],
        status: 1,
        out: b"1 no key \"orders\"\n",
        err: b"",
    },
    Command {
        words: &[
            "warren",
            "check",
            "definitions/no_binding.json",
            "guarantees/long_to_q.json",
        ],
        status: 2,
        out: b"1 undecided key\n",
        err: b"",
    },
    Command {
        words: &["warren", "route", TWO_KEYS, "nowhere", "orders"],
        status: 3,
        out: b"",
        err: b"warren: no exchange\n",
    },
    Command {
        words: &["warren", "check", NO_FILE, ORDERS],
        status: 4,
        out: b"",
        err: b"warren: definitions/nowhere.json: cannot read\n",
    },
];

/// Checks what the program ends with for each of `commands`.
fn expect_commands(rt: &HostRuntime, commands: &[Command]) -> Result<(), Unmet> {
    for command in commands {
        expect_run(rt, command.words, command.status, command.out, command.err)?;
    }
    Ok(())
}

/// Checks each exit status that docs/OPERATIONS.md lists, over files on disk.
pub(crate) fn each_status_comes_of_files_of_the_machine(rt: &HostRuntime) -> Result<(), Unmet> {
    write(rt)?;
    remove(rt)?;
    expect_commands(rt, STATUSES)
}

/// Returns the words that ask to serve at `address` for three rounds, with a look at the files after each but the last.
fn words_to_serve(address: &str) -> [&str; 11] {
    [
        "warren", "serve", TWO_KEYS, ORDERS, WRITTEN, "--listen", address, "--turns", "3",
        "--reload", "1",
    ]
}

/// Checks that the program serves at a free port of this machine, and looks at its files, which are unchanged.
pub(crate) fn it_serves_at_a_port_that_is_free(rt: &HostRuntime) -> Result<(), Unmet> {
    write(rt)?;
    let run = run(rt, words_to_serve("127.0.0.1:0").as_slice());
    remove(rt)?;
    expect_number("the status", u64::from(run.status), 0)?;
    expect_bytes("the complaint", run.err.as_slice(), b"")?;
    let expected = b"warren: listening on 127.0.0.1:";
    expect(
        "the address is reported",
        run.out.as_slice().starts_with(expected.as_slice()),
    )
}

/// Checks that the program doesn't listen at a port at which another program listens.
pub(crate) fn it_does_not_listen_at_a_port_that_is_used(rt: &HostRuntime) -> Result<(), Unmet> {
    let alloc = rt.alloc();
    let other = value_of("TcpListener::bind", TcpListener::bind(rt, "127.0.0.1:0"))?;
    let address = value_of("local_addr", other.local_addr())?;
    let address = value_of("format", format!(in alloc; "{address}"))?;
    write(rt)?;
    let run = run(rt, words_to_serve(address.as_str()).as_slice());
    remove(rt)?;
    drop(other);
    expect_number("the status", u64::from(run.status), 4)?;
    expect_bytes("the output", run.out.as_slice(), b"")?;
    expect_bytes(
        "the complaint",
        run.err.as_slice(),
        b"warren: cannot listen\n",
    )
}
