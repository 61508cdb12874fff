//! `serve --reload`, with a client in memory and files that are replaced between looks.

ghost use Rattle.std.specs.Prelude.{⊤};

use crate::clocks::Ticking;
use crate::disk::{read_bytes, words_of};
use memory_wire::{Client, MemoryWire};
use reload_loop::program_with_sockets;
use scenario_parts::{
    Closed, GET_EMPTY, MESSAGE, OPENED, OPENING, Unmet, expect, expect_bytes, expect_number,
    joined, memory_client, value_of,
};
use server::{Files, Listener, Listening, NotWritten, Unread};
use std::alloc::{AllocError, Global};
use std::io::Write;

/// The front of a definitions file: the user bob, whose password is `wonder`, and the exchange `orders`, up to the first queue.
/// The hash comes from another implementation of SHA-256.
const FRONT: &[u8] =
    b"{\"vhosts\":[{\"name\":\"/\"}],\"users\":[{\"name\":\"bob\",\"password_hash\":\"AP8QIP1+hc366UvtXAK3UQ+rq8L0LES3C50CEYORrkee+cR/\",\"hashing_algorithm\":\"rabbit_password_hashing_sha256\"}],\"permissions\":[{\"user\":\"bob\",\"vhost\":\"/\",\"configure\":\"^$\",\"write\":\".*\",\"read\":\".*\"}],\"exchanges\":[{\"name\":\"orders\",\"vhost\":\"/\",\"type\":\"direct\",\"durable\":true,\"auto_delete\":false,\"internal\":false,\"arguments\":{}}],\"queues\":[";

/// The queue `audit`, with another after it.
const AUDIT: &[u8] =
    b"{\"name\":\"audit\",\"vhost\":\"/\",\"durable\":true,\"auto_delete\":false,\"arguments\":{}},";

/// The queue `stock`, the last one.
const STOCK: &[u8] =
    b"{\"name\":\"stock\",\"vhost\":\"/\",\"durable\":true,\"auto_delete\":false,\"arguments\":{}}";

/// The end of a definitions file: `orders` routes the key `new` to `audit`.
const TO_AUDIT: &[u8] =
    b"],\"bindings\":[{\"source\":\"orders\",\"vhost\":\"/\",\"destination\":\"audit\",\"destination_type\":\"queue\",\"routing_key\":\"new\",\"arguments\":{}}]}";

/// The end of a definitions file: `orders` routes the key `new` to `stock`.
const TO_STOCK: &[u8] =
    b"],\"bindings\":[{\"source\":\"orders\",\"vhost\":\"/\",\"destination\":\"stock\",\"destination_type\":\"queue\",\"routing_key\":\"new\",\"arguments\":{}}]}";

/// The queue `audit`, followed by a comma, for one more queue. Messages rejected in `audit` are dead-lettered to `stock`.
const DYING_AUDIT: &[u8] =
    b"{\"name\":\"audit\",\"vhost\":\"/\",\"durable\":true,\"auto_delete\":false,\"arguments\":{\"x-dead-letter-exchange\":\"\",\"x-dead-letter-routing-key\":\"stock\"}},";

/// The end of a definitions file: there are no bindings.
const TO_NOTHING: &[u8] = b"],\"bindings\":[]}";

/// A guarantees file without guarantees.
const NO_GUARANTEES: &[u8] = b"{\"guarantees\":[]}";

/// A certificates file without certificates.
const NO_CERTIFICATES: &[u8] = b"[]";

/// The guarantee that a message published to `orders` with the key `new` reaches `stock`.
const GUARANTEES: &[u8] =
    b"{\"guarantees\":[{\"mode\":\"reaches\",\"exchange\":\"orders\",\"pattern\":\"new\",\"queue\":\"stock\"}]}";

/// The certificate of [`GUARANTEES`].
/// Two patterns are tracked, the guarantee's and the binding key, which are alike. Its states are those of no word so far, of `new`, and of
/// all else.
const CERTIFICATES: &[u8] =
    b"[{\"exchange\":\"orders\",\"form\":1,\"mode\":\"reaches\",\"pattern\":\"new\",\"queue\":\"stock\",\"states\":[[0,0],[1,1],[2,2]]}]";

/// The guarantee that a message published to `orders` with the key `new` never reaches `stock`.
const FORBIDDEN: &[u8] =
    b"{\"guarantees\":[{\"mode\":\"never\",\"exchange\":\"orders\",\"pattern\":\"new\",\"queue\":\"stock\"}]}";

/// The certificate of [`FORBIDDEN`].
/// One pattern is tracked, the guarantee's. Its states are those of all else, of no word so far, and of `new`.
const FORBIDDEN_CERTIFICATES: &[u8] =
    b"[{\"exchange\":\"orders\",\"form\":1,\"mode\":\"never\",\"pattern\":\"new\",\"queue\":\"stock\",\"states\":[[0],[1],[2]]}]";

/// The three files as they are at one look.
#[derive(Clone, Copy, Drop)]
struct Version {
    /// The definitions, in pieces.
    definitions: &'static [&'static [u8]],
    guarantees: &'static [u8],
    certificates: &'static [u8],
}

/// `orders` routes to `audit`.
const STARTED: Version = Version {
    definitions: &[FRONT, AUDIT, STOCK, TO_AUDIT],
    guarantees: NO_GUARANTEES,
    certificates: NO_CERTIFICATES,
};

/// Definitions that end too early.
const BROKEN_OFF: Version = Version {
    definitions: &[FRONT, AUDIT],
    guarantees: NO_GUARANTEES,
    certificates: NO_CERTIFICATES,
};

/// `orders` routes to `stock`, as is guaranteed, but there is no certificate.
const UNCERTIFIED: Version = Version {
    definitions: &[FRONT, AUDIT, STOCK, TO_STOCK],
    guarantees: GUARANTEES,
    certificates: NO_CERTIFICATES,
};

/// `orders` routes to `stock`, as is guaranteed and certified, and there is no queue `audit`.
const WITHOUT_AUDIT: Version = Version {
    definitions: &[FRONT, STOCK, TO_STOCK],
    guarantees: GUARANTEES,
    certificates: CERTIFICATES,
};

/// `orders` routes to `stock`, as is guaranteed and certified, and there is a queue `audit`.
const REPLACED: Version = Version {
    definitions: &[FRONT, AUDIT, STOCK, TO_STOCK],
    guarantees: GUARANTEES,
    certificates: CERTIFICATES,
};

/// `orders` routes nowhere. So a message published to it never reaches `stock`, but one that is in `audit` could.
const FORBIDDING: Version = Version {
    definitions: &[FRONT, DYING_AUDIT, STOCK, TO_NOTHING],
    guarantees: FORBIDDEN,
    certificates: FORBIDDEN_CERTIFICATES,
};

/// Files that are replaced between looks.
#[derive(Drop)]
struct Replaced {
    /// The files at each read of the definitions, in order. All later reads get [`REPLACED`].
    versions: &'static [Version],
    /// The number of times that the definitions were read or compared.
    reads: usize,
}

impl Replaced {
    /// Returns the files of the current read.
    fn version(&self) -> Version {
        match self.versions.get(self.reads.saturating_sub(1)) {
            Some(version) => *version,
            None => REPLACED,
        }
    }

    /// Returns the text of the file `name`.
    fn text(&mut self, alloc: Global, name: &str) -> Result<Vec<u8>, AllocError> {
        match name {
            "definitions" => {
                self.reads = self.reads.saturating_add(1);
                all_of(alloc, self.version().definitions)
            }
            "guarantees" => Vec::from_slice(alloc, self.version().guarantees),
            _ => Vec::from_slice(alloc, self.version().certificates),
        }
    }
}

impl Files for Replaced {
    ghost use Rattle.server.specs.Files.{Unknown};

    ghost holds = { λ _ _. Unknown };

    fn read(&mut self, alloc: Global, name: &str) -> Result<Vec<u8>, Unread> {
        read_bytes(self.text(alloc, name))
    }

    fn write(&mut self, _name: &str, _bytes: &[u8]) -> Result<(), NotWritten> {
        Err(NotWritten)
    }
}

/// Joins `pieces`.
fn all_of(alloc: Global, pieces: &[&[u8]]) -> Result<Vec<u8>, AllocError> {
    let mut bytes = Vec::new(alloc);
    for piece in pieces {
        bytes.extend_from_slice(piece)?;
    }
    Ok(bytes)
}

/// Opens a wire in memory, once.
#[derive(Drop)]
struct InMemory {
    wire: Option<MemoryWire>,
}

impl Listener for InMemory {
    type Sockets = MemoryWire;

    ghost listens = { λ _ _ _. ⊤ };

    fn listen(&mut self, alloc: Global, address: &str) -> Option<Listening<MemoryWire>> {
        let address = String::from_str(alloc, address).ok()?;
        Some(Listening {
            sockets: self.wire.take()?,
            address,
        })
    }
}

/// The words that ask to serve fourteen rounds, with a look at the files after every second one but the last.
const WORDS: &str =
    "warren serve definitions guarantees certificates --listen here --turns 14 --reload 2";

/// The number of reads of the definitions if the first of six looks finds other files: one at the start, one at each look to compare them
/// with those in force, and one more if they differ.
const READS_OF_OTHERS: u64 = 8;

/// The number of publishes: one in the second round and in each after it.
const PUBLISHES: u64 = 13;

/// basic.get of `audit` on channel 1, and one of `stock`, with acknowledgements.
const GETS: &[u8] =
    b"\x01\x00\x01\x00\x00\x00\x0d\x00\x3c\x00\x46\x00\x00\x05audit\x00\xce\x01\x00\x01\x00\x00\x00\x0d\x00\x3c\x00\x46\x00\x00\x05stock\x00\xce";

/// get-ok of the message of [`MESSAGE`], up to its delivery tag.
const GOT: &[u8] = b"\x01\x00\x01\x00\x00\x00\x1c\x00\x3c\x00\x47";

/// The rest after the delivery tag: the message is not redelivered, and the last ready one. Then its content.
const BEHIND_TAG: &[u8] =
    b"\x00\x06orders\x03new\x00\x00\x00\x00\xce\x02\x00\x01\x00\x00\x00\x0e\x00\x3c\x00\x00\x00\x00\x00\x00\x00\x00\x00\x02\x00\x00\xce\x03\x00\x01\x00\x00\x00\x02hi\xce";

/// Returns a client that opens in the first round, and publishes and gets from both queues in each later one.
/// It writes as many bytes in each round as an opening has, so that one read returns those of one round.
fn client(alloc: Global) -> Result<Client, Unmet> {
    let turn = joined(alloc, MESSAGE, GETS)?;
    expect_number(
        "the length of a turn",
        turn.len() as u64,
        OPENING.len() as u64,
    )?;
    let mut input = joined(alloc, OPENING, &[])?;
    for _ in 0..PUBLISHES {
        value_of(
            "extend_from_slice",
            input.extend_from_slice(turn.as_slice()),
        )?;
    }
    Ok(memory_client(input, OPENING.len(), usize::MAX))
}

/// Returns a wire with this client alone.
fn wire(alloc: Global) -> Result<MemoryWire, Unmet> {
    let client = client(alloc)?;
    let clients = value_of("vec", vec![in alloc; client])?;
    Ok(MemoryWire::new(alloc, clients))
}

/// Appends the replies to the gets of a round: one gets the message with delivery tag `tag`, the other nothing.
fn add_gets(answer: &mut Vec<u8>, tag: u64, is_old: bool) -> Result<(), AllocError> {
    if !is_old {
        answer.extend_from_slice(GET_EMPTY)?;
    }
    answer.extend_from_slice(GOT)?;
    answer.extend_from_slice(tag.to_be_bytes().as_slice())?;
    answer.extend_from_slice(BEHIND_TAG)?;
    if is_old {
        answer.extend_from_slice(GET_EMPTY)?;
    }
    Ok(())
}

/// Returns the replies to the client if its first `old` publishes reach `audit`, and those after them `stock`.
fn answer(alloc: Global, old: u64) -> Result<Vec<u8>, AllocError> {
    let mut answer = Vec::from_slice(alloc, OPENED)?;
    for tag in 1..=PUBLISHES {
        add_gets(&mut answer, tag, tag <= old)?;
    }
    Ok(answer)
}

/// Serves the client over the files `versions`, with looks `step` seconds apart and `err` as standard error, and returns the status. Checks that the
/// definitions were read `reads` times, and that the first `old` publishes reached `audit`, and those after them `stock`.
fn serve_over<E: Write>(
    alloc: Global,
    versions: &'static [Version],
    step: u64,
    reads: u64,
    old: u64,
    err: &mut E,
) -> Result<u8, Unmet> {
    let mut listener = InMemory {
        wire: Some(wire(alloc)?),
    };
    let mut files = Replaced { versions, reads: 0 };
    let mut clock = Ticking::by(step);
    let mut out: Vec<u8> = Vec::new(alloc);
    let words = words_of(alloc, WORDS)?;
    let ended = program_with_sockets(
        alloc,
        words.as_slice(),
        &mut listener,
        &mut files,
        &mut clock,
        &mut out,
        err,
    );
    expect_bytes("the output", out.as_slice(), b"warren: listening on here\n")?;
    expect_number("how often files were read", files.reads as u64, reads)?;
    let status = ended.status;
    let service = value_of("serve", ended.service.ok_or(()))?;
    expect("the log is whole", service.sockets.log.is_whole)?;
    let written = value_of("Log::taken_by", service.sockets.log.taken_by(alloc, 0))?;
    let expected = value_of("answer", answer(alloc, old))?;
    expect_bytes("the answer", written.as_slice(), expected.as_slice())?;
    Ok(status)
}

/// Checks that valid files are put in force at the first look, and that looks that find the same files do nothing.
pub(crate) fn files_that_are_replaced_are_put_in_force(alloc: Global) -> Result<(), Unmet> {
    let mut err: Vec<u8> = Vec::new(alloc);
    let status = serve_over(alloc, &[STARTED], 60, READS_OF_OTHERS, 1, &mut err)?;
    expect_number("the status", u64::from(status), 0)?;
    expect("nothing is reported", err.is_empty())
}

/// Files that are refused at five looks, and valid at the sixth.
/// A look compares the definitions with those that were refused, if any, then with those in force, and reads them if they differ from both.
const FITTING_IN_THE_END: &[Version] = &[
    STARTED,
    // the first look compares them once, and reads them
    BROKEN_OFF,
    BROKEN_OFF,
    // the second finds what was refused
    BROKEN_OFF,
    // the third and the fourth look compare the definitions twice, and read them
    UNCERTIFIED,
    UNCERTIFIED,
    UNCERTIFIED,
    WITHOUT_AUDIT,
    WITHOUT_AUDIT,
    WITHOUT_AUDIT,
    // the fifth finds what was admitted
    WITHOUT_AUDIT,
];

/// The number of reads of the definitions over [`FITTING_IN_THE_END`]: those listed there, and three at the sixth look, which also compares
/// them with what was admitted.
const READS_IN_THE_END: u64 = 14;

/// The number of publishes before the sixth look, which is after the twelfth round.
const BEFORE_THE_SIXTH: u64 = 11;

/// Serves the client over [`FITTING_IN_THE_END`], with looks `step` seconds apart, and checks that `lines` is what is reported. The client is served by
/// what was in force before.
fn expect_told(alloc: Global, step: u64, lines: &[u8]) -> Result<(), Unmet> {
    let mut err: Vec<u8> = Vec::new(alloc);
    let status = serve_over(
        alloc,
        FITTING_IN_THE_END,
        step,
        READS_IN_THE_END,
        BEFORE_THE_SIXTH,
        &mut err,
    )?;
    expect_number("the status", u64::from(status), 0)?;
    expect_bytes("what is reported", err.as_slice(), lines)
}

/// Checks that files that are refused are reported in one line, and that looks that find the same files within a minute report nothing.
pub(crate) fn files_that_do_not_fit_are_told_once(alloc: Global) -> Result<(), Unmet> {
    expect_told(
        alloc,
        59,
        b"warren: definitions: refused 1\nwarren: certificate 1: fault 5\nwarren: reload refused in-use \"audit\"\n",
    )
}

/// Checks that a look that finds the same files a minute after the line about them reports them again.
pub(crate) fn files_that_do_not_fit_are_told_again_after_a_minute(
    alloc: Global,
) -> Result<(), Unmet> {
    expect_told(
        alloc,
        60,
        b"warren: definitions: refused 1\nwarren: definitions: refused 1\nwarren: certificate 1: fault 5\nwarren: reload refused in-use \"audit\"\nwarren: reload refused in-use \"audit\"\n",
    )
}

/// Checks that the client is served also if the lines about the looks can't be written, and that the status is 4 then.
pub(crate) fn looks_whose_lines_are_not_taken_have_status_four(alloc: Global) -> Result<(), Unmet> {
    let status = serve_over(
        alloc,
        FITTING_IN_THE_END,
        0,
        READS_IN_THE_END,
        BEFORE_THE_SIXTH,
        &mut Closed,
    )?;
    expect_number("the status", u64::from(status), 4)
}

/// Files that are put in force at the second look. The first compares them once, and reads them.
const FITTING_AT_THE_SECOND: &[Version] = &[STARTED, FORBIDDING, FORBIDDING];

/// The number of reads of the definitions over [`FITTING_AT_THE_SECOND`]: those listed there; three at the second look, which also compares
/// them with what was admitted at the first; and one at each of the four looks after it.
const READS_FROM_THE_SECOND: u64 = 10;

/// The number of publishes before the second look, which is after the fourth round.
const BEFORE_THE_SECOND: u64 = 3;

/// Checks that files stay out of force while a message in a queue could reach, as a dead letter, a queue that they forbid it.
/// The line names the queue, the routing key in hex digits, and the number of the guarantee.
pub(crate) fn a_message_that_could_come_where_it_is_forbidden_is_told(
    alloc: Global,
) -> Result<(), Unmet> {
    let mut err: Vec<u8> = Vec::new(alloc);
    let status = serve_over(
        alloc,
        FITTING_AT_THE_SECOND,
        0,
        READS_FROM_THE_SECOND,
        BEFORE_THE_SECOND,
        &mut err,
    )?;
    expect_number("the status", u64::from(status), 0)?;
    expect_bytes(
        "what is reported",
        err.as_slice(),
        b"warren: reload refused breaks \"audit\" 6e6577 1\n",
    )
}
