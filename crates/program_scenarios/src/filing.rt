//! Writes certificates to a file, and checks what is reported of that file.

use crate::disk::{read_bytes, words_of};
use certificate::{Certificate, Draft, Form, Unwritten};
use model::Text;
use scenario_parts::files::{CERTIFICATES, DEFINITIONS, GUARANTEES};
use scenario_parts::{Unmet, expect, expect_bytes, expect_number, value_of};
use server::{Files, NotWritten, Unread, program};
use std::alloc::{AllocError, Global};

/// A disk with definitions and guarantees, on which one more file can be written.
#[derive(Drop)]
struct OpenDisk {
    /// The name of the file that was written last, and its bytes.
    written: Option<(String, Vec<u8>)>,
    alloc: Global,
}

impl OpenDisk {
    /// Returns the bytes of the file `name`, if it exists.
    fn bytes(&self, name: &str) -> Option<&[u8]> {
        match (name, &self.written) {
            ("definitions", _) => Some(DEFINITIONS),
            ("guarantees", _) => Some(GUARANTEES),
            (name, Some((written, bytes))) if written.as_str() == name => Some(bytes.as_slice()),
            _ => None,
        }
    }
}

impl Files for OpenDisk {
    ghost use Rattle.server.specs.Files.{Unknown};

    ghost holds = { λ _ _. Unknown };

    fn read(&mut self, alloc: Global, name: &str) -> Result<Vec<u8>, Unread> {
        let Some(bytes) = self.bytes(name) else {
            return Err(Unread::Failed);
        };
        read_bytes(Vec::from_slice(alloc, bytes))
    }

    fn write(&mut self, name: &str, bytes: &[u8]) -> Result<(), NotWritten> {
        let name = String::from_str(self.alloc, name);
        let bytes = Vec::from_slice(self.alloc, bytes);
        match (name, bytes) {
            (Ok(name), Ok(bytes)) => {
                self.written = Some((name, bytes));
                Ok(())
            }
            _ => Err(NotWritten),
        }
    }
}

/// Checks that the program, run by the command line `line`, prints `printed` and no complaint, with status 0.
fn expect_printed(
    alloc: Global,
    disk: &mut OpenDisk,
    line: &str,
    printed: &[u8],
) -> Result<(), Unmet> {
    let words = words_of(alloc, line)?;
    let mut out: Vec<u8> = Vec::new(alloc);
    let mut err: Vec<u8> = Vec::new(alloc);
    let status = program(alloc, words.as_slice(), disk, &mut out, &mut err);
    expect_number("the status", u64::from(status), 0)?;
    expect("there is no complaint", err.is_empty())?;
    expect_bytes("the output", out.as_slice(), printed)
}

/// Checks that `check --out` writes the certificates of all guarantees, and that `verify` accepts what was written.
pub(crate) fn certificates_that_are_written_are_accepted(alloc: Global) -> Result<(), Unmet> {
    let mut disk = OpenDisk {
        written: None,
        alloc,
    };
    let check = "warren check definitions guarantees --out certificates";
    expect_printed(alloc, &mut disk, check, b"1 yes states 5\n")?;
    let written = value_of("the file", disk.bytes("certificates").ok_or(NotWritten))?;
    expect_bytes("the file", written, CERTIFICATES)?;
    let verify = "warren verify definitions guarantees certificates";
    expect_printed(alloc, &mut disk, verify, b"1 ok\n")
}

/// The number of states of the large certificate.
const STATES: u32 = 8_192;

/// The length of the large certificate in a file, in bytes: 82 before its states, 2 after them, and in between 321 for each, with a comma between two.
const LARGE: u64 = 2_637_907;

/// Returns a certificate of 8,192 states with 64 numbers of four digits.
fn large(alloc: Global) -> Result<Certificate, AllocError> {
    let mut states = Vec::new(alloc);
    for _ in 0..STATES {
        states.push(vec![in alloc; 1_000_u64; 64]?)?;
    }
    Ok(Certificate::new(
        Form::Whole,
        Text::short(b"X"),
        Text::short(b"reaches"),
        Text::short(b"#"),
        Text::short(b"audit"),
        states,
    ))
}

/// Returns the file of `count` copies of `certificate`.
fn file_of(alloc: Global, certificate: &Certificate, count: u8) -> Result<Vec<u8>, Unwritten> {
    let mut draft = Draft::new(alloc);
    for _ in 0..count {
        draft = draft.with_certificate(alloc, certificate);
    }
    draft.finished()
}

/// Checks that no certificates file is made that would be too long to be read back.
pub(crate) fn a_file_past_the_limit_is_given_up(alloc: Global) -> Result<(), Unmet> {
    let certificate = value_of("the certificate", large(alloc))?;
    let six = value_of("the file of six", file_of(alloc, &certificate, 6))?;
    expect_number("its length", six.len() as u64, 6 * LARGE + 7)?;
    expect(
        "seven have no file",
        matches!(file_of(alloc, &certificate, 7), Err(Unwritten::TooLong)),
    )
}
