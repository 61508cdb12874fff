//! Files of the scenarios, and the words of command lines that name them.

ghost use Rattle.std.specs.Prelude.{MatchResult};
ghost use Rattle.server.specs.Files.{Unknown, IsFileRead, IsUnread};

use model::limits;
use scenario_parts::{DEFINITIONS, Unmet, value_of};
use server::{Files, NotWritten, Unread};
use std::alloc::{AllocError, Global};

/// Splits `line` at its blanks into the words of a command line.
pub(crate) fn words_of(alloc: Global, line: &str) -> Result<Vec<&str>, Unmet> {
    let mut words = Vec::new(alloc);
    for word in line.split(' ') {
        value_of("Vec::push", words.push(word))?;
    }
    Ok(words)
}

/// Returns the bytes of a file, unless they are too long or an allocation failed.
pub(crate) fn read_bytes(bytes: Result<Vec<u8>, AllocError>) -> Result<Vec<u8>, Unread>
    ensures { MatchResult result (λ bytes. IsFileRead Unknown bytes.items) (λ why. IsUnread Unknown why) }
{
    match bytes {
        Ok(bytes) if bytes.len() <= limits::FILE_BYTES => Ok(bytes),
        Ok(_) => Err(Unread::TooLong),
        Err(_) => Err(Unread::Memory),
    }
}

/// A disk with the definitions, no guarantees, no certificates, and a script. Nothing can be written to it.
#[derive(Drop)]
pub(crate) struct ScenarioDisk {
    pub(crate) script: &'static [u8],
}

impl ScenarioDisk {
    /// Returns the text of the file `name`.
    fn text(&self, name: &str) -> &'static [u8] {
        match name {
            "definitions" => DEFINITIONS,
            "guarantees" => b"{\"guarantees\":[]}",
            "certificates" => b"[]",
            _ => self.script,
        }
    }
}

impl Files for ScenarioDisk {
    ghost holds = { λ _ _. Unknown };

    fn read(&mut self, alloc: Global, name: &str) -> Result<Vec<u8>, Unread> {
        read_bytes(Vec::from_slice(alloc, self.text(name)))
    }

    fn write(&mut self, _name: &str, _bytes: &[u8]) -> Result<(), NotWritten> {
        Err(NotWritten)
    }
}
