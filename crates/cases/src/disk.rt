//! Reads the files of cases, and those that cases name.

use model::limits;
use server::{Files, NotWritten, Unread};
use std::alloc::Global;
use std::{fs, io};

/// The folder with the files of the cases.
#[derive(Clone, Copy, Drop)]
pub struct Folder<'a> {
    pub rt: &'a HostRuntime,
    pub path: &'a str,
}

impl Folder<'_> {
    /// Reads the bytes of a file.
    fn bytes(&self, name: &str) -> io::Result<Vec<u8>> {
        let folder = self.path;
        let path = format!(in self.rt.alloc(); "{folder}/{name}")?;
        fs::read(self.rt, path)
    }

    /// Reads the text of a file.
    pub fn text(&self, name: &str) -> io::Result<String> {
        let folder = self.path;
        let path = format!(in self.rt.alloc(); "{folder}/{name}")?;
        fs::read_to_string(self.rt, path)
    }
}

/// The files that the program sees: `script`, if the case has one, and the files of the folder.
#[derive(Drop)]
pub struct CaseDisk<'a> {
    pub folder: Folder<'a>,
    pub script: Option<&'a [u8]>,
}

impl CaseDisk<'_> {
    fn bytes(&self, alloc: Global, name: &str) -> io::Result<Vec<u8>> {
        match self.script {
            Some(script) if name == "script" => Ok(Vec::from_slice(alloc, script)?),
            _ => self.folder.bytes(name),
        }
    }
}

impl Files for CaseDisk<'_> {
    ghost use Rattle.server.specs.Files.{Unknown};

    ghost holds = { λ _ _. Unknown };

    fn read(&mut self, alloc: Global, name: &str) -> Result<Vec<u8>, Unread> {
        match self.bytes(alloc, name) {
            Ok(bytes) if bytes.len() > limits::FILE_BYTES => Err(Unread::TooLong),
            Ok(bytes) => Ok(bytes),
            Err(_) => Err(Unread::Failed),
        }
    }

    fn write(&mut self, _name: &str, _bytes: &[u8]) -> Result<(), NotWritten> {
        Err(NotWritten)
    }
}
