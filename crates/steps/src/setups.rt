//! Reads the files that a broker is set up by. Start with [`Disk::setup`].

use certificate::{Certificate, Checked, admit};
use definitions::read_definitions;
use engine::{Engine, Setup};
use exchange_graph::Topology;
use guarantees::read_guarantees;
use line_parts::{LineAnswer, Unanswered, cut};
use std::fs;

/// The folder with the files that scenarios name.
#[derive(Clone, Copy, Drop)]
pub struct Disk<'a> {
    pub rt: &'a HostRuntime,
    pub folder: &'a str,
}

impl Disk<'_> {
    /// Reads a file. Fails with [`Unanswered::File`] if it can't be read.
    fn bytes(&self, out: &mut LineAnswer, name: &str) -> Vec<u8> {
        let folder = self.folder;
        let path = match format!(in out.alloc(); "{folder}/{name}") {
            Ok(path) => path,
            Err(_) => String::new(out.alloc()),
        };
        match fs::read(self.rt, path) {
            Ok(bytes) => bytes,
            Err(_) => {
                out.fail(Unanswered::File);
                Vec::new(out.alloc())
            }
        }
    }

    /// Returns what the definitions file `definitions` puts in force, without guarantees.
    pub(crate) fn plain_setup(&self, out: &mut LineAnswer, definitions: &str) -> Option<Setup> {
        let bytes = self.bytes(out, definitions);
        setup_of(out, bytes.as_slice(), b"{\"guarantees\":[]}", b"[]")
    }

    /// Returns an engine over the definitions file `definitions`, without guarantees.
    pub(crate) fn engine(&self, out: &mut LineAnswer, definitions: &str) -> Option<Engine> {
        let (checked, users) = self.plain_setup(out, definitions)?.into_parts();
        let engine = Engine::new(out.alloc(), checked, users);
        out.value_of(engine, Unanswered::Memory)
    }

    /// Returns what the files `DEFINITIONS GUARANTEES CERTIFICATES` put in force.
    pub(crate) fn setup(&self, out: &mut LineAnswer, files: &str) -> Option<Setup> {
        let (definitions, rest) = cut(out, files);
        let (guarantees, certificates) = cut(out, rest);
        let definitions = self.bytes(out, definitions);
        let guarantees = self.bytes(out, guarantees);
        let certificates = self.bytes(out, certificates);
        setup_of(
            out,
            definitions.as_slice(),
            guarantees.as_slice(),
            certificates.as_slice(),
        )
    }
}

/// Admits a topology under the guarantees and certificates that two files state. Otherwise fails with [`Unanswered::File`].
fn admitted(
    out: &mut LineAnswer,
    topology: Topology,
    guarantees: &[u8],
    certificates: &[u8],
) -> Option<Checked> {
    let alloc = out.alloc();
    let guarantees = read_guarantees(alloc, guarantees, &topology);
    let guarantees = out.value_of(guarantees, Unanswered::File)?;
    let certificates = Certificate::read(alloc, certificates);
    let certificates = out.value_of(certificates, Unanswered::File)?;
    let checked = admit(alloc, topology, guarantees, certificates.as_slice());
    out.value_of(checked, Unanswered::File)
}

/// Returns what the three files state, if they are admitted. Otherwise fails with [`Unanswered::File`].
fn setup_of(
    out: &mut LineAnswer,
    definitions: &[u8],
    guarantees: &[u8],
    certificates: &[u8],
) -> Option<Setup> {
    let definitions = read_definitions(out.alloc(), definitions);
    let (topology, users) = out.value_of(definitions, Unanswered::File)?.into_parts();
    let checked = admitted(out, topology, guarantees, certificates)?;
    Some(Setup::new(checked, users))
}
