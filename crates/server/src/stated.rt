//! Reads the files that a command names. Start with [`set_up`].

ghost use Rattle.std.specs.Prelude.{MatchResult};
ghost use Rattle.server.specs.Files.{AreKept};
ghost use Rattle.server.specs.Stated.{GivesCertificatesAt, GivesGuaranteesAt, GivesSetup, GivesStated, GivesTopologyAt, IsWhyUnstated};
ghost use Rattle.server.specs.Stated.{ReadsCertificates, ReadsPromises, States, file_named};

use crate::builtin::builtin;
use crate::file_refusals::{FileRefusal, RefusedFile};
use crate::storage::Files;
use certificate::Certificate;
use definitions::{Definitions, read_definitions};
use exchange_graph::Topology;
use guarantees::{Guarantee, read_guarantees};
use model::User;
use std::alloc::Global;

/// A topology with its users, and the guarantees stated for it.
#[derive(Drop)]
pub(crate) struct Setup {
    pub(crate) topology: Topology,
    pub(crate) users: Vec<User>,
    pub(crate) guarantees: Vec<Guarantee>,
}

/// Reads the definitions of a file.
fn read_definitions_of<F: Files>(
    alloc: Global,
    file: &str,
    files: &mut F,
) -> Result<Definitions, FileRefusal>
    ensures states { MatchResult result (λ stated. States (F.holds files.old file.now) stated) (λ why. IsWhyUnstated why (F.holds files.old file.now)) }
    ensures files { AreKept (F.holds files.old) (F.holds files.new) }
{
    let text = files.read(alloc, file)?;
    Ok(read_definitions(alloc, text.as_slice())?)
}

/// Reads the definitions of a file. Changes no file.
///
/// Fails with the file's name and the reason: the file can't be read or is too long, a cause applies to it (the lowest-numbered is
/// reported), or an allocation failed.
pub(crate) fn definitions_of<'a, F: Files>(
    alloc: Global,
    file: &'a str,
    files: &mut F,
) -> Result<Definitions, RefusedFile<'a>>
    ensures states { GivesStated (F.holds files.old) file.now result }
    ensures files { AreKept (F.holds files.old) (F.holds files.new) }
{
    match read_definitions_of(alloc, file, files) {
        Ok(definitions) => Ok(definitions),
        Err(why) => Err(RefusedFile { file, why }),
    }
}

/// Reads the guarantees of a file for `topology`.
fn read_guarantees_of<F: Files>(
    alloc: Global,
    file: &str,
    topology: &Topology,
    files: &mut F,
) -> Result<Vec<Guarantee>, FileRefusal>
    ensures states { ReadsPromises (F.holds files.old file.now) topology.now result }
    ensures files { AreKept (F.holds files.old) (F.holds files.new) }
{
    let text = files.read(alloc, file)?;
    Ok(read_guarantees(alloc, text.as_slice(), topology)?)
}

/// Reads the guarantees of a file for `topology`, or returns none if no file is named.
fn guarantees_of<'a, F: Files>(
    alloc: Global,
    file: Option<&'a str>,
    topology: &Topology,
    files: &mut F,
) -> Result<Vec<Guarantee>, RefusedFile<'a>>
    ensures states { GivesGuaranteesAt (F.holds files.old) (file_named file.entry) topology.now result }
    ensures files { AreKept (F.holds files.old) (F.holds files.new) }
{
    let file = match file {
        Some(file) => file,
        None => return Ok(Vec::new(alloc)),
    };
    match read_guarantees_of(alloc, file, topology, files) {
        Ok(guarantees) => Ok(guarantees),
        Err(why) => Err(RefusedFile { file, why }),
    }
}

/// Reads the topology and the users of a definitions file, or returns the built-in topology if no file is named.
fn topology_of<'a, F: Files>(
    alloc: Global,
    file: Option<&'a str>,
    files: &mut F,
) -> Result<(Topology, Vec<User>), RefusedFile<'a>>
    ensures states { GivesTopologyAt (F.holds files.old) (file_named file.entry) result }
    ensures files { AreKept (F.holds files.old) (F.holds files.new) }
{
    match file {
        Some(file) => Ok(definitions_of(alloc, file, files)?.into_parts()),
        None => Ok((builtin(alloc)?, Vec::new(alloc))),
    }
}

/// Reads definitions and guarantees, each of which may be named or not. Changes no file.
///
/// Without definitions the topology is the built-in one, and nobody may log in; without guarantees there are none. The
/// definitions are judged first: guarantees are refused only if the definitions are accepted. If an allocation fails the refusal
/// may name no file.
pub(crate) fn set_up<'a, F: Files>(
    alloc: Global,
    definitions: Option<&'a str>,
    guarantees: Option<&'a str>,
    files: &mut F,
) -> Result<Setup, RefusedFile<'a>>
    ensures states { GivesSetup (F.holds files.old) (file_named definitions.entry) (file_named guarantees.entry) result }
    ensures files { AreKept (F.holds files.old) (F.holds files.new) }
{
    let (topology, users) = match topology_of(alloc, definitions, files) {
        Ok(stated) => stated,
        Err(refused) => return Err(refused),
    };
    match guarantees_of(alloc, guarantees, &topology, files) {
        Ok(guarantees) => Ok(Setup {
            topology,
            users,
            guarantees,
        }),
        Err(refused) => Err(refused),
    }
}

/// Reads the certificates of a file.
fn read_certificates_of<F: Files>(
    alloc: Global,
    file: &str,
    files: &mut F,
) -> Result<Vec<Certificate>, FileRefusal>
    ensures states { ReadsCertificates (F.holds files.old file.now) result }
    ensures files { AreKept (F.holds files.old) (F.holds files.new) }
{
    let text = files.read(alloc, file)?;
    Ok(Certificate::read(alloc, text.as_slice())?)
}

/// Reads the certificates of a file, or returns none if no file is named. Fails as [`definitions_of`] does. Changes no file.
pub(crate) fn certificates_of<'a, F: Files>(
    alloc: Global,
    file: Option<&'a str>,
    files: &mut F,
) -> Result<Vec<Certificate>, RefusedFile<'a>>
    ensures states { GivesCertificatesAt (F.holds files.old) (file_named file.entry) result }
    ensures files { AreKept (F.holds files.old) (F.holds files.new) }
{
    let file = match file {
        Some(file) => file,
        None => return Ok(Vec::new(alloc)),
    };
    match read_certificates_of(alloc, file, files) {
        Ok(certificates) => Ok(certificates),
        Err(why) => Err(RefusedFile { file, why }),
    }
}
