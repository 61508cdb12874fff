//! Single calls, each of which is retried once if an allocation fails.

use crate::counts::{Counts, count};
use certificate::{CertFault, Certificate, Checked, Refutation, admit, check, disprove};
use definitions::{Definitions, FileCause, read_definitions};
use exchange_graph::Topology;
use guarantee_search::{Verdict, search};
use guarantees::{Guarantee, read_guarantees};
use model::User;
use std::alloc::{AllocError, Global};
use std::io::{self, ErrorKind};

/// The files that calls use.
#[derive(Clone, Copy, Drop)]
pub struct Setting<'a> {
    pub definitions: &'a str,
    pub guarantees: &'a str,
    pub certificates: &'a str,
}

/// Makes a call, and makes it again if its outcome matches `$lack`, since an allocation failed; `$sum` counts that.
macro_rules! again {
    ($call:expr, $lack:pat, $sum:expr) => {
        match $call {
            $lack => {
                count(&mut $sum);
                $call
            }
            outcome => outcome,
        }
    };
}

/// Returns the error for a file of the input that is refused.
fn malformed() -> io::Error {
    io::Error::from(ErrorKind::InvalidData)
}

/// Returns what was read of a file of the input.
fn value_of<T>(read: Result<T, FileCause>) -> io::Result<T> {
    match read {
        Ok(value) => Ok(value),
        Err(FileCause::Memory) => Err(io::Error::from(AllocError)),
        Err(_) => Err(malformed()),
    }
}

/// Reads the definitions file.
fn definitions_of(
    alloc: Global,
    setting: Setting<'_>,
    counts: &mut Counts,
) -> io::Result<Definitions> {
    let bytes = setting.definitions.as_bytes();
    value_of(again!(
        read_definitions(alloc, bytes),
        Err(FileCause::Memory),
        counts.definitions
    ))
}

/// Reads the guarantees file.
fn guarantees_of(
    alloc: Global,
    setting: Setting<'_>,
    topology: &Topology,
    counts: &mut Counts,
) -> io::Result<Vec<Guarantee>> {
    let bytes = setting.guarantees.as_bytes();
    value_of(again!(
        read_guarantees(alloc, bytes, topology),
        Err(FileCause::Memory),
        counts.guarantees
    ))
}

/// Reads the topology of the definitions file, and the guarantees for it.
pub fn stated(
    alloc: Global,
    setting: Setting<'_>,
    counts: &mut Counts,
) -> io::Result<(Topology, Vec<Guarantee>)> {
    let (topology, _) = definitions_of(alloc, setting, counts)?.into_parts();
    let guarantees = guarantees_of(alloc, setting, &topology, counts)?;
    Ok((topology, guarantees))
}

/// Reads the certificates file.
pub fn certificates_of(alloc: Global, setting: Setting<'_>) -> io::Result<Vec<Certificate>> {
    value_of(Certificate::read(alloc, setting.certificates.as_bytes()))
}

/// Checks a certificate. Fails with its first fault.
pub fn checked(
    alloc: Global,
    topology: &Topology,
    guarantee: &Guarantee,
    certificate: &Certificate,
    counts: &mut Counts,
) -> Result<(), CertFault> {
    again!(
        check(alloc, topology, guarantee, certificate),
        Err(CertFault::Memory),
        counts.checks
    )
}

/// Admits what the files state. Reads them again for a retry, since `admit` takes the topology and the guarantees.
pub fn admitted(
    alloc: Global,
    setting: Setting<'_>,
    counts: &mut Counts,
) -> io::Result<Result<Checked, (usize, CertFault)>> {
    let certificates = certificates_of(alloc, setting)?;
    let (topology, guarantees) = stated(alloc, setting, counts)?;
    match admit(alloc, topology, guarantees, certificates.as_slice()) {
        Err((_, CertFault::Memory)) => {
            count(&mut counts.admits);
            let (topology, guarantees) = stated(alloc, setting, counts)?;
            Ok(admit(alloc, topology, guarantees, certificates.as_slice()))
        }
        admitted => Ok(admitted),
    }
}

/// Returns what the files put in force, and the users.
pub fn set_up(
    alloc: Global,
    setting: Setting<'_>,
    counts: &mut Counts,
) -> io::Result<(Checked, Vec<User>)> {
    let (_, users) = definitions_of(alloc, setting, counts)?.into_parts();
    match admitted(alloc, setting, counts)? {
        Ok(checked) => Ok((checked, users)),
        Err((_, CertFault::Memory)) => Err(io::Error::from(AllocError)),
        Err(_) => Err(malformed()),
    }
}

/// Searches a guarantee, and returns the verdict.
pub fn searched(
    alloc: Global,
    topology: &Topology,
    guarantee: &Guarantee,
    counts: &mut Counts,
) -> Result<Verdict, AllocError> {
    again!(search(alloc, topology, guarantee), Err(_), counts.searches)
}

/// Returns whether the refutation disproves the guarantee. A `false` of `disprove` may mean that an allocation failed: then it is
/// called again.
pub fn disproved(
    alloc: Global,
    topology: &Topology,
    guarantee: &Guarantee,
    refutation: &Refutation,
    counts: &mut Counts,
) -> bool {
    if disprove(alloc, topology, guarantee, refutation) {
        return true;
    }
    let answer = disprove(alloc, topology, guarantee, refutation);
    if answer {
        count(&mut counts.disproves);
    }
    answer
}
