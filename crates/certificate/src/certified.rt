//! Checks that each guarantee has an accepted certificate. Start with `all_certified`.

ghost use Rattle.std.specs.Prelude.{◌<◌, ◌≡◌, Err, IfOk, IfSome, length};
ghost use Rattle.std.specs.List.{list_any};
ghost use Rattle.paths.specs.Deaths.{AreDeaths};
ghost use Rattle.certificate.specs.declared.faults.CertFault.TheVariants.{Form};
ghost use Rattle.certificate.specs.Certified.{Certifies, ChecksAt, ExploresFor, is_never};

use crate::certificates::Certificate;
use crate::checking::check_by;
use crate::faults::CertFault;
use exchange_graph::Topology;
use guarantees::Guarantee;
use model::Mode;
use paths::Deaths;
use std::alloc::{AllocError, Global};

/// Checks the certificate at index `place` for `guarantee`. Fails with its fault, or with [`CertFault::Form`] if there is no certificate at this index.
fn check_at(
    alloc: Global,
    topology: &Topology,
    deaths: Option<&Deaths>,
    guarantee: &Guarantee,
    certificates: &[Certificate],
    place: usize,
) -> Result<(), CertFault>
    requires { IfSome deaths (λ d. AreDeaths topology.now d.now) }
    ensures { ChecksAt topology.now guarantee.now certificates.now place result }
{
    if place >= certificates.len() {
        return Err(CertFault::Form);
    }
    check_by(alloc, topology, deaths, guarantee, &certificates[place])
}

/// Checks that each guarantee has an accepted certificate, and that no certificate is left over. Fails with the least index at fault, and its fault.
/// What dead letters reach is explored for each `never` unless `deaths` are given.
fn certified_by(
    alloc: Global,
    topology: &Topology,
    deaths: Option<&Deaths>,
    guarantees: &[Guarantee],
    certificates: &[Certificate],
) -> Result<(), (usize, CertFault)>
    requires { IfSome deaths (λ d. AreDeaths topology.now d.now) }
    ensures { Certifies topology.now guarantees.now certificates.now result }
{
    for place in 0..guarantees.len() {
        match check_at(
            alloc,
            topology,
            deaths,
            &guarantees[place],
            certificates,
            place,
        ) {
            Ok(_) => {}
            Err(fault) => return Err((place, fault)),
        }
    }
    if certificates.len() > guarantees.len() {
        return Err((guarantees.len(), CertFault::Form));
    }
    Ok(())
}

/// Returns whether one of `guarantees` is a `never`.
fn has_never(guarantees: &[Guarantee]) -> bool
    ensures { result ≡ list_any (λ g. is_never g.mode) guarantees.now }
{
    guarantees.iter().any(|guarantee| match guarantee.mode() {
        Mode::Reaches => false,
        Mode::Never => true,
    })
}

/// Explores what dead letters of the topology's queues reach, once for all of `guarantees`. Returns `None` only if none of them is a `never`,
/// which alone asks for it. Fails only if an allocation fails.
pub fn deaths_for(
    alloc: Global,
    topology: &Topology,
    guarantees: &[Guarantee],
) -> Result<Option<Deaths>, AllocError>
    ensures { IfOk result (ExploresFor topology.now guarantees.now) }
{
    if !has_never(guarantees) {
        return Ok(None);
    }
    Ok(Some(Deaths::of(alloc, topology)?))
}

/// Checks that each guarantee has an accepted certificate, and that no certificate is left over. Fails with the least index at fault, and its fault.
/// If an allocation fails while what dead letters reach is explored for all guarantees, each `never` explores it for itself.
pub fn all_certified(
    alloc: Global,
    topology: &Topology,
    guarantees: &[Guarantee],
    certificates: &[Certificate],
) -> Result<(), (usize, CertFault)>
    ensures { Certifies topology.now guarantees.now certificates.now result }
{
    let deaths = deaths_for(alloc, topology, guarantees).unwrap_or(None);
    certified_by(alloc, topology, deaths.as_ref(), guarantees, certificates)
}
