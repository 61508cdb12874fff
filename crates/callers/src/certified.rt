//! A guarantee that a certificate proves.

ghost use Rattle.std.specs.Prelude.{OnOk, IfErr};
ghost use Rattle.model.specs.Guarantee.{Holds};
ghost use Rattle.certificate.specs.Checks.{Faults};

use certificate::{CertFault, Certificate, check};
use certificate_laws::certificates_are_sound;
use exchange_graph::Topology;
use guarantees::Guarantee;
use std::alloc::Global;

/// Checks that `certificate` proves `guarantee`: after `Ok` the guarantee holds in `topology`, for every key of at most 255 bytes.
/// Otherwise returns the first condition that the certificate breaks; [`CertFault::Memory`] only if an allocation fails.
pub fn certify(
    alloc: Global,
    topology: &Topology,
    guarantee: &Guarantee,
    certificate: &Certificate,
) -> Result<(), CertFault>
    ensures holds { OnOk result (Holds topology.now guarantee.now) }
    ensures fault { IfErr result (λ fault. Faults topology.now guarantee.now certificate.now fault) }
{
    certificates_are_sound();
    check(alloc, topology, guarantee, certificate)
}
