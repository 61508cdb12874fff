//! Topologies with guarantees that hold of them. Start with [`admit`].

ghost use Rattle.std.specs.Prelude.{◌≡◌, IfOk};
ghost use Rattle.model.specs.Topology.{IsWellFormed};
ghost use Rattle.model.specs.Guarantee.{AllHold};
ghost use Rattle.certificate.specs.Certified.{Admits};

use crate::certificates::Certificate;
use crate::certified::all_certified;
use crate::copies;
use crate::faults::CertFault;
use exchange_graph::Topology;
use guarantees::Guarantee;
use std::alloc::{AllocError, Global};
use std::marker::Model;

/// A topology with guarantees that hold of it. Only [`admit`] makes one; [`Checked::clone`] copies one.
pub struct Checked {
    topology: Topology,
    guarantees: Vec<Guarantee>,
}

/// Not derived: a derived drop is expanded, and proved again, in each function that drops the value.
impl Drop for Checked {
    fn drop(self) {
        let Checked {
            topology: _,
            guarantees: _,
        } = self;
    }
}

impl Model for Checked {
    ghost use Rattle.certificate.specs.Admitted.{Admitted};
    ghost use Rattle.model.specs.Guarantee.{AllHold};

    ghost Value = { Admitted };

    ghost view = { λ c. record { topology = c.topology; guarantees = c.guarantees.items } };

    ghost invariant = { λ c. AllHold c.topology c.guarantees.items };
}

/// Admits `topology` and `guarantees` if each guarantee has an accepted certificate at its index, and no certificate is left
/// over. Fails with the least index at fault, and its fault. [`CertFault::Memory`] occurs only for a certificate that fits its
/// guarantee.
pub fn admit(
    alloc: Global,
    topology: Topology,
    guarantees: Vec<Guarantee>,
    certificates: &[Certificate],
) -> Result<Checked, (usize, CertFault)>
    ensures { Admits topology guarantees.items certificates.now result }
{
    match all_certified(alloc, &topology, guarantees.as_slice(), certificates) {
        Ok(_) => Ok(Checked {
            topology,
            guarantees,
        }),
        Err(fault) => Err(fault),
    }
}

impl Checked {
    /// Shows that the guarantees hold of the topology, and what routing needs of it. Does nothing at run time.
    pub fn ghost_holds(&self)
        ensures guarantees { AllHold self.now.topology self.now.guarantees }
        ensures topology { IsWellFormed self.now.topology }
    {
        self.topology.ghost_is_well_formed();
    }

    pub fn topology(&self) -> &Topology
        ensures { result.now ≡ self.now.topology }
    {
        &self.topology
    }

    /// Returns all guarantees, in order.
    pub fn guarantees(&self) -> &[Guarantee]
        ensures { result.now ≡ self.now.guarantees }
    {
        self.guarantees.as_slice()
    }

    /// Returns a copy, which shares the texts. Fails only if an allocation fails.
    pub fn clone(&self, alloc: Global) -> Result<Checked, AllocError>
        ensures { IfOk result (λ copy. copy ≡ self.now) }
    {
        self.topology.ghost_is_well_formed();
        Ok(Checked {
            topology: copies::topology(alloc, &self.topology)?,
            guarantees: copies::all(alloc, self.guarantees.as_slice())?,
        })
    }

    /// Returns the topology and the guarantees.
    pub fn into_parts(self) -> (Topology, Vec<Guarantee>)
        ensures topology { result.0 ≡ self.topology }
        ensures guarantees { result.1.items ≡ self.guarantees }
        ensures hold { AllHold result.0 result.1.items }
        ensures well_formed { IsWellFormed result.0 }
    {
        self.topology.ghost_is_well_formed();
        let Checked {
            topology,
            guarantees: held,
        } = self;
        (topology, held)
    }
}
