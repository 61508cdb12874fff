//! Starts the broker of `serve`.

ghost use Rattle.server.specs.Files.{AreKept};
ghost use Rattle.server.specs.Clients.{StartsBroker};

use crate::refusals::Report;
use crate::replaying::{BrokerFiles, in_force};
use crate::storage::Files;
use engine::Engine;
use std::alloc::Global;

/// Starts a broker over what the named files put in force, without any connection. Judges the files in the order of the
/// arguments, and changes none.
pub fn started<'a, F: Files>(
    alloc: Global,
    definitions: &'a str,
    guarantees: &'a str,
    certificates: &'a str,
    files: &mut F,
) -> Result<Engine, Report<'a>>
    ensures started { StartsBroker (F.holds files.old) definitions.now guarantees.now certificates.now result }
    ensures files { AreKept (F.holds files.old) (F.holds files.new) }
{
    let named = BrokerFiles {
        definitions: Some(definitions),
        guarantees: Some(guarantees),
        certificates: Some(certificates),
    };
    let (checked, users) = match in_force(alloc, named, files) {
        Ok(force) => force,
        Err(report) => return Err(report),
    };
    match Engine::new(alloc, checked, users) {
        Ok(mut engine) => {
            engine.drop_notes();
            Ok(engine)
        }
        Err(error) => Err(Report::from(error)),
    }
}
