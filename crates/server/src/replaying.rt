//! The command `replay`, and what its files put in force. Start with [`replay`] and [`in_force`].

ghost use Rattle.std.specs.Prelude.{◌≡◌, ◌≤◌, length, IfOk, MatchResult, Ok};
ghost use Rattle.engine.specs.InForce.{in_force};
ghost use Rattle.server.specs.Files.{AreKept};
ghost use Rattle.server.specs.Outcomes.{fault_number};
ghost use Rattle.server.specs.Performing.{AdmitsAll, GivesArrival, GivesArrivals, GivesForce, GivesForceBy, GivesScript, PlaysFile, ReplaysOver};
ghost use Rattle.server.specs.Program.{IsRefusalOf, PrintsRun};
ghost use Rattle.scripts.specs.Script.{script};
ghost use Rattle.server.specs.Streams.{gain};

use crate::judging::Output;
use crate::refusals::{CommandRefusal, Report, refuse, refuse_memory, report_of};
use crate::stated::{self, certificates_of, set_up};
use crate::storage::Files;
use certificate::{CertFault, Certificate, Checked, admit};
use engine::Setup;
use exchange_graph::Topology;
use guarantees::Guarantee;
use model::{Arrival, User};
use scripts::{BadScript, ReloadFiles, read_script, transcript_text};
use std::alloc::{AllocError, Global};
use std::io::Write;

/// Returns the number of a fault, from 1 to 6.
fn number_of(fault: &CertFault) -> u8
    ensures { result ≡ fault_number fault.now }
{
    match fault {
        CertFault::Start => 1,
        CertFault::Open { .. } => 2,
        CertFault::Missed { .. } => 3,
        CertFault::Forbidden { .. } => 4,
        CertFault::Form => 5,
        CertFault::Memory => 6,
    }
}

/// Admits a topology under guarantees by their certificates.
fn admitted(
    alloc: Global,
    topology: Topology,
    promised: Vec<Guarantee>,
    certificates: &[Certificate],
) -> Result<Checked, CommandRefusal>
    requires { length promised.items ≤ 64 }
    ensures { AdmitsAll topology promised.items certificates.now result }
{
    match admit(alloc, topology, promised, certificates) {
        Ok(checked) => Ok(checked),
        Err((_, CertFault::Memory)) => Err(CommandRefusal::Memory),
        Err((place, fault)) => Err(CommandRefusal::Certificate {
            number: place as u64 + 1,
            fault: number_of(&fault),
        }),
    }
}

/// The files from which a broker starts, if they are named.
#[derive(Clone, Copy, Drop)]
pub struct BrokerFiles<'a> {
    pub definitions: Option<&'a str>,
    pub guarantees: Option<&'a str>,
    pub certificates: Option<&'a str>,
}

/// Returns the topology, guarantees and users that the named files put in force. Judges the files in the order of the fields, and
/// changes none.
pub fn in_force<'a, F: Files>(
    alloc: Global,
    named: BrokerFiles<'a>,
    files: &mut F,
) -> Result<(Checked, Vec<User>), Report<'a>>
    ensures force { GivesForce (F.holds files.old) named.entry result }
    ensures files { AreKept (F.holds files.old) (F.holds files.new) }
{
    let stated::Setup {
        topology,
        users,
        guarantees,
    } = match set_up(alloc, named.definitions, named.guarantees, files) {
        Ok(setup) => setup,
        Err(refused) => return Err(report_of(refused)),
    };
    let certificates = match certificates_of(alloc, named.certificates, files) {
        Ok(certificates) => certificates,
        Err(refused) => return Err(report_of(refused)),
    };
    match admitted(alloc, topology, guarantees, certificates.as_slice()) {
        Ok(checked) => Ok((checked, users)),
        Err(why) => Err(Report { file: "", why }),
    }
}

/// Parses a script's text.
fn said_in(alloc: Global, text: &[u8]) -> Result<Vec<scripts::Arrival>, CommandRefusal>
    ensures { MatchResult result (λ said. script text.now ≡ Ok said.items) (λ refusal. IsRefusalOf refusal text.now) }
{
    match read_script(alloc, text) {
        Ok(said) => Ok(said),
        Err(BadScript::Line(n)) => Err(CommandRefusal::Line(n)),
        Err(BadScript::Memory) => Err(CommandRefusal::Memory),
    }
}

/// Reads and parses a script's file.
fn script_of<F: Files>(
    alloc: Global,
    script: &str,
    files: &mut F,
) -> Result<Vec<scripts::Arrival>, CommandRefusal>
    ensures said { GivesScript (F.holds files.old script.now) result }
    ensures files { AreKept (F.holds files.old) (F.holds files.new) }
{
    let text = files.read(alloc, script)?;
    said_in(alloc, text.as_slice())
}

/// Returns what the files of a reload put in force.
fn setup_of<'a, F: Files>(
    alloc: Global,
    names: &'a ReloadFiles,
    files: &mut F,
) -> Result<Setup, Report<'a>>
    ensures force { GivesForceBy (F.holds files.old) names.now result }
    ensures files { AreKept (F.holds files.old) (F.holds files.new) }
{
    let named = BrokerFiles {
        definitions: Some(names.definitions()),
        guarantees: Some(names.guarantees()),
        certificates: Some(names.certificates()),
    };
    match in_force(alloc, named, files) {
        Ok((checked, users)) => Ok(Setup::new(checked, users)),
        Err(report) => Err(report),
    }
}

/// Converts an event of a script to one of the broker: reads the files of a reload, and copies any other.
fn arrival_of<'a, F: Files>(
    alloc: Global,
    said: &'a scripts::Arrival,
    files: &mut F,
) -> Result<Arrival<Setup>, Report<'a>>
    ensures set_up { GivesArrival (F.holds files.old) said.now result }
    ensures files { AreKept (F.holds files.old) (F.holds files.new) }
{
    match said {
        Arrival::Open => Ok(Arrival::Open),
        Arrival::Ready(k) => Ok(Arrival::Ready(*k)),
        Arrival::In(c, bytes) => match bytes.clone() {
            Ok(bytes) => Ok(Arrival::In(*c, bytes)),
            Err(error) => Err(Report::from(error)),
        },
        Arrival::Sent(c, n) => Ok(Arrival::Sent(*c, *n)),
        Arrival::Pump => Ok(Arrival::Pump),
        Arrival::Lose(c) => Ok(Arrival::Lose(*c)),
        Arrival::Reload(names) => match setup_of(alloc, names, files) {
            Ok(setup) => Ok(Arrival::Reload(setup)),
            Err(report) => Err(report),
        },
    }
}

/// Converts the events of a script to those of the broker, reading the files of the reloads in order.
fn arrivals_of<'a, F: Files>(
    alloc: Global,
    said: &'a [scripts::Arrival],
    files: &mut F,
) -> Result<Vec<Arrival<Setup>>, Report<'a>>
    ensures set_up { GivesArrivals (F.holds files.old) said.now result }
    ensures files { AreKept (F.holds files.old) (F.holds files.new) }
{
    let mut arrivals = Vec::new(alloc);
    for one in said {
        let arrival = match arrival_of(alloc, one, files) {
            Ok(arrival) => arrival,
            Err(report) => return Err(report),
        };
        if let Err(error) = arrivals.push(arrival) {
            return Err(Report::from(AllocError::from(error)));
        }
    }
    Ok(arrivals)
}

/// Runs a broker over `arrivals` and returns its transcript. Fails only if an allocation fails.
fn played(
    alloc: Global,
    checked: Checked,
    users: Vec<User>,
    arrivals: Vec<Arrival<Setup>>,
) -> Result<Vec<u8>, AllocError>
    ensures { IfOk result (λ printed. PrintsRun (in_force checked users.items) arrivals.items printed.items) }
{
    let transcript = engine::run(alloc, &checked, users.as_slice(), arrivals.as_slice())?;
    transcript_text(alloc, &transcript)
}

/// Runs the script of a file and returns its transcript. If it is refused, reports that on `err` and returns the exit status.
fn played_file<F: Files, E: Write>(
    alloc: Global,
    script: &str,
    checked: Checked,
    users: Vec<User>,
    files: &mut F,
    err: &mut E,
) -> Result<Vec<u8>, u8>
    ensures plays { PlaysFile (F.holds files.old) script.now (in_force checked users.items) (gain E.contents err.old err.new) result }
    ensures files { AreKept (F.holds files.old) (F.holds files.new) }
{
    let said = match script_of(alloc, script, files) {
        Ok(said) => said,
        Err(why) => return Err(refuse(alloc, err, Report { file: script, why })),
    };
    let arrivals = match arrivals_of(alloc, said.as_slice(), files) {
        Ok(arrivals) => arrivals,
        Err(report) => return Err(refuse(alloc, err, report)),
    };
    drop(said);
    match played(alloc, checked, users, arrivals) {
        Ok(text) => Ok(text),
        Err(_) => Err(refuse_memory(err)),
    }
}

/// Performs `replay SCRIPT`: runs the script over what the `named` files put in force, and returns its transcript.
///
/// The `named` files are judged first. The whole script is read before the files of its reloads are judged, in its order. If a
/// file is refused, reports that on `err` and returns the exit status.
pub fn replay<F: Files, E: Write>(
    alloc: Global,
    script: &str,
    named: BrokerFiles<'_>,
    files: &mut F,
    err: &mut E,
) -> Result<Output, u8>
    ensures answers { ReplaysOver (F.holds files.old) (F.holds files.new) script.now named.entry (gain E.contents err.old err.new) result }
    ensures files { AreKept (F.holds files.old) (F.holds files.new) }
{
    let (checked, users) = match in_force(alloc, named, files) {
        Ok(force) => force,
        Err(report) => return Err(refuse(alloc, err, report)),
    };
    match played_file(alloc, script, checked, users, files, err) {
        Ok(text) => Ok(Output { text, status: 0 }),
        Err(status) => Err(status),
    }
}
