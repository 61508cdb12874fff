//! The outcomes of `verify`, as lines. Start with [`verify`].

ghost use Rattle.std.specs.Prelude.{◌≡◌, ◌++◌, IfOk, IfSome, OnOk, string_bytes};
ghost use Rattle.std.specs.List.{list_any};
ghost use Rattle.paths.specs.Deaths.{AreDeaths};
ghost use Rattle.server.specs.Outcomes.{AreOutcomes, is_fault, letter_word, open_line, outcome_line, outcome_lines, status_of_outcomes, ReturnsOutcome};
ghost use Rattle.server.specs.Outcomes.{Verifies};
ghost use Rattle.server.specs.Verdicts.{EachWith};

use crate::judging::Output;
use certificate::{CertFault, Certificate, check_by, deaths_for};
use exchange_graph::Topology;
use guarantees::Guarantee;
use model::Text;
use paths::Deaths;
use scripts::{name_word, put_line};
use std::alloc::{AllocError, Global};

/// The outcome of checking a certificate: accepted, or its first fault.
type Outcome = Result<(), CertFault>;

/// Checks the certificate at index `place`; fault 5 if there is none. Fails only if an allocation fails.
fn outcome_at(
    alloc: Global,
    topology: &Topology,
    deaths: Option<&Deaths>,
    guarantee: &Guarantee,
    certificates: &[Certificate],
    place: usize,
) -> Result<Outcome, AllocError>
    requires { IfSome deaths (λ d. AreDeaths topology.now d.now) }
    ensures { IfOk result (ReturnsOutcome topology.now certificates.now place guarantee.now) }
{
    if place >= certificates.len() {
        return Ok(Err(CertFault::Form));
    }
    match check_by(alloc, topology, deaths, guarantee, &certificates[place]) {
        Err(CertFault::Memory) => Err(AllocError),
        outcome => Ok(outcome),
    }
}

/// Checks the certificate of each guarantee. Fails only if an allocation fails. What dead letters reach is explored for each `never`
/// unless `deaths` are given.
fn outcomes_by(
    alloc: Global,
    topology: &Topology,
    deaths: Option<&Deaths>,
    guarantees: &[Guarantee],
    certificates: &[Certificate],
) -> Result<Vec<Outcome>, AllocError>
    requires { IfSome deaths (λ d. AreDeaths topology.now d.now) }
    ensures { IfOk result (λ outcomes. EachWith (ReturnsOutcome topology.now certificates.now) 0 guarantees.now outcomes.items) }
{
    let mut outcomes = Vec::new(alloc);
    for place in 0..guarantees.len() {
        let outcome = outcome_at(
            alloc,
            topology,
            deaths,
            &guarantees[place],
            certificates,
            place,
        )?;
        outcomes.push(outcome)?;
    }
    Ok(outcomes)
}

/// Checks the certificate of each guarantee, in order. Fails only if an allocation fails.
fn own_outcomes(
    alloc: Global,
    topology: &Topology,
    guarantees: &[Guarantee],
    certificates: &[Certificate],
) -> Result<Vec<Outcome>, AllocError>
    ensures { IfOk result (λ outcomes. EachWith (ReturnsOutcome topology.now certificates.now) 0 guarantees.now outcomes.items) }
{
    let deaths = deaths_for(alloc, topology, guarantees)?;
    outcomes_by(alloc, topology, deaths.as_ref(), guarantees, certificates)
}

/// Checks the certificate of each guarantee, and adds fault 5 if there are more certificates than guarantees. Fails only if an
/// allocation fails.
fn outcomes_of(
    alloc: Global,
    topology: &Topology,
    guarantees: &[Guarantee],
    certificates: &[Certificate],
) -> Result<Vec<Outcome>, AllocError>
    ensures { IfOk result (λ outcomes. AreOutcomes topology.now guarantees.now certificates.now outcomes.items) }
{
    let mut outcomes = own_outcomes(alloc, topology, guarantees, certificates)?;
    if guarantees.len() < certificates.len() {
        outcomes.push(Err(CertFault::Form))?;
    }
    Ok(outcomes)
}

/// Returns the word of a letter, or `other` for every word that no pattern names.
fn letter_word(alloc: Global, word: &Option<Text>) -> Result<String, AllocError>
    ensures { IfOk result (λ text. string_bytes text ≡ letter_word word.now) }
{
    match word {
        Some(word) => name_word(alloc, word.as_bytes()),
        None => String::from_str(alloc, "other"),
    }
}

/// Returns the line of fault 2: the letter `word` leads from the state at index `state` to one that is neither listed nor left out.
fn open_line(
    alloc: Global,
    number: u64,
    state: usize,
    word: &Option<Text>,
) -> Result<String, AllocError>
    ensures { IfOk result (λ text. string_bytes text ≡ open_line number state word.now) }
{
    let letter = letter_word(alloc, word)?;
    format!(in alloc; "{number} fault 2 state {state} letter {letter}\n")
}

/// Returns the line of an outcome of certificate `number`.
fn outcome_line(alloc: Global, number: u64, outcome: &Outcome) -> Result<String, AllocError>
    ensures { IfOk result (λ text. string_bytes text ≡ outcome_line number outcome.now) }
{
    match outcome {
        Ok(_) => format!(in alloc; "{number} ok\n"),
        Err(CertFault::Start) => format!(in alloc; "{number} fault 1\n"),
        Err(CertFault::Open { state, word }) => open_line(alloc, number, *state, word),
        Err(CertFault::Missed { state }) => format!(in alloc; "{number} fault 3 state {state}\n"),
        Err(CertFault::Forbidden { state }) => {
            format!(in alloc; "{number} fault 4 state {state}\n")
        }
        Err(CertFault::Form) => format!(in alloc; "{number} fault 5\n"),
        Err(CertFault::Memory) => format!(in alloc; "{number} fault 6\n"),
    }
}

/// Appends the lines of `outcomes`, numbered from 1. Fails only if an allocation fails.
fn put_outcomes(alloc: Global, text: &mut Vec<u8>, outcomes: &[Outcome]) -> Result<(), AllocError>
    ensures { OnOk result (text.new.items ≡ text.old.items ++ outcome_lines 1 outcomes.now) }
{
    let mut number = 1;
    for outcome in outcomes {
        put_line(text, outcome_line(alloc, number, outcome)?)?;
        number += 1;
    }
    Ok(())
}

fn is_fault(outcome: &Outcome) -> bool
    ensures { result ≡ is_fault outcome.now }
{
    match outcome {
        Ok(_) => false,
        Err(_) => true,
    }
}

fn has_fault(outcomes: &[Outcome]) -> bool
    ensures { result ≡ list_any is_fault outcomes.now }
{
    outcomes.iter().any(|outcome| is_fault(outcome))
}

/// Returns the exit status for `outcomes`: 1 if there is a fault, otherwise 0.
fn status_of(outcomes: &[Outcome]) -> u8
    ensures { result ≡ status_of_outcomes outcomes.now }
{
    if has_fault(outcomes) {
        return 1;
    }
    0
}

/// Checks the certificates of `guarantees`, and returns a line for each, numbered from 1, with the exit status.
///
/// The certificate of a guarantee is the one at its index. A guarantee without a certificate is fault 5; if there are more
/// certificates than guarantees, that is one more fault 5. The status is 0 only if each guarantee has its certificate, and so
/// holds. Fails only if an allocation fails.
#[tactic(auto, using(crate::proofs::Meaning::outcomes_mean))]
pub(crate) fn verify(
    alloc: Global,
    topology: &Topology,
    guarantees: &[Guarantee],
    certificates: &[Certificate],
) -> Result<Output, AllocError>
    ensures { IfOk result (λ o. Verifies topology.now guarantees.now certificates.now o.text.items o.status) }
{
    let outcomes = outcomes_of(alloc, topology, guarantees, certificates)?;
    let mut text = Vec::new(alloc);
    put_outcomes(alloc, &mut text, outcomes.as_slice())?;
    Ok(Output {
        text,
        status: status_of(outcomes.as_slice()),
    })
}
