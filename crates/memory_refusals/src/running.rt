//! Runs the sections in their order. Start with [`answered`].

use crate::asking::{
    Setting, admitted, certificates_of, checked, disproved, searched, set_up, stated,
};
use crate::counts::Counts;
use crate::replaying::Replay;
use crate::sections::{Section, sections_of};
use certificate::CertFault;
use engine::Engine;
use guarantee_search::Verdict;
use scripts::{BadScript, read_script};
use std::alloc::{AllocError, Global};
use std::io::{self, ErrorKind};

/// The files that are in force if none are named.
const NO_GUARANTEES: &str = "{\"guarantees\":[]}";

const NO_CERTIFICATES: &str = "[]";

/// Appends a line.
fn put(out: &mut String, line: &str) -> io::Result<()> {
    out.push_str(line)?;
    out.push_str("\n")?;
    Ok(())
}

/// Returns the word for the outcome of a check.
fn outcome_word(outcome: &Result<(), CertFault>) -> &'static str {
    match outcome {
        Ok(()) => "ok",
        Err(CertFault::Start) => "fault 1",
        Err(CertFault::Open { .. }) => "fault 2",
        Err(CertFault::Missed { .. }) => "fault 3",
        Err(CertFault::Forbidden { .. }) => "fault 4",
        Err(CertFault::Form) => "fault 5",
        Err(CertFault::Memory) => "memory",
    }
}

/// Checks the certificate of each guarantee, and appends the outcomes.
fn put_checks(
    alloc: Global,
    setting: Setting<'_>,
    counts: &mut Counts,
    out: &mut String,
) -> io::Result<()> {
    let (topology, guarantees) = stated(alloc, setting, counts)?;
    let certificates = certificates_of(alloc, setting)?;
    for (guarantee, certificate) in guarantees.iter().zip(certificates.iter()) {
        let outcome = checked(alloc, &topology, guarantee, certificate, counts);
        put(out, outcome_word(&outcome))?;
    }
    Ok(())
}

/// Admits what the files state, and appends the outcome.
fn put_admission(
    alloc: Global,
    setting: Setting<'_>,
    counts: &mut Counts,
    out: &mut String,
) -> io::Result<()> {
    match admitted(alloc, setting, counts)? {
        Ok(_) => put(out, "admitted"),
        Err((_, CertFault::Memory)) => Err(io::Error::from(AllocError)),
        Err((place, fault)) => {
            let word = outcome_word(&Err(fault));
            let number = place.saturating_add(1);
            let line = format!(in alloc; "{number} {word}")?;
            put(out, line.as_str())
        }
    }
}

/// Searches each guarantee, and appends the verdict, and whether a refutation disproves the guarantee.
fn put_verdicts(
    alloc: Global,
    setting: Setting<'_>,
    counts: &mut Counts,
    out: &mut String,
) -> io::Result<()> {
    let (topology, guarantees) = stated(alloc, setting, counts)?;
    for guarantee in &guarantees {
        match searched(alloc, &topology, guarantee, counts)? {
            Verdict::Yes(certificate) => {
                let states = certificate.states().len();
                let line = format!(in alloc; "yes states {states}")?;
                put(out, line.as_str())?;
            }
            Verdict::No(refutation) => {
                let seen = disproved(alloc, &topology, guarantee, &refutation, counts);
                put(out, if seen { "no, disproved" } else { "no" })?;
            }
            Verdict::Undecided(_) => put(out, "undecided")?,
        }
    }
    Ok(())
}

/// Runs a script over what is in force, and appends the transcript. A reload in it names some of `files`.
fn put_run(
    alloc: Global,
    setting: Setting<'_>,
    files: &[Section<'_>],
    script: &str,
    counts: &mut Counts,
    out: &mut String,
) -> io::Result<()> {
    let arrivals = match read_script(alloc, script.as_bytes()) {
        Ok(arrivals) => arrivals,
        Err(BadScript::Memory) => return Err(io::Error::from(AllocError)),
        Err(BadScript::Line(number)) => {
            let line = format!(in alloc; "script {number}")?;
            return put(out, line.as_str());
        }
    };
    let (checked, users) = set_up(alloc, setting, counts)?;
    let mut replay = Replay::new(alloc, Engine::new(alloc, checked, users)?);
    for arrival in &arrivals {
        replay.arrive(alloc, arrival, files, counts)?;
    }
    let text = replay.text(alloc)?;
    match str::from_utf8(text.as_slice()) {
        Ok(text) => Ok(out.push_str(text)?),
        Err(_) => Err(io::Error::from(ErrorKind::InvalidData)),
    }
}

/// Runs one section: puts a file in force, keeps a file that may be named, or makes a call over the files in force.
fn put_section<'a>(
    alloc: Global,
    section: Section<'a>,
    setting: &mut Setting<'a>,
    files: &mut Vec<Section<'a>>,
    counts: &mut Counts,
    out: &mut String,
) -> io::Result<()> {
    match section.name {
        "definitions" => {
            setting.definitions = section.text;
            setting.guarantees = NO_GUARANTEES;
            setting.certificates = NO_CERTIFICATES;
            Ok(())
        }
        "guarantees" => {
            setting.guarantees = section.text;
            Ok(())
        }
        "certificates" => {
            setting.certificates = section.text;
            Ok(())
        }
        "check" => put_checks(alloc, *setting, counts, out),
        "admit" => put_admission(alloc, *setting, counts, out),
        "search" => put_verdicts(alloc, *setting, counts, out),
        name => match name.strip_prefix("file ") {
            Some(name) => {
                let text = section.text;
                Ok(files.push(Section { name, text })?)
            }
            None => {
                put(out, name)?;
                put_run(alloc, *setting, files, section.text, counts, out)
            }
        },
    }
}

/// Runs all sections, and returns what they print. A section called `file NAME` is a file that a script may name; one with
/// another name than those of files and calls is a script.
pub fn answered(alloc: Global, input: &str, counts: &mut Counts) -> io::Result<String> {
    let mut setting = Setting {
        definitions: "",
        guarantees: NO_GUARANTEES,
        certificates: NO_CERTIFICATES,
    };
    let mut files = Vec::new(alloc);
    let mut out = String::new(alloc);
    for section in sections_of(alloc, input)? {
        put_section(alloc, section, &mut setting, &mut files, counts, &mut out)?;
    }
    Ok(out)
}
