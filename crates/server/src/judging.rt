//! The verdicts of `check`, as lines. Start with [`judge`].

ghost use Rattle.std.specs.Prelude.{◌≡◌, ◌++◌, ◌∷◌, [], codes, decimal, IfOk, IfSome, OnOk, string_bytes};
ghost use Rattle.paths.specs.Deaths.{AreDeaths};
ghost use Rattle.certificate.specs.Drafts.{Adds};
ghost use Rattle.scripts.specs.Transcript.{line, name_word};
ghost use Rattle.server.specs.Verdicts.{certificates_in, undecided_word, is_no, is_undecided, Judges, path_text, path_words, status_by, verdict_line};

use certificate::{Draft, deaths_for};
use exchange_graph::Topology;
use guarantee_search::{UndecidedCause, Verdict, search_by};
use guarantees::Guarantee;
use model::Text;
use paths::Deaths;
use scripts::{name_word, put_line};
use std::alloc::{AllocError, Global};

/// What a command prints, and its exit status.
#[derive(Drop)]
pub(crate) struct Output {
    pub(crate) text: Vec<u8>,
    pub(crate) status: u8,
}

/// Returns the line of guarantee `number`, which holds by a certificate with `states` states.
fn yes_line(alloc: Global, number: u64, states: usize) -> Result<String, AllocError>
    ensures { IfOk result (λ text. string_bytes text ≡ line (decimal number ∷ codes "yes states" ∷ decimal states ∷ [])) }
{
    format!(in alloc; "{number} yes states {states}\n")
}

/// Appends a space and `name`.
fn put_name(alloc: Global, text: &mut String, name: &Text) -> Result<(), AllocError>
    ensures { OnOk result (string_bytes text.new ≡ string_bytes text.old ++ 32 ∷ name_word name.now) }
{
    let word = name_word(alloc, name.as_bytes())?;
    text.push_str(" ")?;
    text.push_str(&word)?;
    Ok(())
}

/// Returns the text of a path, which follows a key; it is empty if there is no path.
fn path_text(alloc: Global, path: &[Text]) -> Result<String, AllocError>
    ensures { IfOk result (λ text. string_bytes text ≡ path_text path.now) }
{
    if path.is_empty() {
        return Ok(String::new(alloc));
    }
    let mut text = String::from_str(alloc, " path")?;
    for name in path {
        put_name(alloc, &mut text, name)?;
    }
    Ok(text)
}

/// Returns the line of guarantee `number`, which `key` breaks, with `shown` after the key.
fn no_line_with(alloc: Global, number: u64, key: &[u8], shown: &str) -> Result<String, AllocError>
    ensures { IfOk result (λ text. string_bytes text ≡ decimal number ++ 32 ∷ (codes "no key" ++ 32 ∷ (name_word key.now ++ (shown.now ++ 10 ∷ [])))) }
{
    let key = name_word(alloc, key)?;
    format!(in alloc; "{number} no key {key}{shown}\n")
}

/// Returns the line of guarantee `number`, which `key` breaks, with the `path` to the queue, unless it is empty.
fn no_line(alloc: Global, number: u64, key: &[u8], path: &[Text]) -> Result<String, AllocError>
    ensures { IfOk result (λ text. string_bytes text ≡ line (decimal number ∷ codes "no key" ∷ name_word key.now ∷ path_words path.now)) }
{
    let shown = path_text(alloc, path)?;
    no_line_with(alloc, number, key, &shown)
}

/// Returns the word for why a guarantee is undecided.
fn undecided_word(cause: UndecidedCause) -> &'static str
    ensures { result.now ≡ undecided_word cause }
{
    match cause {
        UndecidedCause::TooManyStates => "states",
        UndecidedCause::KeyTooLong => "key",
    }
}

/// Returns the line of guarantee `number`, which is undecided.
fn undecided_line(alloc: Global, number: u64, cause: UndecidedCause) -> Result<String, AllocError>
    ensures { IfOk result (λ text. string_bytes text ≡ line (decimal number ∷ codes "undecided" ∷ undecided_word cause ∷ [])) }
{
    let cause = undecided_word(cause);
    format!(in alloc; "{number} undecided {cause}\n")
}

/// Returns the line of the verdict on guarantee `number`.
fn verdict_line(alloc: Global, number: u64, verdict: &Verdict) -> Result<String, AllocError>
    ensures { IfOk result (λ text. string_bytes text ≡ verdict_line number verdict.now) }
{
    match verdict {
        Verdict::Yes(certificate) => yes_line(alloc, number, certificate.states().len()),
        Verdict::No(refutation) => no_line(
            alloc,
            number,
            refutation.key().as_bytes(),
            refutation.path(),
        ),
        Verdict::Undecided(cause) => undecided_line(alloc, number, *cause),
    }
}

fn is_no(verdict: &Verdict) -> bool
    ensures { result ≡ is_no verdict.now }
{
    match verdict {
        Verdict::No(_) => true,
        _ => false,
    }
}

fn is_undecided(verdict: &Verdict) -> bool
    ensures { result ≡ is_undecided verdict.now }
{
    match verdict {
        Verdict::Undecided(_) => true,
        _ => false,
    }
}

/// Returns the exit status: 1 if some guarantee is broken, 2 if none is and some is undecided, 0 if all hold.
fn status_of(broken: bool, undecided: bool) -> u8
    ensures { result ≡ status_by broken undecided }
{
    if broken {
        return 1;
    }
    if undecided {
        return 2;
    }
    0
}

/// Adds the certificate of a verdict, if it has one, to the draft, if there is one.
fn filed(alloc: Global, file: Option<Draft>, verdict: &Verdict) -> Option<Draft>
    ensures { Adds file result (certificates_in (verdict.now ∷ [])) }
{
    let draft = match file {
        Some(draft) => draft,
        None => return None,
    };
    match verdict {
        Verdict::Yes(certificate) => Some(draft.with_certificate(alloc, certificate)),
        _ => Some(draft),
    }
}

/// Does what [`judge`] does. What dead letters reach is explored for each `never` unless `deaths` are given.
fn judge_by(
    alloc: Global,
    topology: &Topology,
    deaths: Option<&Deaths>,
    guarantees: &[Guarantee],
    draft: Option<Draft>,
) -> Result<(Output, Option<Draft>), AllocError>
    requires { IfSome deaths (λ d. AreDeaths topology.now d.now) }
    ensures { IfOk result (λ r. Judges topology.now guarantees.now draft r.1 r.0.text.items r.0.status) }
{
    let mut file = draft;
    let mut text = Vec::new(alloc);
    let mut number = 1;
    let mut broken = false;
    let mut undecided = false;
    for guarantee in guarantees {
        let verdict = search_by(alloc, topology, deaths, guarantee)?;
        put_line(&mut text, verdict_line(alloc, number, &verdict)?)?;
        broken = broken | is_no(&verdict);
        undecided = undecided | is_undecided(&verdict);
        file = filed(alloc, file, &verdict);
        number += 1;
    }
    let status = status_of(broken, undecided);
    Ok((Output { text, status }, file))
}

/// Decides each of `guarantees`, and returns a line for each, numbered from 1, with the exit status. If a draft is given, returns
/// it with the certificates found.
///
/// The status is 0 only if all guarantees hold, and 1 only if one of them fails. A verdict is dropped once its line is made.
/// Fails only if an allocation fails.
pub(crate) fn judge(
    alloc: Global,
    topology: &Topology,
    guarantees: &[Guarantee],
    draft: Option<Draft>,
) -> Result<(Output, Option<Draft>), AllocError>
    ensures { IfOk result (λ r. Judges topology.now guarantees.now draft r.1 r.0.text.items r.0.status) }
{
    let deaths = deaths_for(alloc, topology, guarantees)?;
    judge_by(alloc, topology, deaths.as_ref(), guarantees, draft)
}
