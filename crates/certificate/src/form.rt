//! Decides whether a certificate has the form that a guarantee needs.

ghost use Rattle.std.specs.Prelude.{◌≡◌, ◌≤◌, ◌<◌, ◌+◌, ◌^◌, Decides, length};
ghost use Rattle.std.specs.List.{AllByRecursion};
ghost use Rattle.std.specs.Str.{bytes_eq};
ghost use Rattle.model.specs.Certificates.{IsFormed, IsOf, IsShort, Suits, mode_name};
ghost use Rattle.model.specs.Positions.{FitsEach};
ghost use Rattle.state_walks.specs.Judged.{states_of};
ghost use Rattle.certificate.specs.Checks.{FitsGuarantee};
ghost use Rattle.certificate.specs.Indices.{IsPassedOver, same_texts};
ghost use Rattle.certificate.specs.Views.{form_view};

use crate::certificates::Certificate;
use crate::forms::Form;
use crate::indices::{MOST_PATTERNS, has_few_indices, is_passed_over, passes_over};
use crate::order::ascend;
use guarantees::Guarantee;
use model::{Mode, Text, limits};
use word_automata::Tracked;

/// Returns whether `name` is the name of `mode`.
fn is_mode(mode: Mode, name: &[u8]) -> bool
    ensures { Decides result (name.now ≡ mode_name mode) }
{
    match mode {
        Mode::Reaches => name == b"reaches".as_slice(),
        Mode::Never => name == b"never".as_slice(),
    }
}

/// Returns whether the certificate has the guarantee's texts and mode.
fn is_of(guarantee: &Guarantee, certificate: &Certificate) -> bool
    ensures { Decides result (IsOf guarantee.now certificate.now) }
{
    certificate.exchange().as_bytes() == guarantee.exchange().as_bytes()
        && is_mode(guarantee.mode(), certificate.mode().as_bytes())
        && certificate.pattern().as_bytes() == guarantee.pattern().as_bytes()
        && certificate.queue().as_bytes() == guarantee.queue().as_bytes()
}

/// Returns whether `text` and `other` are the same.
fn is_same(text: &Text, other: &Text) -> bool
    ensures { result ≡ bytes_eq text.now other.now }
{
    text.as_bytes() == other.as_bytes()
}

/// Returns whether `texts` and `others` are the same, by comparing them one by one.
fn are_equal(texts: &[Text], others: &[Text]) -> bool
    ensures { result ≡ same_texts texts.now others.now }
{
    if texts.len() != others.len() {
        return false;
    }
    for at in 0..texts.len() {
        if !is_same(&texts[at], &others[at]) {
            return false;
        }
    }
    true
}

/// Returns whether `texts` and `others` are the same, in the same order.
fn are_same(texts: &[Text], others: &[Text]) -> bool
    ensures { Decides result (texts.now ≡ others.now) }
{
    are_equal(texts, others)
}

/// Returns whether `form` is one that a guarantee with these `excepts` takes.
fn suits(form: &Form, excepts: &[Text]) -> bool
    ensures { Decides result (Suits (form_view form.now) excepts.now) }
{
    match form {
        Form::Whole => excepts.is_empty(),
        Form::Sliced(_) => excepts.is_empty(),
        Form::Excepting { excepts: own, .. } => {
            !excepts.is_empty() && are_same(own.as_slice(), excepts)
        }
    }
}

/// Returns whether `number` has no bit above bit `count`.
fn fits_tokens(count: usize, number: u64) -> bool
    requires { count ≤ 31 }
    ensures { Decides result (number < 2 ^ (count + 1)) }
{
    number < 1u64 << (count + 1)
}

/// Returns whether `state` has a number for each pattern, with no bit above that of the pattern's last token.
pub fn fits(patterns: &[Tracked], state: &[u64]) -> bool
    requires { AllByRecursion IsShort patterns.now }
    ensures { Decides result (FitsEach patterns.now state.now) }
{
    if patterns.len() != state.len() {
        return false;
    }
    for at in 0..patterns.len() {
        if !fits_tokens(patterns[at].tokens().len(), state[at]) {
            return false;
        }
    }
    true
}

/// Returns whether each of `states` fits the patterns, as [`fits`] checks it.
fn all_fit(patterns: &[Tracked], states: &[Vec<u64>]) -> bool
    requires { AllByRecursion IsShort patterns.now }
    ensures { Decides result (AllByRecursion (FitsEach patterns.now) (states_of states.now)) }
{
    for state in states {
        if !fits(patterns, state.as_slice()) {
            return false;
        }
    }
    true
}

/// Returns whether none of `states` is dropped. If `drops` is clear, none is.
fn none_dropped(drops: bool, states: &[Vec<u64>]) -> bool
    ensures { Decides result (AllByRecursion (λ s. IsPassedOver drops s → ⊥) (states_of states.now)) }
{
    for state in states {
        if is_passed_over(drops, state.as_slice()) {
            return false;
        }
    }
    true
}

/// Returns whether the certificate fits the guarantee, as far as that can be seen without the tracked patterns.
pub fn fits_guarantee(guarantee: &Guarantee, certificate: &Certificate) -> bool
    ensures { Decides result (FitsGuarantee guarantee.now certificate.now) }
{
    is_of(guarantee, certificate)
        && suits(certificate.form(), guarantee.excepts())
        && has_few_indices(certificate.form())
        && certificate.states().len() <= limits::STATES
        && ascend(certificate.states())
        && none_dropped(passes_over(certificate.form()), certificate.states())
}

/// Returns whether there are at most 64 patterns, and each state fits them.
pub fn is_formed(guarantee: &Guarantee, patterns: &[Tracked], certificate: &Certificate) -> bool
    requires fits { FitsGuarantee guarantee.now certificate.now }
    requires short { AllByRecursion IsShort patterns.now }
    ensures { Decides result (IsFormed guarantee.now patterns.now certificate.now) }
{
    patterns.len() <= MOST_PATTERNS && all_fit(patterns, certificate.states())
}
