//! Reads certificates files. Start with [`Certificate::read`].

ghost use Rattle.std.specs.Prelude.{◌≡◌, option_and_then};
ghost use Rattle.serde_json.specs.Find.{as_array};
ghost use Rattle.serde_json.specs.View.{items_view, view};
ghost use Rattle.json_file.specs.Members.{each};
ghost use Rattle.json_file.specs.Outcomes.{GivesItems};
ghost use Rattle.certificate.specs.Stated.{certificates_stated, excepting_at, excepting_of, form_at, sliced_at, state_in, states_at, whole_at};
ghost use Rattle.certificate.specs.Reads.{GivesForm, GivesStates, ReadsCertificateFile};

use crate::certificates::Certificate;
use crate::forms::Form;
use json_file::{FileCause, FromValue, elements, entries, has_only, parse, text};
use serde_json::Value;
use std::alloc::Global;

/// Reads the elements of a value, which has to be an array.
fn array<E: FromValue>(alloc: Global, value: &Value) -> Result<Vec<E>, FileCause>
    ensures { GivesItems result (option_and_then (each E.states) (as_array (view value.now))) }
{
    match value.as_array() {
        Some(array) => elements(alloc, array.as_slice()),
        None => Err(FileCause::Malformed),
    }
}

/// Reads a state.
#[tactic(auto, unfolding(crate::specs::Stated::state_in))]
fn state(alloc: Global, value: &Value) -> Result<Vec<u64>, FileCause>
    ensures { GivesItems result (state_in (view value.now)) }
{
    array(alloc, value)
}

/// Reads states.
fn states(alloc: Global, values: &[Value]) -> Result<Vec<Vec<u64>>, FileCause>
    ensures { GivesStates result (each state_in (items_view values.now)) }
{
    let mut found = Vec::new(alloc);
    for value in values {
        found.push(state(alloc, value)?)?;
    }
    Ok(found)
}

/// Reads the member `states` of a certificate.
#[tactic(auto, unfolding(crate::specs::Stated::states_at))]
fn states_at(alloc: Global, value: &Value) -> Result<Vec<Vec<u64>>, FileCause>
    ensures { GivesStates result (states_at (view value.now)) }
{
    match value.get("states").and_then(Value::as_array) {
        Some(array) => states(alloc, array.as_slice()),
        None => Err(FileCause::Malformed),
    }
}

/// Reads form 1, whose object has no other members.
#[tactic(auto, unfolding(crate::specs::Stated::whole_at))]
fn whole(value: &Value) -> Result<Form, FileCause>
    ensures { GivesForm result (whole_at (view value.now)) }
{
    let names = ["exchange", "form", "mode", "pattern", "queue", "states"];
    if !has_only(value, &names) {
        return Err(FileCause::Malformed);
    }
    Ok(Form::Whole)
}

/// Reads form 2, whose object has no other members.
#[tactic(auto, unfolding(crate::specs::Stated::sliced_at, crate::specs::Stated::tracked_at))]
fn sliced(alloc: Global, value: &Value) -> Result<Form, FileCause>
    ensures { GivesForm result (sliced_at (view value.now)) }
{
    let names = [
        "exchange", "form", "mode", "pattern", "queue", "states", "tracked",
    ];
    if !has_only(value, &names) {
        return Err(FileCause::Malformed);
    }
    let indices = entries(alloc, value, "tracked")?;
    Ok(Form::Sliced(indices))
}

/// Reads the texts and the indices of form 3.
#[tactic(auto, unfolding(crate::specs::Stated::excepting_of, crate::specs::Stated::excepts_at, crate::specs::Stated::tracked_at))]
fn excepting_of(alloc: Global, value: &Value) -> Result<Form, FileCause>
    ensures { GivesForm result (excepting_of (view value.now)) }
{
    let excepts = entries(alloc, value, "except")?;
    let indices = entries(alloc, value, "tracked")?;
    Ok(Form::Excepting { excepts, indices })
}

/// Reads form 3, whose object has no other members.
#[tactic(auto, unfolding(crate::specs::Stated::excepting_at))]
fn excepting(alloc: Global, value: &Value) -> Result<Form, FileCause>
    ensures { GivesForm result (excepting_at (view value.now)) }
{
    let names = [
        "except", "exchange", "form", "mode", "pattern", "queue", "states", "tracked",
    ];
    if has_only(value, &names) {
        excepting_of(alloc, value)
    } else {
        Err(FileCause::Malformed)
    }
}

/// Reads the form of a certificate: the member `form`, and the members that belong to it.
#[tactic(auto, unfolding(crate::specs::Stated::form_at, crate::specs::Stated::form_of))]
fn form(alloc: Global, value: &Value) -> Result<Form, FileCause>
    ensures { GivesForm result (form_at (view value.now)) }
{
    match value.get("form").and_then(Value::as_u64) {
        Some(1) => whole(value),
        Some(2) => sliced(alloc, value),
        Some(3) => excepting(alloc, value),
        _ => Err(FileCause::Malformed),
    }
}

impl FromValue for Certificate {
    ghost use Rattle.certificate.specs.Stated.{certificate_at};

    ghost states = { certificate_at };

    #[tactic(auto, unfolding(crate::specs::Stated::certificate_at))]
    fn read(alloc: Global, value: &Value) -> Result<Certificate, FileCause> {
        let form = form(alloc, value)?;
        let exchange = text(alloc, value, "exchange")?;
        let mode = text(alloc, value, "mode")?;
        let pattern = text(alloc, value, "pattern")?;
        let queue = text(alloc, value, "queue")?;
        let states = states_at(alloc, value)?;
        Ok(Certificate::new(form, exchange, mode, pattern, queue, states))
    }
}

/// Reads the certificates of a file's value.
#[tactic(auto, unfolding(crate::specs::Stated::certificates_stated))]
fn stated(alloc: Global, value: &Value) -> Result<Vec<Certificate>, FileCause>
    ensures { GivesItems result (certificates_stated (view value.now)) }
{
    array(alloc, value)
}

impl Certificate {
    /// Reads a certificates file, in its order. Fails with the reason why the file is refused.
    ///
    /// A file has at most 16,777,216 bytes and is an array of objects, each with exactly the members of its form: of form 1 `exchange`,
    /// `form`, `mode`, `pattern`, `queue` and `states`; of form 2 these and `tracked`; of form 3 also `except`.
    pub fn read(alloc: Global, bytes: &[u8]) -> Result<Vec<Certificate>, FileCause>
        ensures { ReadsCertificateFile result bytes.now }
    {
        let value = parse(alloc, bytes)?;
        let found = stated(alloc, &value)?;
        Ok(found)
    }
}
