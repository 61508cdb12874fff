//! Writes certificates files. Start with [`Certificate::write`].

ghost use Rattle.std.specs.Prelude.{◌≡◌, ◌++◌, length, nat_lt, IfOk, OnOk};
ghost use Rattle.serde_json.specs.Data.{object};
ghost use Rattle.serde_json.specs.View.{view};
ghost use Rattle.serde_json.specs.Written.{comma_if};
ghost use Rattle.certificate.specs.Views.{form_view};
ghost use Rattle.certificate.specs.Drafts.{Puts};
ghost use Rattle.certificate.specs.Spelled.{excepting_head, plain_head};
ghost use Rattle.certificate.specs.Writes.{GivesHead, GivesText, GivesTexts, HasTail, HasTracked, LendsText, PutsCertificate, PutsHead, Writes};

use crate::certificates::Certificate;
use crate::forms::Form;
use crate::state_texts::{put_state, put_states};
use crate::unwritten::Unwritten;
use model::Text;
use serde_json::{Value, json};
use std::alloc::{AllocError, Global};
use std::marker::Model;

/// Borrows the text. Fails if it is not UTF-8.
fn text_of(text: &Text) -> Result<&str, Unwritten>
    ensures { LendsText result text.now }
{
    match std::str::from_utf8(text.as_bytes()) {
        Ok(text) => Ok(text),
        Err(_) => Err(Unwritten::NotText),
    }
}

/// Returns a text as JSON. Fails if it is not UTF-8, or if an allocation fails.
fn text_value(alloc: Global, text: &Text) -> Result<Value, Unwritten>
    ensures { GivesText result text.now }
{
    let text = text_of(text)?;
    Ok(Value::String(String::from_str(alloc, text)?))
}

/// Returns texts as JSON. Fails if one is not UTF-8, or if an allocation fails.
fn texts_value(alloc: Global, texts: &[Text]) -> Result<Value, Unwritten>
    ensures { GivesTexts result texts.now }
{
    let mut found = Vec::new(alloc);
    for text in texts {
        found.push(text_value(alloc, text)?)?;
    }
    Ok(Value::Array(found))
}

/// The texts of a certificate.
#[derive(Drop)]
struct Texts<'a> {
    exchange: &'a str,
    mode: &'a str,
    pattern: &'a str,
    queue: &'a str,
}

impl<'a> Model for Texts<'a> {
    ghost use Rattle.certificate.specs.Spelled.{Texts as Shown};

    ghost Value = { Shown };

    ghost view = { λ t. record { exchange = t.exchange.now; mode = t.mode.now; pattern = t.pattern.now; queue = t.queue.now } };
}

impl<'a> Texts<'a> {
    fn exchange(&self) -> &'a str
        ensures { result.now ≡ self.now.exchange }
    {
        self.exchange
    }

    fn mode(&self) -> &'a str
        ensures { result.now ≡ self.now.mode }
    {
        self.mode
    }

    fn pattern(&self) -> &'a str
        ensures { result.now ≡ self.now.pattern }
    {
        self.pattern
    }

    fn queue(&self) -> &'a str
        ensures { result.now ≡ self.now.queue }
    {
        self.queue
    }
}

/// Returns the members before `states` of a certificate without `except`, as JSON. Fails only if an allocation fails.
fn plain_head(alloc: Global, texts: &Texts<'_>, form: u64) -> Result<Value, AllocError>
    ensures { IfOk result (λ v. view v ≡ object (plain_head texts.now form)) }
{
    json!(in alloc; {"exchange": texts.exchange(), "form": form, "mode": texts.mode(), "pattern": texts.pattern(), "queue": texts.queue()})
}

/// Returns the members before `states` of a certificate with `except`, as JSON. Fails only if an allocation fails.
fn excepting_head(alloc: Global, texts: &Texts<'_>, excepts: Value) -> Result<Value, AllocError>
    ensures { IfOk result (λ v. view v ≡ object (excepting_head texts.now (view excepts))) }
{
    json!(in alloc; {
        "except": excepts, "exchange": texts.exchange(), "form": 3u64, "mode": texts.mode(), "pattern": texts.pattern(), "queue": texts.queue()
    })
}

/// Returns the members before `states` of a certificate of form `form`, as JSON. Fails if a text of the form is not UTF-8, or if an allocation fails.
fn head_of(alloc: Global, form: &Form, texts: &Texts<'_>) -> Result<Value, Unwritten>
    ensures { GivesHead result (form_view form.now) texts.now }
{
    match form {
        Form::Whole => Ok(plain_head(alloc, texts, 1)?),
        Form::Sliced(_) => Ok(plain_head(alloc, texts, 2)?),
        Form::Excepting { excepts, .. } => {
            let excepts = texts_value(alloc, excepts.as_slice())?;
            Ok(excepting_head(alloc, texts, excepts)?)
        }
    }
}

/// Appends a certificate of form `form` up to its states. Fails if a text of the form is not UTF-8, or if an allocation fails.
fn put_head(
    alloc: Global,
    text: &mut Vec<u8>,
    form: &Form,
    texts: &Texts<'_>,
) -> Result<(), Unwritten>
    ensures { PutsHead result text.old.items text.new.items (form_view form.now) texts.now }
{
    let head = head_of(alloc, form, texts)?;
    let written = head.to_string(alloc)?;
    let bytes = written.as_str().as_bytes();
    text.extend_from_slice(&bytes[..bytes.len() - 1])?;
    text.extend_from_slice(b",\"states\":")?;
    Ok(())
}

/// Appends the tracked indices `indices` and the closing brace. Fails only if an allocation fails.
fn put_tracked(text: &mut Vec<u8>, indices: &[u64]) -> Result<(), AllocError>
    ensures { OnOk result (HasTracked text.old.items text.new.items indices.now) }
{
    text.extend_from_slice(b",\"tracked\":")?;
    put_state(text, indices)?;
    text.push(b'}')?;
    Ok(())
}

/// Appends what follows the states of a certificate of form `form`. Fails only if an allocation fails.
fn put_tail(text: &mut Vec<u8>, form: &Form) -> Result<(), AllocError>
    ensures { OnOk result (HasTail text.old.items text.new.items (form_view form.now)) }
{
    match form {
        Form::Whole => {
            text.push(b'}')?;
            Ok(())
        }
        Form::Sliced(indices) => put_tracked(text, indices.as_slice()),
        Form::Excepting { indices, .. } => put_tracked(text, indices.as_slice()),
    }
}

/// Appends `certificate`. Fails if one of its texts is not UTF-8, if `most` bytes are reached before its last state, or if an allocation fails.
fn put_certificate(
    alloc: Global,
    text: &mut Vec<u8>,
    most: Option<usize>,
    certificate: &Certificate,
) -> Result<(), Unwritten>
    ensures { PutsCertificate result most text.old.items text.new.items certificate.now }
{
    let texts = Texts {
        exchange: text_of(certificate.exchange())?,
        mode: text_of(certificate.mode())?,
        pattern: text_of(certificate.pattern())?,
        queue: text_of(certificate.queue())?,
    };
    put_head(alloc, text, certificate.form(), &texts)?;
    put_states(text, most, certificate.states())?;
    put_tail(text, certificate.form())?;
    Ok(())
}

/// Appends a comma if the text has more than the opening bracket. Fails only if an allocation fails.
fn put_separator(text: &mut Vec<u8>) -> Result<(), AllocError>
    ensures { OnOk result (text.new.items ≡ text.old.items ++ comma_if (nat_lt 1 (length text.old.items))) }
{
    if text.len() > 1 {
        text.push(b',')?;
    }
    Ok(())
}

/// Appends `certificate`, behind a comma unless it is the first. Fails if one of its texts is not UTF-8, if `most` bytes are reached before its last state, or
/// if an allocation fails.
pub(crate) fn put_listed(
    alloc: Global,
    text: &mut Vec<u8>,
    most: Option<usize>,
    certificate: &Certificate,
) -> Result<(), Unwritten>
    ensures { Puts result most text.old.items text.new.items certificate.now }
{
    put_separator(text)?;
    put_certificate(alloc, text, most, certificate)
}

impl Certificate {
    /// Returns the file of `certificates`, in order: compact, the members in the order of their names. It is read back as the same certificates if it has at
    /// most 16,777,216 bytes. Fails if a text of a certificate is not UTF-8, or if an allocation fails.
    pub fn write(alloc: Global, certificates: &[Certificate]) -> Result<Vec<u8>, Unwritten>
        ensures { Writes result certificates.now }
    {
        let mut text = Vec::new(alloc);
        text.push(b'[')?;
        for certificate in certificates {
            put_listed(alloc, &mut text, None, certificate)?;
        }
        text.push(b']')?;
        Ok(text)
    }
}
