//! Parses a file, and reads the members of a JSON object. Start with [`parse`]. A member of another type is
//! [`FileCause::Malformed`], an allocation failure [`FileCause::Memory`].

ghost use Rattle.std.specs.Prelude.{◌≡◌, map, string_bytes};
ghost use Rattle.std.specs.BTreeMap.{keys};
ghost use Rattle.std.specs.List.{list_all, list_any};
ghost use Rattle.std.specs.Str.{bytes_eq};
ghost use Rattle.serde_json.specs.View.{view};
ghost use Rattle.json_file.specs.Members.{
  IsJson,
  arguments_member,
  has_only,
  is_filled,
  optional_number_member,
  optional_text_member,
  text_member,
  truth_member,
};
ghost use Rattle.json_file.specs.Outcomes.{GivesValue, GivesView, Parses};

use crate::causes::FileCause;
use model::{Text, limits};
use serde_json::{Map, Value};
use std::alloc::Global;

/// Parses a file: JSON of at most 16,777,216 bytes that nests at most 127 deep.
///
/// Fails with [`FileCause::TooMany`] if the file is longer, with [`FileCause::NotJson`] if it is no such JSON, and with
/// [`FileCause::Memory`] if an allocation fails.
pub fn parse(alloc: Global, bytes: &[u8]) -> Result<Value, FileCause>
    ensures { Parses result bytes.now }
{
    if bytes.len() > limits::FILE_BYTES {
        return Err(FileCause::TooMany);
    }
    match Value::from_slice(alloc, bytes) {
        Ok(value) => Ok(value),
        Err(error) => {
            if error.is_memory() {
                Err(FileCause::Memory)
            } else {
                Err(FileCause::NotJson)
            }
        }
    }
}

/// Returns the text at member `name`. Fails if there is none, or if an allocation fails.
#[tactic(auto, unfolding(crate::specs::Members::text_member))]
pub fn text(alloc: Global, value: &Value, name: &str) -> Result<Text, FileCause>
    ensures { GivesValue result (text_member name.now (view value.now)) }
{
    match value.get(name).and_then(Value::as_str) {
        Some(text) => Ok(Text::from_slice(alloc, text.as_bytes())?),
        None => Err(FileCause::Malformed),
    }
}

/// Returns the boolean at member `name`. Fails if there is none.
#[tactic(auto, unfolding(crate::specs::Members::truth_member))]
pub fn truth(value: &Value, name: &str) -> Result<bool, FileCause>
    ensures { GivesValue result (truth_member name.now (view value.now)) }
{
    match value.get(name).and_then(Value::as_bool) {
        Some(truth) => Ok(truth),
        None => Err(FileCause::Malformed),
    }
}

/// Returns the object at the member `arguments`. Fails if there is none.
#[tactic(auto, unfolding(crate::specs::Members::arguments_member))]
pub fn arguments(value: &Value) -> Result<&Value, FileCause>
    ensures { GivesView result (arguments_member (view value.now)) }
{
    match value.get("arguments") {
        Some(found) if found.is_object() => Ok(found),
        _ => Err(FileCause::Malformed),
    }
}

/// Returns the text at member `name`, or `None` if the member is left out. Fails if it is no text, or if an allocation fails.
#[tactic(auto, unfolding(crate::specs::Members::optional_text_member))]
pub fn optional_text(alloc: Global, value: &Value, name: &str) -> Result<Option<Text>, FileCause>
    ensures { GivesValue result (optional_text_member name.now (view value.now)) }
{
    match value.get(name) {
        None => Ok(None),
        Some(found) => match found.as_str() {
            Some(text) => Ok(Some(Text::from_slice(alloc, text.as_bytes())?)),
            None => Err(FileCause::Malformed),
        },
    }
}

/// Returns the whole number at member `name`, which may be left out. Fails if the member is no whole number below 2^32.
#[tactic(auto, unfolding(crate::specs::Members::optional_number_member))]
pub fn optional_number(value: &Value, name: &str) -> Result<Option<u32>, FileCause>
    ensures { GivesValue result (optional_number_member name.now (view value.now)) }
{
    match value.get(name) {
        None => Ok(None),
        Some(found) => match found.as_u64() {
            Some(number) if number <= 4_294_967_295 => Ok(Some(number as u32)),
            _ => Err(FileCause::Malformed),
        },
    }
}

/// Returns whether the array at member `name`, which may be left out, has an element. Fails if the member is no array.
#[tactic(auto, unfolding(crate::specs::Members::is_filled))]
pub fn is_filled(value: &Value, name: &str) -> Result<bool, FileCause>
    ensures { GivesValue result (is_filled name.now (view value.now)) }
{
    match value.get(name) {
        None => Ok(false),
        Some(found) => match found.as_array() {
            Some(array) => Ok(!array.is_empty()),
            None => Err(FileCause::Malformed),
        },
    }
}

/// Returns whether `name` is one of `names`.
fn is_among(names: &[&str], name: &str) -> bool
    ensures { result ≡ list_any (λ n. bytes_eq n.now name.now) names.now }
{
    names.iter().any(|other| *other == name)
}

/// Returns whether every key of `members` is one of `names`.
fn are_among(members: &Map<String, Value>, names: &[&str]) -> bool
    ensures { result ≡ list_all (λ k. list_any (λ n. bytes_eq n.now (string_bytes k)) names.now) (keys members.now) }
{
    members.keys().all(|key| is_among(names, key.as_str()))
}

/// Returns whether `value` is an object whose members are all called by one of `names`.
pub fn has_only(value: &Value, names: &[&str]) -> bool
    ensures { result ≡ has_only (map (λ n. n.now) names.now) (view value.now) }
{
    match value.as_object() {
        Some(members) => are_among(members, names),
        None => false,
    }
}
