//! Reads arrays whose elements are all of one kind. Start with [`entries`].

ghost use Rattle.std.specs.Prelude.{◌≡◌, Option, option_and_then};
ghost use Rattle.serde_json.specs.Data.{Data};
ghost use Rattle.serde_json.specs.View.{view, items_view};
ghost use Rattle.json_file.specs.Members.{array_member, each};
ghost use Rattle.json_file.specs.Outcomes.{GivesValue, GivesItems};

use crate::causes::FileCause;
use model::Text;
use serde_json::Value;
use std::alloc::Global;

/// A type that is read from an element of a JSON array.
pub trait FromValue: Drop {
    /// The entry that a JSON value states, if it states one.
    ghost states: { Data → Option Self };

    /// Reads the entry that `value` states.
    ///
    /// Fails with [`FileCause::Malformed`] if it states none, or if an allocation fails.
    fn read(alloc: Global, value: &Value) -> Result<Self, FileCause>
    where
        Self: Sized,
        ensures { GivesValue result (states (view value.now)) };
}

impl FromValue for u64 {
    ghost use Rattle.json_file.specs.Members.{whole_number};

    ghost states = { whole_number };

    fn read(_: Global, value: &Value) -> Result<u64, FileCause> {
        match value.as_u64() {
            Some(number) => Ok(number),
            None => Err(FileCause::Malformed),
        }
    }
}

impl FromValue for Text {
    ghost use Rattle.serde_json.specs.Find.{as_str};

    ghost states = { as_str };

    fn read(alloc: Global, value: &Value) -> Result<Text, FileCause> {
        match value.as_str() {
            Some(text) => Ok(Text::from_slice(alloc, text.as_bytes())?),
            None => Err(FileCause::Malformed),
        }
    }
}

/// Reads one entry from each of `values`, in their order. Fails if one of `values` states no entry, or if an allocation fails.
pub fn elements<E: FromValue>(alloc: Global, values: &[Value]) -> Result<Vec<E>, FileCause>
    ensures { GivesItems result (each E.states (items_view values.now)) }
{
    let mut found = Vec::new(alloc);
    for value in values {
        found.push(E::read(alloc, value)?)?;
    }
    Ok(found)
}

/// Reads the entries of the array at member `name`. Fails if there is no array, if an element states no entry, or if an
/// allocation fails.
#[tactic(auto, unfolding(crate::specs::Members::array_member))]
pub fn entries<E: FromValue>(alloc: Global, value: &Value, name: &str) -> Result<Vec<E>, FileCause>
    ensures { GivesItems result (option_and_then (each E.states) (array_member name.now (view value.now))) }
{
    match value.get(name).and_then(Value::as_array) {
        Some(array) => elements(alloc, array.as_slice()),
        None => Err(FileCause::Malformed),
    }
}
