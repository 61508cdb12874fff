//! States as JSON, appended to a text one by one. Start with [`put_states`].

ghost use Rattle.std.specs.Prelude.{◌≡◌, ◌++◌, decimal, length, OnOk};
ghost use Rattle.serde_json.specs.Written.{comma_if};
ghost use Rattle.state_walks.specs.Judged.{states_of};
ghost use Rattle.certificate.specs.Writes.{HasState, PutsStates, is_full};

use crate::unwritten::Unwritten;
use itoa::Buffer;
use std::alloc::AllocError;

/// Appends a comma if `later` is set. Fails only if an allocation fails.
fn put_comma(text: &mut Vec<u8>, later: bool) -> Result<(), AllocError>
    ensures { OnOk result (text.new.items ≡ text.old.items ++ comma_if later) }
{
    if later {
        text.push(b',')?;
    }
    Ok(())
}

/// Appends `number` in decimal. Fails only if an allocation fails.
fn put_number(text: &mut Vec<u8>, number: u64) -> Result<(), AllocError>
    ensures { OnOk result (text.new.items ≡ text.old.items ++ decimal number) }
{
    let mut digits = Buffer::new();
    text.extend_from_slice(digits.format(number).as_bytes())
}

/// Appends a state: an array of its numbers. Fails only if an allocation fails.
pub(crate) fn put_state(text: &mut Vec<u8>, state: &[u64]) -> Result<(), AllocError>
    ensures { OnOk result (HasState text.old.items text.new.items state.now) }
{
    text.push(b'[')?;
    let mut later = false;
    for number in state {
        put_comma(text, later)?;
        put_number(text, *number)?;
        later = true;
    }
    text.push(b']')?;
    Ok(())
}

/// Returns whether the text has `most` bytes or more, if there is a limit.
fn is_full(text: &[u8], most: Option<usize>) -> bool
    ensures { result ≡ is_full most (length text.now) }
{
    match most {
        Some(most) => most <= text.len(),
        None => false,
    }
}

/// Appends states: an array of them. Fails if `most` bytes are reached before the last state, or if an allocation fails.
pub(crate) fn put_states(
    text: &mut Vec<u8>,
    most: Option<usize>,
    states: &[Vec<u64>],
) -> Result<(), Unwritten>
    ensures { PutsStates result most text.old.items text.new.items (states_of states.now) }
{
    text.push(b'[')?;
    let mut later = false;
    for state in states {
        if is_full(text.as_slice(), most) {
            return Err(Unwritten::TooLong);
        }
        put_comma(text, later)?;
        put_state(text, state.as_slice())?;
        later = true;
    }
    text.push(b']')?;
    Ok(())
}
