//! Messages put into a queue and taken out.

ghost use Rattle.std.specs.Prelude.{◌≡◌, IfOk, Some};
ghost use Rattle.model.specs.declared.messages.Mark.TheVariants.{Ready, Held};

use model::{Entry, Holder, Message};
use queue::{Indexed, Store};
use std::alloc::{AllocError, Global};

/// Puts two messages into a new queue, gives the first out under `holder` and acknowledges it, and takes the second out.
/// Returns both as they left. Fails only if an allocation fails.
pub fn pass_two(
    alloc: Global,
    first: Message,
    second: Message,
    holder: Holder,
) -> Result<(Option<Entry>, Option<Entry>), AllocError>
    ensures acknowledged { IfOk result (λ left. left.0 ≡ Some (record { message = first; mark = Held holder })) }
    ensures taken { IfOk result (λ left. left.1 ≡ Some (record { message = second; mark = Ready })) }
{
    let mut queue = Indexed::new(alloc);
    queue.reserve(2)?;
    queue.push(first);
    queue.push(second);
    let arrival = queue.hold(holder).unwrap_or(0);
    let acknowledged = queue.remove(&holder, arrival);
    let taken = queue.take_first();
    Ok((acknowledged, taken))
}
