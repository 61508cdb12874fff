//! Remembers messages that were judged, so that messages like them are not judged again.

ghost use Rattle.std.specs.Prelude.{◌≡◌, ◌<◌, ◌⊎◌, [], true, IfSome};
ghost use Rattle.model.specs.Message.{Message as Seen};
ghost use Rattle.model.specs.Topology.{IsIn};
ghost use Rattle.reloading.specs.Obstacles.{AreAlike};
ghost use Rattle.reloading.specs.Passed.{kept};

use model::Message;

/// The most messages that are remembered.
const SLOTS: usize = 2048;

/// The number of slots in which a message is looked for.
const TRIES: usize = 16;

/// Messages that were judged. A later one may overwrite an earlier one. Never allocates.
pub type Passed<'a> = [Option<&'a Message>; SLOTS];

/// Returns an empty memory.
pub fn none_passed<'a>() -> Passed<'a>
    ensures { kept result ≡ [] }
{
    [None; SLOTS]
}

/// Returns whether two messages were first published to the same exchange with the same key, and have the same key now.
fn are_alike(one: &Message, other: &Message) -> bool
    ensures { result ≡ true → AreAlike one.now other.now }
{
    one.key().as_bytes() == other.key().as_bytes()
        && one.first_exchange().as_bytes() == other.first_exchange().as_bytes()
        && one.first_key().as_bytes() == other.first_key().as_bytes()
}

/// Hashes `bytes` into `from`. Correctness does not depend on how.
fn mixed(from: u64, bytes: &[u8]) -> u64 {
    let mut mix = from;
    for byte in bytes {
        mix = (mix ^ u64::from(*byte)).wrapping_mul(0x100_0000_01b3);
    }
    mix
}

/// Returns the slot to which a message hashes.
fn first_slot(message: &Message) -> usize
    ensures { result < 2048 }
{
    let mix = mixed(0xcbf2_9ce4_8422_2325, message.key().as_bytes());
    let mix = mixed(mix ^ 255, message.first_exchange().as_bytes());
    let mix = mixed(mix ^ 255, message.first_key().as_bytes());
    ((mix ^ (mix >> 32)) % 2048) as usize
}

/// Returns the message in slot `slot`, if there is one and it is like `message`.
pub fn like_at<'a>(passed: &Passed<'a>, slot: usize, message: &Message) -> Option<&'a Message>
    requires { slot < 2048 }
    ensures kept { IfSome result (λ m. IsIn m.now (kept passed.now)) }
    ensures alike { IfSome result (λ m. AreAlike m.now message.now) }
{
    match passed[slot] {
        Some(other) if are_alike(other, message) => Some(other),
        _ => None,
    }
}

/// Returns whether slot `slot` is empty or has a message like `message`.
fn may_hold(passed: &Passed<'_>, slot: usize, message: &Message) -> bool
    requires { slot < 2048 }
{
    match passed[slot] {
        Some(other) => are_alike(other, message),
        None => true,
    }
}

/// Returns, of the slots that are tried for `message`, the first that is empty or has a message like it; or the first of all if there is none.
fn found_slot(passed: &Passed<'_>, message: &Message) -> usize
    ensures { result < 2048 }
{
    let first = first_slot(message);
    for more in 0..TRIES {
        let slot = (first + more) % SLOTS;
        if may_hold(passed, slot, message) {
            return slot;
        }
    }
    first
}

/// Returns a slot that has a message like `message`, if one is found, otherwise the slot in which to keep `message`. Looks first at slot `before`,
/// which was returned for the message before.
pub fn slot_of(passed: &Passed<'_>, before: usize, message: &Message) -> usize
    requires { before < 2048 }
    ensures { result < 2048 }
{
    if may_hold(passed, before, message) {
        before
    } else {
        found_slot(passed, message)
    }
}

/// Remembers `message` in slot `slot`, in place of the message that is there, if any.
pub fn keep<'a>(passed: &mut Passed<'a>, slot: usize, message: &'a Message)
    requires { slot < 2048 }
    ensures { (m : Seen) → IsIn m (kept passed.new) → IsIn m (kept passed.old) ⊎ (m ≡ message.now) }
{
    passed[slot] = Some(message);
}
