//! The consumer that is picked.

ghost use Rattle.std.specs.Prelude.{◌≡◌, ℕ, true, false, None, Some, IfSome};
ghost use Rattle.depot.specs.Store.{HasReady};
ghost use Rattle.commands.specs.State.{broker_of};
ghost use Rattle.commands.specs.Picked.{IsPick, IsPickFrom};
ghost use Rattle.commands.specs.declared.picks.Pick.{Pick as Consumer};

use commands::{Core, Pick, Taking};

/// Returns whether the queue at index `place` has a ready message. If not, no delivery can be made from it.
fn is_ready(core: &Core, place: usize) -> bool
    ensures yes { result ≡ true → HasReady core.now.store place }
    ensures no { result ≡ false → (p : Consumer) → IsPickFrom core.now place p → ⊥ }
{
    match core.next_ready(place) {
        Some(next) => next == place,
        None => false,
    }
}

/// Returns whether a delivery can be made to the consumer `pick`.
fn can_deliver(core: &Core, pick: Pick) -> bool
    ensures yes { result ≡ true → IsPick (broker_of core.now) pick }
    ensures no { result ≡ false → IsPick (broker_of core.now) pick → ⊥ }
{
    core.ghost_is_kept();
    match core.taking(pick) {
        Taking::Gone => false,
        Taking::Nothing(_) => false,
        Taking::From(place) => is_ready(core, place),
    }
}

/// Returns `turn` if a delivery can still be made to its consumer, otherwise `None`.
pub(crate) fn turn_kept(core: &Core, turn: Option<Pick>) -> Option<Pick>
    ensures same { IfSome result (λ p. turn ≡ Some p) }
    ensures some { IfSome result (λ p. IsPick (broker_of core.now) p) }
    ensures none { result ≡ None → (p : Consumer) → turn ≡ Some p → IsPick (broker_of core.now) p → ⊥ }
{
    let Some(pick) = turn else {
        return None;
    };
    if can_deliver(core, pick) {
        return Some(pick);
    }
    None
}
