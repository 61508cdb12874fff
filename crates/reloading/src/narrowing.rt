//! Narrows down which guarantee is the first that endangers a message.

ghost use Rattle.std.specs.Prelude.{◌≡◌, true};
ghost use Rattle.reloading.specs.Narrowing.{EndsAt, bound_of, joined, obstacle_of};

use crate::danger::Danger;
use model::Obstacle;

/// Returns the number of guarantees that are still to be looked at: those before the one of `found`, or all `count`.
pub fn bound_of(found: &Option<Danger>, count: usize) -> usize
    ensures { result ≡ bound_of found.now count }
{
    match found {
        Some(danger) => danger.guarantee,
        None => count,
    }
}

/// Returns `next`, which is of an earlier guarantee than `found`, or `found` if there is no `next`.
pub fn joined(next: Option<Danger>, found: Option<Danger>) -> Option<Danger>
    ensures { result ≡ joined next found }
{
    match next {
        Some(danger) => Some(danger),
        None => found,
    }
}

/// Returns whether `found` is of a guarantee at or before index `least`.
pub fn ends_at(found: &Option<Danger>, least: usize) -> bool
    ensures { result ≡ true → EndsAt found.now least }
{
    match found {
        Some(danger) => danger.guarantee <= least,
        None => false,
    }
}

/// Returns the obstacle of `found`.
pub fn obstacle_of(found: Option<Danger>) -> Option<Obstacle>
    ensures { result ≡ obstacle_of found }
{
    match found {
        Some(danger) => Some(danger.obstacle),
        None => None,
    }
}
