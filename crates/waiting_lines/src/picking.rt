//! Serves the first who can be served.

ghost use Rattle.std.specs.Prelude.{◌≡◌, true, false};
ghost use Rattle.waiting_lines.specs.Picked.{Picks};

use crate::line::Line;

/// Says who can be served.
pub trait Takers<T> {
    /// This item can be served.
    ghost can: { Self → T → Type 0 };

    /// This item can't be served now, and may sleep.
    ghost cannot: { Self → T → Type 0 };

    /// Returns whether `item` can be served. Never allocates.
    fn may_take(&self, item: &T) -> bool
        ensures yes { result ≡ true → can self.now item.now }
        ensures no { result ≡ false → cannot self.now item.now };
}

/// Serves the first member that is awake and can be served. Members before it that can't be served fall asleep. Never allocates.
pub fn pick<T: Copy + Drop, C: Takers<T>>(line: &mut Line<T>, takers: &C) -> Option<T>
    ensures picks { Picks (C.can takers.now) (C.cannot takers.now) line.old.order result line.new.order }
    ensures capacity { line.new.capacity ≡ line.old.capacity }
{
    'members: while let Some(i) = line.next_awake(0) {
        let item = line.item_at(i);
        if takers.may_take(&item) {
            line.turn(i);
            return Some(item);
        }
        line.rest_at(i);
    }
    None
}
