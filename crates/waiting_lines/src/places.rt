//! Work on the parts of a line: its items, a bit for each that is awake, and the index at which the turns begin.

ghost use Rattle.std.specs.Prelude.{◌≡◌, ◌<◌, ◌≤◌, ◌+◌, ◌-◌, ◌*◌, ◌⊎◌, ℕ, true, false, IfSome, IfNone, length, Bool, count_by, filter, vec_capacity};
ghost use Rattle.std.specs.Prelude.{slice_index_or};
ghost use Rattle.marks.specs.Sets.{bit_of};
ghost use Rattle.waiting_lines.specs.Order.{FailsAt, IsKept, IsPlace, IsNextWithout};

use marks::{Flat, IndexSet, Over};

/// A set of indices, with a bit for each.
pub(crate) type PlaceMarks = Over<Flat>;

/// Returns the index of the member whose turn is after those of `i` others.
pub(crate) fn place_of(next: usize, count: usize, i: usize) -> usize
    requires next { next ≤ count }
    requires within { i < count }
    ensures within { result < count }
    ensures place { IsPlace next count i result }
{
    if i < count - next {
        next + i
    } else {
        i - (count - next)
    }
}

/// Returns how many have their turn before the member at index `place`.
fn turn_of(next: usize, count: usize, place: usize) -> usize
    requires next { next ≤ count }
    requires within { place < count }
    ensures within { result < count }
    ensures place { IsPlace next count result place }
{
    if next <= place {
        place - next
    } else {
        place + (count - next)
    }
}

/// Returns the index at which a new member is inserted, so that its turn is last.
pub(crate) fn last_place(next: usize, count: usize) -> usize
    requires { next ≤ count }
    ensures within { result ≤ count }
    ensures end { (next ≡ 0) × (result ≡ count) ⊎ (result ≡ next) }
{
    if next == 0 { count } else { next }
}

/// Returns where the turns begin once the member at index `place` is gone.
pub(crate) fn next_without(next: usize, place: usize) -> usize
    ensures { IsNextWithout place next result }
{
    if place < next { next - 1 } else { next }
}

/// A test of items.
pub trait Tests<T> {
    /// Whether this item passes.
    ghost passes: { Self → T → Bool };

    /// Returns whether `item` passes.
    fn passes(&self, item: &T) -> bool
        ensures { result ≡ passes self.now item.now };
}

/// Returns whether there is an item at index `place`, and passes the test.
fn passes_at<T, K: Tests<T>>(items: &[T], test: &K, place: usize) -> bool
    ensures within { result ≡ true → place < length items.now }
    ensures there { result ≡ true → (d : T) → K.passes test.now (slice_index_or items.now place d) ≡ true }
    ensures no { result ≡ false → FailsAt (K.passes test.now) items.now place }
{
    place < items.len() && test.passes(&items[place])
}

/// Returns the index `middle + away`, or `middle - 1 - away`, if the item there passes the test.
fn near<T, K: Tests<T>>(items: &[T], test: &K, middle: usize, away: usize) -> Option<usize>
    requires { middle ≤ length items.now }
    ensures within { IfSome result (λ i. i < length items.now) }
    ensures there { IfSome result (λ i. (d : T) → K.passes test.now (slice_index_or items.now i d) ≡ true) }
    ensures above { IfNone result (FailsAt (K.passes test.now) items.now (middle + away)) }
    ensures below { IfNone result (away < middle → FailsAt (K.passes test.now) items.now (middle - 1 - away)) }
{
    if away < items.len() - middle && passes_at(items, test, middle + away) {
        return Some(middle + away);
    }
    if away < middle && passes_at(items, test, middle - 1 - away) {
        return Some(middle - 1 - away);
    }
    None
}

/// Returns the index of an item that passes the test, if one does. Looks at `guess` first, and then further and further away from it.
pub(crate) fn find<T, K: Tests<T>>(items: &[T], test: &K, guess: usize) -> Option<usize>
    ensures within { IfSome result (λ i. i < length items.now) }
    ensures there { IfSome result (λ i. (d : T) → K.passes test.now (slice_index_or items.now i d) ≡ true) }
    ensures none { IfNone result ((i : ℕ) → FailsAt (K.passes test.now) items.now i) }
{
    let middle = guess.min(items.len());
    for away in 0..items.len() {
        if let Some(place) = near(items, test, middle, away) {
            return Some(place);
        }
    }
    None
}

/// Returns the first turn, after at least `from` others, whose member is awake.
pub(crate) fn next_awake(
    awake: &PlaceMarks,
    next: usize,
    count: usize,
    from: usize,
) -> Option<usize>
    requires { IsKept next count (length awake.now * 64) (bit_of awake.now) }
    ensures within { IfSome result (λ i. i < count) }
    ensures least { IfSome result (λ i. from ≤ i) }
    ensures there { IfSome result (λ i. (place : ℕ) → place < count → IsPlace next count i place → bit_of awake.now place ≡ 1) }
    ensures before { IfSome result (λ i. (k place : ℕ) → from ≤ k → k < i → place < count → IsPlace next count k place → bit_of awake.now place ≡ 0) }
    ensures none { IfNone result ((k place : ℕ) → from ≤ k → k < count → place < count → IsPlace next count k place → bit_of awake.now place ≡ 0) }
{
    if from >= count {
        return None;
    }
    let start = place_of(next, count, from);
    if start < next {
        return match awake.next(start) {
            Some(place) if place < next => Some(turn_of(next, count, place)),
            _ => None,
        };
    }
    if let Some(place) = awake.next(start) {
        return Some(turn_of(next, count, place));
    }
    match awake.first() {
        Some(place) if place < next => Some(turn_of(next, count, place)),
        _ => None,
    }
}

/// Returns how many of `items` pass the test.
pub(crate) fn count_kept<T, K: Tests<T>>(items: &[T], keeper: &K) -> usize
    ensures { result ≡ count_by (K.passes keeper.now) items.now }
{
    let mut count = 0;
    for item in items {
        if keeper.passes(item) {
            count += 1;
        }
    }
    count
}

/// Removes the items that don't pass the test.
pub(crate) fn retain<T: Drop, K: Tests<T>>(items: &mut Vec<T>, keeper: &K)
    ensures items { items.new.items ≡ filter (K.passes keeper.now) items.old.items }
    ensures capacity { vec_capacity items.new ≡ vec_capacity items.old }
{
    items.retain(|item| keeper.passes(item));
}

/// Adds the indices below `to` to the set.
fn set_below(marks: &mut PlaceMarks, to: usize)
    requires { to ≤ length marks.old * 64 }
    ensures len { length marks.new ≡ length marks.old }
    ensures up { (k : ℕ) → k < to → bit_of marks.new k ≡ 1 }
    ensures others { (k : ℕ) → to ≤ k → bit_of marks.new k ≡ bit_of marks.old k }
{
    for place in 0..to {
        marks.set(place);
    }
}

/// Removes the indices `from..to` from the set.
fn clear_between(marks: &mut PlaceMarks, from: usize, to: usize)
    requires order { from ≤ to }
    requires room { to ≤ length marks.old * 64 }
    ensures len { length marks.new ≡ length marks.old }
    ensures down { (k : ℕ) → from ≤ k → k < to → bit_of marks.new k ≡ 0 }
    ensures before { (k : ℕ) → k < from → bit_of marks.new k ≡ bit_of marks.old k }
    ensures behind { (k : ℕ) → to ≤ k → bit_of marks.new k ≡ bit_of marks.old k }
{
    for place in from..to {
        marks.clear(place);
    }
}

/// Makes the set, of indices below `count`, exactly that of the indices below `left`.
pub(crate) fn set_left(marks: &mut PlaceMarks, left: usize, count: usize)
    requires order { left ≤ count }
    requires room { count ≤ length marks.old * 64 }
    requires past { (k : ℕ) → count ≤ k → bit_of marks.old k ≡ 0 }
    ensures len { length marks.new ≡ length marks.old }
    ensures up { (k : ℕ) → k < left → bit_of marks.new k ≡ 1 }
    ensures past { (k : ℕ) → left ≤ k → bit_of marks.new k ≡ 0 }
{
    set_below(marks, left);
    clear_between(marks, left, count);
}
