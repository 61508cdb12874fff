//! The deliveries that a delivery tag settles, in the order of tags.

ghost use Rattle.std.specs.Prelude.{◌≡◌, ◌∷◌, [], IfSome, IfNone};
ghost use Rattle.model.specs.Placed.{waiting};

use model::Delivery;
use std::marker::Model;

/// Iterates over the deliveries that a tag settles on a channel, in the order of their tags. Returned by [`Channel::settle`].
///
/// [`Channel::settle`]: crate::Channel::settle
#[derive(Drop)]
pub struct Settled<'a> {
    places: &'a [Delivery],
}

impl<'a> Model for Settled<'a> {
    ghost use Rattle.std.specs.Prelude.{List};
    ghost use Rattle.model.specs.Placed.{waiting};
    ghost use Rattle.model.specs.declared.deliveries.Delivery.{Delivery as Given};

    ghost Value = { List Given };

    ghost view = { λ s. waiting s.places.now };
}

/// Returns the first unacknowledged delivery of `places`, and removes it with all entries in front of it.
fn first_waiting<'a>(places: &mut &'a [Delivery]) -> Option<&'a Delivery>
    ensures some { IfSome result (λ d. waiting places.old.now ≡ d.now ∷ waiting places.new.now) }
    ensures none { IfNone result ((waiting places.old.now ≡ []) × (waiting places.new.now ≡ [])) }
{
    'places: while let Some(one) = places.split_off_first() {
        if one.is_waiting() {
            return Some(one);
        }
    }
    None
}

impl<'a> Settled<'a> {
    ghost use Rattle.std.specs.Prelude.{◌≡◌};
    ghost use Rattle.model.specs.Placed.{waiting};

    /// Returns an iterator over the unacknowledged deliveries of `places`.
    pub(crate) fn among(places: &'a [Delivery]) -> Settled<'a>
        ensures { result ≡ waiting places.now }
    {
        Settled { places }
    }
}

impl<'a> Iterator for Settled<'a> {
    ghost use Rattle.std.specs.Iterator.{YieldsFirstRef, item_count};

    type Item = &'a Delivery;

    ghost next_gives = { YieldsFirstRef (λ given. given) };

    ghost remaining = { item_count (λ given. given) };

    fn next(&mut self) -> Option<&'a Delivery> {
        first_waiting(&mut self.places)
    }
}
