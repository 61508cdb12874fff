//! Splits the first part off a text.

ghost use Rattle.std.specs.Prelude.{◌≡◌, ◌∷◌, ◌<◌, ◌==◌, length, IfSome, option_copied};
ghost use Rattle.std.specs.List.{position_from};
ghost use Rattle.model.specs.Words.{parted};
ghost use Rattle.model.specs.Parts.{parts_left};

/// Returns the index of the first byte that is `separator`.
fn first_place(text: &[u8], separator: u8) -> Option<usize>
    ensures place { result ≡ position_from (λ b. b == separator) 0 text.now }
    ensures within { IfSome result (λ place. place < length text.now) }
{
    text.iter().position(|b| *b == separator)
}

/// Splits `text` at the first `separator`: returns the bytes before it, and those after it if there is one. Never allocates.
pub fn first_part(text: &[u8], separator: u8) -> (&[u8], Option<&[u8]>)
    ensures parts { parted separator text.now ≡ result.0.now ∷ parts_left separator (option_copied result.1) }
    ensures shorter { IfSome result.1 (λ rest. length rest.now < length text.now) }
{
    match first_place(text, separator) {
        Some(place) => (text.split_at(place).0, Some(text.split_at(place + 1).1)),
        None => (text, None),
    }
}
