//! Parses PLAIN responses.

ghost use Rattle.std.specs.Prelude.{◌≡◌, ◌<◌, ◌==◌, ℕ, List, length, position, IfSome, MatchOption};
ghost use Rattle.model.specs.Login.{HasNoNul, IsPlain};
ghost use Rattle.session.specs.Tests.{IsCut};

/// The user's name and the password of a PLAIN response.
#[derive(Clone, Copy, Drop)]
pub struct Credentials<'a> {
    pub user: &'a [u8],
    pub password: &'a [u8],
}

/// Returns the index of the first NUL, if any.
fn first_nul(text: &[u8]) -> Option<usize>
    ensures place { result ≡ position (λ b. b == 0) text.now }
    ensures within { IfSome result (λ place. place < length text.now) }
{
    text.iter().position(|b| *b == 0)
}

/// Splits `text` at its first NUL, which neither part has. Returns `None` if there is none.
fn cut(text: &[u8]) -> Option<(&[u8], &[u8])>
    ensures { MatchOption result (HasNoNul text.now) (λ parts. IsCut text.now parts.0.now parts.1.now) }
{
    match first_nul(text) {
        Some(place) => Some((text.split_at(place).0, text.split_at(place + 1).1)),
        None => None,
    }
}

/// Parses a PLAIN response: NUL, a user of at least one byte, NUL, a password without NUL. Any other form is `None`.
pub fn read_response(response: &[u8]) -> Option<Credentials<'_>>
    ensures { MatchOption result ((user password : List ℕ) → IsPlain response.now user password → ⊥) (λ c. IsPlain response.now c.user.now c.password.now) }
{
    let (first, rest) = response.split_first()?;
    if *first != 0 {
        return None;
    }
    let Some((user, password)) = cut(rest) else {
        return None;
    };
    if user.is_empty() {
        return None;
    }
    if cut(password).is_some() {
        return None;
    }
    Some(Credentials { user, password })
}
