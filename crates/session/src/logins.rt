//! Decides whether a PLAIN response logs in a user.

ghost use Rattle.std.specs.Prelude.{◌≡◌, IsTrue, IsFalse, false};
ghost use Rattle.std.specs.List.{list_any};
ghost use Rattle.model.specs.Login.{IsLogin};
ghost use Rattle.session.specs.Tests.{is_user};

use crate::hashes::has_hash;
use crate::responses::read_response;
use model::User;

/// Returns `false`, after the work of checking a wrong password: one digest, compared in full.
fn fail_slowly(password: &[u8]) -> bool
    ensures { result ≡ false }
{
    has_hash(
        b"longer than the hash of any password is".as_slice(),
        password,
    )
}

/// Returns whether a user is called `name` and has the hash of `password`.
///
/// If no user has that name a digest is computed all the same, so that the time taken doesn't reveal who is a user.
fn is_known(users: &[User], name: &[u8], password: &[u8]) -> bool
    ensures { result ≡ list_any (is_user name.now password.now) users.now }
{
    let mut is_named = false;
    let mut is_right = false;
    'users: for user in users {
        let has_name = user.name.as_bytes() == name;
        is_named = is_named | has_name;
        is_right = is_right | (has_name && has_hash(user.hash.as_bytes(), password));
    }
    is_right | (!is_named && fail_slowly(password))
}

/// Returns whether `mechanism` and `response` log in one of `users`.
///
/// The mechanism has to be `PLAIN`, and the response NUL, the user's name, NUL, the right password. A user's hash is four bytes
/// of salt, followed by the SHA-256 digest of salt and password. Source: RFC 4616.
///
/// Never allocates. A refused login takes the same work whether or not a user has its name; that is not proved.
pub fn accepts(users: &[User], mechanism: &[u8], response: &[u8]) -> bool
    // Only a login is accepted.
    ensures only { IsTrue result → IsLogin users.now mechanism.now response.now }
    // Every login is accepted.
    ensures every { IsFalse result → IsLogin users.now mechanism.now response.now → ⊥ }
{
    if mechanism != b"PLAIN".as_slice() {
        return false;
    }
    match read_response(response) {
        Some(found) => is_known(users, found.user, found.password),
        None => false,
    }
}
