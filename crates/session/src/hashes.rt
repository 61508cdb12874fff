//! Password hashes: four bytes of salt, followed by the SHA-256 digest of salt and password.

ghost use Rattle.std.specs.Prelude.{◌≡◌};
ghost use Rattle.std.specs.Str.{bytes_eq};
ghost use Rattle.session.specs.Tests.{has_hash};

use sha2::{Digest, Sha256};

/// Returns whether `left` and `right` are equal. Compares every byte, even after a difference.
fn are_same(left: &[u8], right: &[u8]) -> bool
    ensures { result ≡ bytes_eq left.now right.now }
{
    let shorter = left.len().min(right.len());
    let mut same = true;
    for place in 0..shorter {
        same = same & (left[place] == right[place]);
    }
    same & (left.len() == right.len())
}

/// Returns whether `hash` is a hash of `password`. Computes a digest for every `hash` of at least four bytes.
pub fn has_hash(hash: &[u8], password: &[u8]) -> bool
    ensures { result ≡ has_hash hash.now password.now }
{
    let Some((salt, digest)) = hash.split_at_checked(4) else {
        return false;
    };
    let mut hasher = Sha256::new();
    hasher.update(salt);
    hasher.update(password);
    are_same(digest, hasher.finalize().as_slice())
}
