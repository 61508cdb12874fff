//! Short bytes in an array of a fixed length.

ghost use Rattle.std.specs.Prelude.{◌≡◌, ◌≤◌, length, take};

/// Returns an array that begins with `bytes`, followed by zeros.
pub(crate) fn padded<const N: usize>(bytes: &[u8]) -> [u8; N]
    requires { length bytes.now ≤ N }
    ensures { take (length bytes.now) result ≡ bytes.now }
{
    let mut place = [0; N];
    place[..bytes.len()].copy_from_slice(bytes);
    place
}

/// Returns the first `len` bytes, or all if there are fewer.
pub(crate) fn first_of(bytes: &[u8], len: u8) -> &[u8]
    ensures { result.now ≡ take len bytes.now }
{
    &bytes[..usize::from(len).min(bytes.len())]
}
