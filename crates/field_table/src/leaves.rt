//! Reads one value of a table or array and leaves nested arrays and tables as bytes. Start at [`leaf_at`].

ghost use Rattle.std.specs.Prelude.{◌≡◌, [], ◌∷◌, Some, option_map};
ghost use Rattle.field_table.specs.Arguments.{a_long, a_long_long, a_long_text};
ghost use Rattle.field_table.specs.Leaves.{leaf_seen, kinds_behind, read_leaf, behind};

use crate::takes::{long_at, long_long_at, long_text_at, octet_at, one_bit_at, short_at};

/// A value of a table or an array, of which a nested array or table is still encoded.
#[derive(Clone, Copy, Drop)]
pub enum Leaf<'a> {
    Truth(bool),
    Byte(u8),
    Short(u16),
    Long(u32),
    LongLong(u64),
    Float(u32),
    Double(u64),
    Decimal(u8, u32),
    Text(&'a [u8]),
    Array(&'a [u8]),
    Timestamp(u64),
    Table(&'a [u8]),
    Bytes(&'a [u8]),
    Void,
}

/// Splits a value, type letter included, off the front of `bytes`. Returns it and the rest, or `None` if no value is there.
pub fn leaf_at(bytes: &[u8]) -> Option<(Leaf<'_>, &[u8])>
    ensures { option_map (λ x. (leaf_seen x.0, x.1.now)) result ≡ read_leaf bytes.now }
{
    let (letter, rest) = octet_at(bytes)?;
    leaf_behind(letter, rest)
}

/// Splits the value whose type letter is `letter` off the front of `bytes`, which begin after the letter. Returns `None` if it isn't there.
fn leaf_behind(letter: u8, bytes: &[u8]) -> Option<(Leaf<'_>, &[u8])>
    ensures { option_map (λ x. (leaf_seen x.0, x.1.now)) result ≡ behind letter bytes.now }
{
    match letter {
        b't' => truth_behind(bytes),
        b'b' => byte_behind(bytes),
        b's' => short_behind(bytes),
        b'I' | b'f' => long_behind(letter, bytes),
        b'l' | b'd' | b'T' => long_long_behind(letter, bytes),
        b'D' => decimal_behind(bytes),
        b'S' | b'A' | b'F' | b'x' => text_behind(letter, bytes),
        b'V' => Some((Leaf::Void, bytes)),
        _ => None,
    }
}

// ---- the value after each letter

fn truth_behind(bytes: &[u8]) -> Option<(Leaf<'_>, &[u8])>
    ensures { option_map (λ x. (leaf_seen x.0, x.1.now)) result ≡ behind 116 bytes.now }
{
    let (truth, rest) = one_bit_at(bytes)?;
    Some((Leaf::Truth(truth), rest))
}

fn byte_behind(bytes: &[u8]) -> Option<(Leaf<'_>, &[u8])>
    ensures { option_map (λ x. (leaf_seen x.0, x.1.now)) result ≡ behind 98 bytes.now }
{
    let (number, rest) = octet_at(bytes)?;
    Some((Leaf::Byte(number), rest))
}

fn short_behind(bytes: &[u8]) -> Option<(Leaf<'_>, &[u8])>
    ensures { option_map (λ x. (leaf_seen x.0, x.1.now)) result ≡ behind 115 bytes.now }
{
    let (number, rest) = short_at(bytes)?;
    Some((Leaf::Short(number), rest))
}

/// Reads the number after `I` or `f`.
fn long_behind(letter: u8, bytes: &[u8]) -> Option<(Leaf<'_>, &[u8])>
    requires { kinds_behind letter ≡ Some (a_long ∷ []) }
    ensures { option_map (λ x. (leaf_seen x.0, x.1.now)) result ≡ behind letter bytes.now }
{
    let (number, rest) = long_at(bytes)?;
    let leaf = match letter {
        b'I' => Leaf::Long(number),
        _ => Leaf::Float(number),
    };
    Some((leaf, rest))
}

/// Reads the number after `l`, `d` or `T`.
fn long_long_behind(letter: u8, bytes: &[u8]) -> Option<(Leaf<'_>, &[u8])>
    requires { kinds_behind letter ≡ Some (a_long_long ∷ []) }
    ensures { option_map (λ x. (leaf_seen x.0, x.1.now)) result ≡ behind letter bytes.now }
{
    let (number, rest) = long_long_at(bytes)?;
    let leaf = match letter {
        b'l' => Leaf::LongLong(number),
        b'd' => Leaf::Double(number),
        _ => Leaf::Timestamp(number),
    };
    Some((leaf, rest))
}

fn decimal_behind(bytes: &[u8]) -> Option<(Leaf<'_>, &[u8])>
    ensures { option_map (λ x. (leaf_seen x.0, x.1.now)) result ≡ behind 68 bytes.now }
{
    let (scale, rest) = octet_at(bytes)?;
    let (digits, rest) = long_at(rest)?;
    Some((Leaf::Decimal(scale, digits), rest))
}

/// Reads the bytes after `S`, `A`, `F` or `x`.
fn text_behind(letter: u8, bytes: &[u8]) -> Option<(Leaf<'_>, &[u8])>
    requires { kinds_behind letter ≡ Some (a_long_text ∷ []) }
    ensures { option_map (λ x. (leaf_seen x.0, x.1.now)) result ≡ behind letter bytes.now }
{
    let (body, rest) = long_text_at(bytes)?;
    let leaf = match letter {
        b'S' => Leaf::Text(body),
        b'A' => Leaf::Array(body),
        b'F' => Leaf::Table(body),
        _ => Leaf::Bytes(body),
    };
    Some((leaf, rest))
}
