//! Splits one argument off the front of bytes. Each call returns the argument and the rest, or `None` if it isn't there.

ghost use Rattle.std.specs.Prelude.{◌≡◌, ℕ, List, [], ◌∷◌, option_map};
ghost use Rattle.model.specs.Grammar.{Argument, Octet, Short, Long, Long_long, Short_text, Long_text, Field_table, Bits};
ghost use Rattle.field_table.specs.Arguments.{
  long_text_at as read_long_text,
  argument_at,
  an_octet,
  a_short,
  a_long,
  a_long_long,
  a_short_text,
  a_long_text,
  a_field_table,
  some_bits,
};

use byteorder::{BigEndian, ByteOrder};

/// Splits an octet (1 byte) off the front of `bytes`.
pub fn octet_at(bytes: &[u8]) -> Option<(u8, &[u8])>
    ensures { option_map (λ x. (Octet x.0, x.1.now)) result ≡ argument_at an_octet bytes.now }
{
    let (front, rest) = bytes.split_at_checked(1)?;
    Some((front[0], rest))
}

/// Splits a short integer (2 bytes, big-endian) off the front of `bytes`.
pub fn short_at(bytes: &[u8]) -> Option<(u16, &[u8])>
    ensures { option_map (λ x. (Short x.0, x.1.now)) result ≡ argument_at a_short bytes.now }
{
    let (front, rest) = bytes.split_at_checked(2)?;
    Some((BigEndian::read_u16(front), rest))
}

/// Splits a long integer (4 bytes, big-endian) off the front of `bytes`, or returns `None` if there are fewer bytes.
pub fn long_at(bytes: &[u8]) -> Option<(u32, &[u8])>
    ensures { option_map (λ x. (Long x.0, x.1.now)) result ≡ argument_at a_long bytes.now }
{
    let (front, rest) = bytes.split_at_checked(4)?;
    Some((BigEndian::read_u32(front), rest))
}

/// Splits a long-long integer (8 bytes, big-endian) off the front of `bytes`.
pub fn long_long_at(bytes: &[u8]) -> Option<(u64, &[u8])>
    ensures { option_map (λ x. (Long_long x.0, x.1.now)) result ≡ argument_at a_long_long bytes.now }
{
    let (front, rest) = bytes.split_at_checked(8)?;
    Some((BigEndian::read_u64(front), rest))
}

/// Splits a short string (a one-byte length and that many bytes) off the front of `bytes`.
pub fn short_text_at(bytes: &[u8]) -> Option<(&[u8], &[u8])>
    ensures { option_map (λ x. (Short_text x.0.now, x.1.now)) result ≡ argument_at a_short_text bytes.now }
{
    let (len, rest) = octet_at(bytes)?;
    rest.split_at_checked(len as usize)
}

/// Splits a long string (a four-byte length and that many bytes) off the front of `bytes`.
pub fn long_text_at(bytes: &[u8]) -> Option<(&[u8], &[u8])>
    ensures { option_map (λ x. (Long_text x.0.now, x.1.now)) result ≡ argument_at a_long_text bytes.now }
{
    sized_at(bytes)
}

/// Splits the pairs of a table (a four-byte length and that many bytes) off the front of `bytes`. Doesn't check the pairs: [`crate::is_table`] does.
pub fn pairs_at(bytes: &[u8]) -> Option<(&[u8], &[u8])>
    ensures { option_map (λ x. (Field_table x.0.now, x.1.now)) result ≡ argument_at a_field_table bytes.now }
{
    sized_at(bytes)
}

/// Splits a four-byte length and that many bytes off the front of `bytes`.
fn sized_at(bytes: &[u8]) -> Option<(&[u8], &[u8])>
    ensures { (made : List ℕ → Argument) → option_map (λ x. (made x.0.now, x.1.now)) result ≡ read_long_text made bytes.now }
{
    let (front, rest) = bytes.split_at_checked(4)?;
    rest.split_at_checked(BigEndian::read_u32(front) as usize)
}

/// Splits one bit off the front of `bytes`: an octet that is 0 or 1.
pub fn one_bit_at(bytes: &[u8]) -> Option<(bool, &[u8])>
    ensures { option_map (λ x. (Bits (x.0 ∷ []), x.1.now)) result ≡ argument_at (some_bits 1) bytes.now }
{
    let (octet, rest) = octet_at(bytes)?;
    if octet < 2 {
        return Some((octet % 2 == 1, rest));
    }
    None
}

/// Splits two bits off the front of `bytes`: an octet below 4, the lowest bit first. Returns `None` if there is no such octet.
pub fn two_bits_at(bytes: &[u8]) -> Option<(bool, bool, &[u8])>
    ensures { option_map (λ x. (Bits (x.0 ∷ x.1 ∷ []), x.2.now)) result ≡ argument_at (some_bits 2) bytes.now }
{
    let (octet, rest) = octet_at(bytes)?;
    if octet < 4 {
        return Some((octet % 2 == 1, octet / 2 % 2 == 1, rest));
    }
    None
}

/// Splits four bits off the front of `bytes`: an octet below 16, the lowest bit first.
pub fn four_bits_at(bytes: &[u8]) -> Option<([bool; 4], &[u8])>
    ensures { option_map (λ x. (Bits x.0, x.1.now)) result ≡ argument_at (some_bits 4) bytes.now }
{
    let (octet, rest) = octet_at(bytes)?;
    if octet < 16 {
        let bits = [
            octet % 2 == 1,
            octet / 2 % 2 == 1,
            octet / 4 % 2 == 1,
            octet / 8 % 2 == 1,
        ];
        return Some((bits, rest));
    }
    None
}

/// Splits five bits off the front of `bytes`: an octet below 32, the lowest bit first. Returns `None` if there is no such octet.
pub fn five_bits_at(bytes: &[u8]) -> Option<([bool; 5], &[u8])>
    ensures { option_map (λ x. (Bits x.0, x.1.now)) result ≡ argument_at (some_bits 5) bytes.now }
{
    let (octet, rest) = octet_at(bytes)?;
    if octet < 32 {
        let bits = [
            octet % 2 == 1,
            octet / 2 % 2 == 1,
            octet / 4 % 2 == 1,
            octet / 8 % 2 == 1,
            octet / 16 % 2 == 1,
        ];
        return Some((bits, rest));
    }
    None
}
