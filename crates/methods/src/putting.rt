//! Computes the encoded length of arguments, and appends them.

ghost use Rattle.std.specs.Prelude.{◌≡◌, ◌+◌, ◌≤◌, ◌<◌, ◌^◌, [], ◌∷◌, ◌++◌, length, vec_len, vec_capacity, IfSome};
ghost use Rattle.model.specs.Grammar.{octet as octet_of};
ghost use Rattle.model.specs.Headers.{value_of, IsValue};
ghost use Rattle.model.specs.Tables.{with_length};
ghost use Rattle.field_table.specs.Writing.{GivesLength};
ghost use Rattle.methods.specs.Pieces.{piece_seen};
ghost use Rattle.methods.specs.Putting.{pieces_bytes, AreSpelled};

use crate::pieces::{Piece, Pieces};
use field_table::{is_table, put_bytes};

/// Returns the encoded length of `pieces` in bytes, or `None` if a text is too long or the pairs of a table aren't pairs.
pub fn pieces_len(pieces: &Pieces<'_>) -> Option<usize>
    ensures cases { GivesLength (AreSpelled pieces.now) (pieces_bytes pieces.now) result }
    ensures bound { IfSome result (λ n. n < 2 ^ 36) }
{
    let first = piece_len(&pieces.first)?;
    let second = piece_len(&pieces.second)?;
    let third = piece_len(&pieces.third)?;
    let fourth = piece_len(&pieces.fourth)?;
    let fifth = piece_len(&pieces.fifth)?;
    Some(first + second + third + fourth + fifth)
}

// Returns the encoded length of `piece` in bytes, or `None` if it can't be encoded.
fn piece_len(piece: &Piece<'_>) -> Option<usize>
    ensures cases { GivesLength (IsValue (piece_seen piece.now)) (value_of (piece_seen piece.now)) result }
    ensures bound { IfSome result (λ n. n < 2 ^ 33) }
{
    match piece {
        Piece::Nothing => Some(0),
        Piece::Octet(n) => {
            let _n = *n;
            Some(1)
        }
        Piece::Short(n) => {
            let _n = *n;
            Some(2)
        }
        Piece::Long(n) => {
            let _n = *n;
            Some(4)
        }
        Piece::LongLong(n) => {
            let _n = *n;
            Some(8)
        }
        Piece::ShortText(t) => {
            if t.len() < 256 {
                Some(1 + t.len())
            } else {
                None
            }
        }
        Piece::LongText(t) => {
            if t.len() < 0x1_0000_0000 {
                Some(4 + t.len())
            } else {
                None
            }
        }
        Piece::Table(t) => { if is_table(t) { Some(4 + t.len()) } else { None } }
        Piece::Bit(_) => Some(1),
        Piece::TwoBits(..) => Some(1),
        Piece::FourBits(..) => Some(1),
        Piece::FiveBits(..) => Some(1),
    }
}

/// Appends the encoding of `pieces` to `out`, which has enough spare capacity. They can be encoded.
pub fn put_pieces(out: &mut Vec<u8>, pieces: &Pieces<'_>)
    requires fits { AreSpelled pieces.now }
    requires room { vec_len out.old + length (pieces_bytes pieces.now) ≤ vec_capacity out.old }
    ensures items { out.new.items ≡ out.old.items ++ pieces_bytes pieces.now }
    ensures len { vec_len out.new ≡ vec_len out.old + length (pieces_bytes pieces.now) }
    ensures capacity { vec_capacity out.old ≤ vec_capacity out.new }
{
    put_piece(out, &pieces.first);
    put_piece(out, &pieces.second);
    put_piece(out, &pieces.third);
    put_piece(out, &pieces.fourth);
    put_piece(out, &pieces.fifth);
}

fn put_piece(out: &mut Vec<u8>, piece: &Piece<'_>)
    requires fits { IsValue (piece_seen piece.now) }
    requires room { vec_len out.old + length (value_of (piece_seen piece.now)) ≤ vec_capacity out.old }
    ensures items { out.new.items ≡ out.old.items ++ value_of (piece_seen piece.now) }
    ensures len { vec_len out.new ≡ vec_len out.old + length (value_of (piece_seen piece.now)) }
    ensures capacity { vec_capacity out.old ≤ vec_capacity out.new }
{
    match piece {
        Piece::Nothing => {}
        Piece::Octet(n) => put_octet(out, *n),
        Piece::Short(n) => put_bytes(out, &n.to_be_bytes()),
        Piece::Long(n) => put_bytes(out, &n.to_be_bytes()),
        Piece::LongLong(n) => put_bytes(out, &n.to_be_bytes()),
        Piece::ShortText(t) => {
            put_octet(out, t.len() as u8);
            put_bytes(out, t);
        }
        Piece::LongText(t) => put_long_text(out, t),
        Piece::Table(t) => put_long_text(out, t),
        Piece::Bit(b) => put_octet(out, *b as u8),
        Piece::TwoBits(a, b) => put_octet(out, octet(*a, *b, false, false, false)),
        Piece::FourBits(a, b, c, d) => put_octet(out, octet(*a, *b, *c, *d, false)),
        Piece::FiveBits(a, b, c, d, e) => put_octet(out, octet(*a, *b, *c, *d, *e)),
    }
}

fn put_octet(out: &mut Vec<u8>, n: u8)
    requires { vec_len out.old + 1 ≤ vec_capacity out.old }
    ensures items { out.new.items ≡ out.old.items ++ n ∷ [] }
    ensures len { vec_len out.new ≡ vec_len out.old + 1 }
    ensures capacity { vec_capacity out.old ≤ vec_capacity out.new }
{
    out.push_reserved(n);
}

fn put_long_text(out: &mut Vec<u8>, text: &[u8])
    requires fits { length text.now < 2 ^ 32 }
    requires room { vec_len out.old + length (with_length text.now) ≤ vec_capacity out.old }
    ensures items { out.new.items ≡ out.old.items ++ with_length text.now }
    ensures len { vec_len out.new ≡ vec_len out.old + length (with_length text.now) }
    ensures capacity { vec_capacity out.old ≤ vec_capacity out.new }
{
    put_bytes(out, &(text.len() as u32).to_be_bytes());
    put_bytes(out, text);
}

// Returns the octet of these bits, the first bit lowest.
fn octet(a: bool, b: bool, c: bool, d: bool, e: bool) -> u8
    ensures { result ≡ octet_of (a ∷ b ∷ c ∷ d ∷ e ∷ []) }
{
    a as u8 + 2 * (b as u8) + 4 * (c as u8) + 8 * (d as u8) + 16 * (e as u8)
}
