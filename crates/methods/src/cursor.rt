//! Splits arguments off the front of a method's bytes.

ghost use Rattle.std.specs.Prelude.{[], ◌∷◌};
ghost use Rattle.model.specs.Grammar.{Octet, Short, Long, Long_long, Short_text, Long_text, Field_table, Bits};
ghost use Rattle.field_table.specs.Arguments.{an_octet, a_short, a_long, a_long_long, a_short_text, a_long_text, a_field_table, some_bits};
ghost use Rattle.methods.specs.Reading.{MakesTable};
ghost use Rattle.methods.specs.Splitting.{Splits, Ends};

use crate::refusals::BadMethod;
use field_table::{
    five_bits_at, four_bits_at, is_table, long_at, long_long_at, long_text_at, octet_at,
    one_bit_at, pairs_at, short_at, short_text_at, two_bits_at,
};
use model::{Table, Text};
use std::alloc::Global;

/// The arguments that are still to be read. The calls named after a type split one off, or return [`BadMethod::SyntaxError`] if it isn't there.
#[derive(Drop)]
pub(crate) struct Cursor<'a> {
    pub(crate) alloc: Global,
    pub(crate) rest: &'a [u8],
}

impl<'a> Cursor<'a> {
    pub(crate) fn octet(&mut self) -> Result<u8, BadMethod>
        ensures { Splits (λ n. Octet n) an_octet self.old.rest.now self.new.rest.now result }
    {
        let (number, rest) = octet_at(self.rest).ok_or(BadMethod::SyntaxError)?;
        self.rest = rest;
        Ok(number)
    }

    pub(crate) fn short(&mut self) -> Result<u16, BadMethod>
        ensures { Splits (λ n. Short n) a_short self.old.rest.now self.new.rest.now result }
    {
        let (number, rest) = short_at(self.rest).ok_or(BadMethod::SyntaxError)?;
        self.rest = rest;
        Ok(number)
    }

    pub(crate) fn long(&mut self) -> Result<u32, BadMethod>
        ensures { Splits (λ n. Long n) a_long self.old.rest.now self.new.rest.now result }
    {
        let (number, rest) = long_at(self.rest).ok_or(BadMethod::SyntaxError)?;
        self.rest = rest;
        Ok(number)
    }

    pub(crate) fn long_long(&mut self) -> Result<u64, BadMethod>
        ensures { Splits (λ n. Long_long n) a_long_long self.old.rest.now self.new.rest.now result }
    {
        let (number, rest) = long_long_at(self.rest).ok_or(BadMethod::SyntaxError)?;
        self.rest = rest;
        Ok(number)
    }

    pub(crate) fn short_text(&mut self) -> Result<Text, BadMethod>
        ensures { Splits (λ t. Short_text t) a_short_text self.old.rest.now self.new.rest.now result }
    {
        let (text, rest) = short_text_at(self.rest).ok_or(BadMethod::SyntaxError)?;
        self.rest = rest;
        Ok(Text::from_slice(self.alloc, text)?)
    }

    pub(crate) fn long_text(&mut self) -> Result<Text, BadMethod>
        ensures { Splits (λ t. Long_text t) a_long_text self.old.rest.now self.new.rest.now result }
    {
        let (text, rest) = long_text_at(self.rest).ok_or(BadMethod::SyntaxError)?;
        self.rest = rest;
        Ok(Text::from_slice(self.alloc, text)?)
    }

    /// Splits off the pairs of a table, which are not checked: see [`Cursor::table_of`].
    pub(crate) fn pairs(&mut self) -> Result<&'a [u8], BadMethod>
        ensures { Splits (λ p. Field_table p.now) a_field_table self.old.rest.now self.new.rest.now result }
    {
        let (pairs, rest) = pairs_at(self.rest).ok_or(BadMethod::SyntaxError)?;
        self.rest = rest;
        Ok(pairs)
    }

    /// Copies `pairs` as a table. Returns [`BadMethod::SyntaxError`] if they are not a table's pairs.
    pub(crate) fn table_of(&self, pairs: &[u8]) -> Result<Table, BadMethod>
        ensures { MakesTable pairs.now result }
    {
        if !is_table(pairs) {
            return Err(BadMethod::SyntaxError);
        }
        Ok(Table::from_pairs(Text::from_slice(self.alloc, pairs)?))
    }

    pub(crate) fn bit(&mut self) -> Result<bool, BadMethod>
        ensures { Splits (λ b. Bits (b ∷ [])) (some_bits 1) self.old.rest.now self.new.rest.now result }
    {
        let (bit, rest) = one_bit_at(self.rest).ok_or(BadMethod::SyntaxError)?;
        self.rest = rest;
        Ok(bit)
    }

    pub(crate) fn two_bits(&mut self) -> Result<(bool, bool), BadMethod>
        ensures { Splits (λ b. Bits (b.0 ∷ b.1 ∷ [])) (some_bits 2) self.old.rest.now self.new.rest.now result }
    {
        let (first, second, rest) = two_bits_at(self.rest).ok_or(BadMethod::SyntaxError)?;
        self.rest = rest;
        Ok((first, second))
    }

    pub(crate) fn four_bits(&mut self) -> Result<(bool, bool, bool, bool), BadMethod>
        ensures { Splits (λ b. Bits (b.0 ∷ b.1 ∷ b.2 ∷ b.3 ∷ [])) (some_bits 4) self.old.rest.now self.new.rest.now result }
    {
        let ([a, b, c, d], rest) = four_bits_at(self.rest).ok_or(BadMethod::SyntaxError)?;
        self.rest = rest;
        Ok((a, b, c, d))
    }

    pub(crate) fn five_bits(&mut self) -> Result<(bool, bool, bool, bool, bool), BadMethod>
        ensures { Splits (λ b. Bits (b.0 ∷ b.1 ∷ b.2 ∷ b.3 ∷ b.4 ∷ [])) (some_bits 5) self.old.rest.now self.new.rest.now result }
    {
        let ([a, b, c, d, e], rest) = five_bits_at(self.rest).ok_or(BadMethod::SyntaxError)?;
        self.rest = rest;
        Ok((a, b, c, d, e))
    }

    /// Returns [`BadMethod::SyntaxError`] if bytes are left.
    pub(crate) fn end(&self) -> Result<(), BadMethod>
        ensures { Ends self.now.rest.now result }
    {
        if self.rest.is_empty() {
            Ok(())
        } else {
            Err(BadMethod::SyntaxError)
        }
    }
}
