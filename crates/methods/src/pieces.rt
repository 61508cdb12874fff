//! A method's arguments as a short list of [`Piece`]s, from which they are written.

/// An argument, or `Nothing`. Texts and tables borrow the method's.
#[derive(Clone, Copy, Drop)]
pub enum Piece<'a> {
    Nothing,
    Octet(u8),
    Short(u16),
    Long(u32),
    LongLong(u64),
    ShortText(&'a [u8]),
    LongText(&'a [u8]),
    Table(&'a [u8]),
    Bit(bool),
    TwoBits(bool, bool),
    FourBits(bool, bool, bool, bool),
    FiveBits(bool, bool, bool, bool, bool),
}

/// The arguments of a method in wire order: at most five, the rest are `Nothing`.
#[derive(Clone, Copy, Drop)]
pub struct Pieces<'a> {
    pub first: Piece<'a>,
    pub second: Piece<'a>,
    pub third: Piece<'a>,
    pub fourth: Piece<'a>,
    pub fifth: Piece<'a>,
}

/// The empty list of arguments.
pub const NOTHING: Pieces<'static> = Pieces {
    first: Piece::Nothing,
    second: Piece::Nothing,
    third: Piece::Nothing,
    fourth: Piece::Nothing,
    fifth: Piece::Nothing,
};
