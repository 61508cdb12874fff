//! The types of a decoded field table. Start at [`FieldTable`].

use model::Text;

/// A field table: names and values in wire order. A name may occur twice.
///
/// Not every table can be encoded: a name has fewer than 256 bytes, a text, array or table fewer than 2^32, and tables and
/// arrays are nested at most 16 levels deep, the outermost counted.
///
/// Source: AMQP 0-9-1, section 4.2.5.5, "Field Tables".
#[cycle(fields)]
#[derive(Drop)]
pub struct FieldTable {
    pub entries: Vec<TableEntry>,
}

/// A name and its value.
#[cycle(fields)]
#[derive(Drop)]
pub struct TableEntry {
    pub name: Text,
    pub value: Field,
}

/// A value of a table or an array, with RabbitMQ's type letter for each variant.
///
/// Numbers are kept as their bytes are: a signed number of the client is its two's complement.
#[cycle(fields)]
#[derive(Drop)]
pub enum Field {
    /// `t`.
    Truth(bool),
    /// `b`.
    Byte(u8),
    /// `s`.
    Short(u16),
    /// `I`.
    Long(u32),
    /// `l`.
    LongLong(u64),
    /// `f`: the bits of a float, which are not interpreted.
    Float(u32),
    /// `d`: the bits of a double, which are not interpreted.
    Double(u64),
    /// `D`: the number `digits`, of which `scale` digits are after the decimal point.
    Decimal { scale: u8, digits: u32 },
    /// `S`.
    Text(Text),
    /// `A`.
    Array(Vec<Field>),
    /// `T`: seconds since 1970.
    Timestamp(u64),
    /// `F`.
    Table(FieldTable),
    /// `x`.
    Bytes(Text),
    /// `V`: no value.
    Void,
}
