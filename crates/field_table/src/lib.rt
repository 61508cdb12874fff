//! Field tables, and the single arguments that tables, methods and headers consist of.
//!
//! A table is a length (4 bytes) and pairs, each a name (a short string), a type letter and a value. An array is a length
//! and letters with values. Tables and arrays are nested at most 16 levels deep. Source: AMQP 0-9-1, section 4.2.5, "Data
//! Types", with the type letters of RabbitMQ.
//! Start at [`read_table`] and [`write_table`]; [`is_table`] checks without allocating.
#![tactic(auto)]

mod checking;
mod fields;
mod leaves;
mod lookups;
mod measuring;
mod reading;
mod refusals;
mod takes;
mod writing;

pub use checking::is_table;
pub use fields::{Field, FieldTable as Table, TableEntry};
pub use lookups::has_field;
pub use reading::read_table;
pub use refusals::BadTable;
pub use takes::{
    five_bits_at, four_bits_at, long_at, long_long_at, long_text_at, octet_at, one_bit_at,
    pairs_at, short_at, short_text_at, two_bits_at,
};
pub use writing::{put_bytes, write_table};
