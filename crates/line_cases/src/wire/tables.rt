//! Lines about field tables.

use super::put_again;
use field_table::{BadTable, Table, read_table, write_table};
use line_parts::{LineAnswer, Unanswered};

fn put_written(out: &mut LineAnswer, table: &Table, bytes: &[u8]) {
    let mut written = Vec::new(out.alloc());
    match write_table(&mut written, table) {
        Ok(()) => put_again(out, bytes, written.as_slice()),
        Err(_) => out.fail(Unanswered::Memory),
    }
}

/// Appends `read` if the bytes are a table that is written with the same bytes, or the reply code.
pub fn put_table(out: &mut LineAnswer, bytes: &[u8]) {
    match read_table(out.alloc(), bytes) {
        Ok(table) => put_written(out, &table, bytes),
        Err(BadTable::SyntaxError) => out.put("502"),
        Err(BadTable::Memory) => out.fail(Unanswered::Memory),
    }
}
