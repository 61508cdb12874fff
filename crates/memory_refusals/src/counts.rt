//! Counts the calls that were retried. Start with [`Counts`].

use std::io::{self, Write};

/// How often each kind of call was retried because an allocation failed.
#[derive(Clone, Copy, Default, Drop)]
pub struct Counts {
    pub opens: u64,
    pub feeds: u64,
    pub turns: u64,
    pub pumps: u64,
    pub reloads: u64,
    pub definitions: u64,
    pub guarantees: u64,
    pub checks: u64,
    pub admits: u64,
    pub searches: u64,
    pub disproves: u64,
    /// The number of failed calls after which an output differed.
    pub differing: u64,
    /// The number of times that all sections were run again: 0 or 1.
    pub wholes: u64,
}

impl Counts {
    /// Returns whether every output was the same after each failed call.
    pub fn is_sound(&self) -> bool {
        self.differing == 0
    }

    /// Prints the counts as one line.
    pub fn put<W: Write>(&self, out: &mut W) -> io::Result<()> {
        write!(
            out,
            "again: opens {} feeds {} turns {} pumps {} reloads {} ",
            self.opens, self.feeds, self.turns, self.pumps, self.reloads
        )?;
        write!(
            out,
            "definitions {} guarantees {} checks {} admits {} ",
            self.definitions, self.guarantees, self.checks, self.admits
        )?;
        writeln!(
            out,
            "searches {} disproves {} differing {} wholes {}",
            self.searches, self.disproves, self.differing, self.wholes
        )
    }
}

/// Adds one to `sum`.
pub fn count(sum: &mut u64) {
    *sum = sum.saturating_add(1);
}
