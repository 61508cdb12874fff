//! Counts lines, and those that differ.

/// The number of lines, and of those whose answer differs from the expected one.
#[derive(Clone, Copy, Drop)]
pub struct Count {
    pub lines: u64,
    pub differing: u64,
}

impl Count {
    pub fn none() -> Count {
        Count {
            lines: 0,
            differing: 0,
        }
    }

    /// Counts a line.
    pub fn add_line(&mut self, is_answered: bool) {
        self.lines = self.lines.saturating_add(1);
        if !is_answered {
            self.differing = self.differing.saturating_add(1);
        }
    }

    /// Adds the counts of a file. A file without lines counts as one line that differs.
    pub fn add_file(&mut self, file: Count) {
        self.lines = self.lines.saturating_add(file.lines);
        self.differing = self.differing.saturating_add(file.differing);
        if file.lines == 0 {
            self.differing = self.differing.saturating_add(1);
        }
    }

    /// Returns whether there were lines, and none of them differs.
    pub fn is_passed(&self) -> bool {
        self.lines != 0 && self.differing == 0
    }
}
