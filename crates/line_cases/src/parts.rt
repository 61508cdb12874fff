//! Splits a line into its parts.

/// The question of a line, and the expected answer.
#[derive(Clone, Copy, Drop)]
pub struct LineParts<'a> {
    /// The first word of the line.
    pub kind: &'a str,
    /// The text between that word and the arrow.
    pub asked: &'a str,
    /// The text after the arrow.
    pub wanted: &'a str,
}

/// Returns the parts of `line`, or `None` if it has no arrow. The last arrow counts.
pub fn parts_of(line: &str) -> Option<LineParts<'_>> {
    let (question, wanted) = line.rsplit_once(" -> ")?;
    let (kind, asked) = question.split_once(' ').unwrap_or((question, ""));
    Some(LineParts {
        kind,
        asked,
        wanted,
    })
}

/// Returns whether `line` is ignored: it is empty, or begins with `#`.
pub(crate) fn is_silent(line: &str) -> bool {
    line.is_empty() || line.starts_with('#')
}
