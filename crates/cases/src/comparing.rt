//! Compares texts line by line. Start with [`compared`].

ghost use Rattle.std.specs.Prelude.{◌≡◌, ◌↔◌};
ghost use Rattle.cases.specs.declared.comparing.Difference.TheVariants as different;

/// Where two texts differ first.
#[derive(Clone, Copy, PartialEq, Eq, Debug, Drop)]
pub enum Difference {
    /// They are equal.
    None,
    /// In this line, counted from 1.
    At(u64),
}

/// Returns the line, counted from 1, of the first byte in which two texts differ.
fn line_of(expected: &[u8], printed: &[u8]) -> u64 {
    let mut line = 1u64;
    for (a, b) in expected.iter().zip(printed.iter()) {
        if *a != *b {
            return line;
        }
        if *a == b'\n' {
            line = line.saturating_add(1);
        }
    }
    line
}

/// Compares two texts. Returns [`Difference::None`] if and only if they are equal.
pub fn compared(expected: &[u8], printed: &[u8]) -> Difference
    ensures { (result ≡ different.None) ↔ (expected.now ≡ printed.now) }
{
    if expected == printed {
        Difference::None
    } else {
        Difference::At(line_of(expected, printed))
    }
}
