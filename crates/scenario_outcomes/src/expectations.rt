//! The comparisons of a scenario, and how a failed one is reported. Start with [`Unmet`].

ghost use Rattle.std.specs.Prelude.{◌≡◌, ◌↔◌, IsErr, IsOk, IsTrue, MatchResult, Ok};

use std::fmt;

/// The first expectation of a scenario that was not met.
#[derive(Clone, Copy, Drop)]
pub enum Unmet {
    /// This call failed, though it should have returned a value.
    Call(&'static str),
    /// This claim does not hold.
    Claim(&'static str),
    /// The number called `name` is not the expected one.
    Number {
        name: &'static str,
        number: u64,
        expected: u64,
    },
    /// The bytes called `name` differ from the expected ones, first at `index`.
    Bytes {
        name: &'static str,
        index: usize,
    },
}

impl fmt::Display for Unmet {
    fn fmt<W: fmt::Write>(&self, f: &mut fmt::Formatter<W>) -> fmt::Result {
        match self {
            Unmet::Call(call) => write!(f, "{call} failed"),
            Unmet::Claim(claim) => write!(f, "it is not so that {claim}"),
            Unmet::Number {
                name,
                number,
                expected,
            } => write!(f, "{name} is {number}, not {expected}"),
            Unmet::Bytes { name, index } => write!(f, "{name} differs at byte {index}"),
        }
    }
}

/// Returns the value of `outcome`, or reports that `call` failed.
pub fn value_of<T, E: Drop>(call: &'static str, outcome: Result<T, E>) -> Result<T, Unmet>
    ensures { MatchResult outcome (λ value. result ≡ Ok value) (λ _. IsErr result) }
{
    match outcome {
        Ok(value) => Ok(value),
        Err(_) => Err(Unmet::Call(call)),
    }
}

/// Checks that `is_so` is true; `claim` says what that means.
pub fn expect(claim: &'static str, is_so: bool) -> Result<(), Unmet>
    ensures { IsOk result ↔ IsTrue is_so }
{
    if is_so {
        Ok(())
    } else {
        Err(Unmet::Claim(claim))
    }
}

/// Checks that `number` equals `expected`.
pub fn expect_number(name: &'static str, number: u64, expected: u64) -> Result<(), Unmet>
    ensures { IsOk result ↔ (number ≡ expected) }
{
    if number == expected {
        Ok(())
    } else {
        Err(Unmet::Number {
            name,
            number,
            expected,
        })
    }
}

/// Returns the index of the first difference, or the length of the shorter slice if one is a prefix of the other.
fn index_of_difference(bytes: &[u8], expected: &[u8]) -> usize {
    bytes
        .iter()
        .zip(expected.iter())
        .take_while(|(a, b)| **a == **b)
        .count()
}

/// Checks that `bytes` equal `expected`.
pub fn expect_bytes(name: &'static str, bytes: &[u8], expected: &[u8]) -> Result<(), Unmet>
    ensures { IsOk result ↔ (bytes.now ≡ expected.now) }
{
    if bytes == expected {
        return Ok(());
    }
    Err(Unmet::Bytes {
        name,
        index: index_of_difference(bytes, expected),
    })
}
