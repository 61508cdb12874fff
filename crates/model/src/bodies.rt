//! The body of a content: a short one is kept in place, a longer one as shared bytes.

ghost use Rattle.std.specs.Prelude.{◌≡◌, ◌≤◌, [], length, take, IsOk, IfOk, IfErr};

use crate::places::{first_of, padded};
use bytes::{Bytes, BytesMut};
use std::alloc::{AllocError, AllocFailed, Global};
use std::marker::Model;

/// The most bytes that a body keeps in place.
const MOST_SHORT: usize = 46;

/// Where the bytes of a body are kept.
#[derive(Drop)]
enum Stored {
    /// In the body itself: the length, and an array that begins with the bytes.
    Short(u8, [u8; 46]),
    /// In a block that all clones share.
    Long(Bytes),
}

/// Returns a body that keeps `bytes` in place.
fn short(bytes: &[u8]) -> Body
    requires { length bytes.now ≤ 46 }
    ensures { result ≡ bytes.now }
{
    Body {
        kept: Stored::Short(bytes.len() as u8, padded(bytes)),
    }
}

/// The body of a content: any bytes, in a value of 48 bytes. Clones share the bytes if there are more than 46.
pub struct Body {
    kept: Stored,
}

/// Not derived: a derived drop is expanded, and proved again, in each function that drops the value.
impl Drop for Body {
    fn drop(self) {
        let Body { kept: _ } = self;
    }
}

impl Model for Body {
    ghost use Rattle.std.specs.Prelude.{◌<◌, List, ℕ, length, take};
    ghost use Rattle.model.specs.declared.bodies.Stored.TheVariants.{Short, Long};

    ghost Value = { List ℕ };

    ghost view = { λ b. elim b.kept [ Short len place ↦ take len place | Long bytes ↦ bytes ] };

    ghost invariant = { λ b. elim b.kept [ Short len place ↦ Unit {0} | Long bytes ↦ 46 < length bytes ] };
}

impl Body {
    /// Returns a body of no bytes. Never allocates.
    pub fn empty() -> Body
        ensures { result ≡ [] }
    {
        Body {
            kept: Stored::Short(0, [0; MOST_SHORT]),
        }
    }

    /// Copies `bytes`. Up to 46 bytes this never fails; otherwise it fails only if an allocation fails.
    pub fn from_slice(alloc: Global, bytes: &[u8]) -> Result<Body, AllocError>
        ensures ok { IfOk result (λ b. b ≡ bytes.now) }
        ensures short { length bytes.now ≤ 46 → IsOk result }
    {
        if bytes.len() <= MOST_SHORT {
            return Ok(short(bytes));
        }
        Ok(Body {
            kept: Stored::Long(Bytes::copy_from_slice(alloc, bytes)?),
        })
    }

    /// Converts `gathered` into a body without copying more than 46 bytes. Up to 46
    /// bytes this never fails. If an allocation fails, the error holds `gathered`.
    pub fn from_gathered(gathered: BytesMut) -> Result<Body, AllocFailed<BytesMut>>
        ensures ok { IfOk result (λ b. b ≡ gathered.items) }
        ensures short { length gathered.items ≤ 46 → IsOk result }
        ensures err { IfErr result (λ e. e.value ≡ gathered) }
    {
        if gathered.len() <= MOST_SHORT {
            return Ok(short(gathered.as_slice()));
        }
        match gathered.freeze() {
            Ok(bytes) => Ok(Body {
                kept: Stored::Long(bytes),
            }),
            Err(failed) => Err(failed),
        }
    }

    /// Returns the same body, sharing its bytes if there are more than 46. Up to 46 bytes this never fails.
    pub fn clone(&self) -> Result<Body, AllocError>
        ensures ok { IfOk result (λ b. b ≡ self.now) }
        ensures short { length self.now ≤ 46 → IsOk result }
    {
        match &self.kept {
            Stored::Short(len, place) => Ok(Body {
                kept: Stored::Short(*len, *place),
            }),
            Stored::Long(bytes) => Ok(Body {
                kept: Stored::Long(bytes.clone()?),
            }),
        }
    }

    pub fn as_bytes(&self) -> &[u8]
        ensures { result.now ≡ self.now }
    {
        match &self.kept {
            Stored::Short(len, place) => first_of(place, *len),
            Stored::Long(bytes) => bytes.as_slice(),
        }
    }

    /// Returns the length in bytes.
    pub fn len(&self) -> usize
        ensures { result ≡ length self.now }
    {
        self.as_bytes().len()
    }
}
