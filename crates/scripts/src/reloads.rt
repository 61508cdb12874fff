//! The names of the files of a reload.

ghost use Rattle.std.specs.Prelude.{◌≡◌, IfOk, string_bytes};

use std::alloc::{AllocError, Global};
use std::marker::Model;

/// The names of a definitions, a guarantees and a certificates file.
pub struct ReloadFiles {
    definitions: String,
    guarantees: String,
    certificates: String,
}

/// Not derived: a derived drop is expanded, and proved again, in each function that drops the value.
impl Drop for ReloadFiles {
    fn drop(self) {
        let ReloadFiles {
            definitions: _,
            guarantees: _,
            certificates: _,
        } = self;
    }
}

impl Model for ReloadFiles {
    ghost use Rattle.std.specs.Prelude.{string_bytes};
    ghost use Rattle.scripts.specs.FileNames.{FileNames};

    ghost Value = { FileNames };

    ghost view = { λ f. record {
      definitions = string_bytes f.definitions;
      guarantees = string_bytes f.guarantees;
      certificates = string_bytes f.certificates;
    } };
}

impl ReloadFiles {
    /// Copies the three names. Fails only if an allocation fails.
    pub fn new(
        alloc: Global,
        definitions: &str,
        guarantees: &str,
        certificates: &str,
    ) -> Result<ReloadFiles, AllocError>
        ensures { IfOk result (λ f. f ≡ record { definitions = definitions.now; guarantees = guarantees.now; certificates = certificates.now }) }
    {
        let definitions = String::from_str(alloc, definitions)?;
        let guarantees = String::from_str(alloc, guarantees)?;
        let certificates = String::from_str(alloc, certificates)?;
        Ok(ReloadFiles {
            definitions,
            guarantees,
            certificates,
        })
    }

    pub fn definitions(&self) -> &str
        ensures { result.now ≡ self.now.definitions }
    {
        self.definitions.as_str()
    }

    pub fn guarantees(&self) -> &str
        ensures { result.now ≡ self.now.guarantees }
    {
        self.guarantees.as_str()
    }

    pub fn certificates(&self) -> &str
        ensures { result.now ≡ self.now.certificates }
    {
        self.certificates.as_str()
    }
}
