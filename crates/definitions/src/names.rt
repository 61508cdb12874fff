//! The names by which users and permissions are looked up.

ghost use Rattle.std.specs.Prelude.{◌≡◌};

use crate::document::{PermissionEntry, UserEntry};
use topology_drafts::Named;

impl Named for UserEntry {
    ghost named = { λ u. u.name };

    fn name(&self) -> &[u8] {
        self.name.as_bytes()
    }
}

impl Named for PermissionEntry {
    ghost named = { λ p. p.user };

    fn name(&self) -> &[u8] {
        self.user.as_bytes()
    }
}
