//! The setup of an engine: a topology with its guarantees, and the users.

ghost use Rattle.std.specs.Prelude.{◌≡◌, IfOk};
ghost use Rattle.model.specs.Headline.{IsSound};
ghost use Rattle.engine.specs.InForce.{in_force};

use certificate::Checked;
use model::User;
use std::alloc::{AllocError, Global};
use std::marker::Model;

/// Returns a copy of `users` that shares their texts. Fails only if an allocation fails.
pub(crate) fn copied_users(alloc: Global, users: &[User]) -> Result<Vec<User>, AllocError>
    ensures { IfOk result (λ copies. copies.items ≡ users.now) }
{
    let mut copies = Vec::new(alloc);
    for user in users {
        copies.push(User {
            name: user.name.clone()?,
            hash: user.hash.clone()?,
        })?;
    }
    Ok(copies)
}

/// The setup of an engine or of a reload: a topology with guarantees that hold of it, and the users who may log in.
pub struct Setup {
    checked: Checked,
    users: Vec<User>,
}

/// Not derived: a derived drop is expanded, and proved again, in each function that drops the value.
impl Drop for Setup {
    fn drop(self) {
        let Setup {
            checked: _,
            users: _,
        } = self;
    }
}

impl Model for Setup {
    ghost use Rattle.model.specs.State.{Config};
    ghost use Rattle.engine.specs.InForce.{in_force};

    ghost Value = { Config };

    ghost view = { λ s. in_force s.checked s.users.items };
}

impl Setup {
    /// Makes a setup of the topology with its guarantees, and `users`.
    pub fn new(checked: Checked, users: Vec<User>) -> Setup
        ensures { result ≡ in_force checked users.items }
    {
        Setup { checked, users }
    }

    /// Returns a copy that shares the texts. Fails only if an allocation fails.
    pub fn clone(&self, alloc: Global) -> Result<Setup, AllocError>
        ensures { IfOk result (λ copy. copy ≡ self.now) }
    {
        Ok(Setup {
            checked: self.checked.clone(alloc)?,
            users: copied_users(alloc, self.users.as_slice())?,
        })
    }

    /// Returns the topology with its guarantees.
    pub(crate) fn checked(&self) -> &Checked
        ensures topology { result.now.topology ≡ self.now.topology }
        ensures guarantees { result.now.guarantees ≡ self.now.guarantees }
    {
        &self.checked
    }

    /// Shows that what a setup would put in force is sound. Does nothing at run time.
    pub fn ghost_is_sound(&self)
        ensures { IsSound self.now }
    {
        self.checked.ghost_holds();
    }

    /// Splits the setup into the topology with its guarantees, and the users.
    pub fn into_parts(self) -> (Checked, Vec<User>)
        ensures { self ≡ in_force result.0 result.1.items }
    {
        let Setup { checked, users } = self;
        (checked, users)
    }
}
