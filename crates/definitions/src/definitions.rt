//! Reads definitions files. Start with [`read_definitions`].

ghost use Rattle.std.specs.Prelude.{◌≡◌};
ghost use Rattle.definitions.specs.File.{file_of};
ghost use Rattle.definitions.specs.Judged.{OpensDefinitions, StatesOrReports};
ghost use Rattle.definitions.specs.Reads.{ReadsDefinitions};

use crate::document::Document;
use crate::judging::check_entries;
use crate::shape::document;
use crate::stating::{Parts, users_of};
use exchange_graph::Topology;
use json_file::{FileCause, parse};
use model::User;
use std::alloc::Global;
use std::marker::Model;

/// The users that may log in, in the file's order.
pub type Users = Vec<User>;

/// The topology and the users that a file sets up.
pub struct Definitions {
    topology: Topology,
    users: Users,
}

/// Not derived: a derived drop is expanded, and proved again, in each function that drops the value.
impl Drop for Definitions {
    fn drop(self) {
        let Definitions {
            topology: _,
            users: _,
        } = self;
    }
}

impl Model for Definitions {
    ghost use Rattle.definitions.specs.Reads.{Stated};

    ghost Value = { Stated };

    ghost view = { λ d. record { topology = d.topology; users = d.users.items } };
}

impl Definitions {
    /// Returns the exchanges, queues and bindings, each in the file's order.
    pub fn topology(&self) -> &Topology
        ensures { result.now ≡ self.now.topology }
    {
        &self.topology
    }

    /// Returns the users, in the file's order.
    pub fn users(&self) -> &[User]
        ensures { result.now ≡ self.now.users }
    {
        self.users.as_slice()
    }

    /// Splits the definitions into topology and users.
    pub fn into_parts(self) -> (Topology, Vec<User>)
        ensures topology { result.0 ≡ self.topology }
        ensures users { result.1.items ≡ self.users }
    {
        let Definitions { topology, users } = self;
        (topology, users)
    }
}

/// Parses the entries of a file, without checking them.
fn open(alloc: Global, bytes: &[u8]) -> Result<Document, FileCause>
    ensures { OpensDefinitions result bytes.now }
{
    let value = parse(alloc, bytes)?;
    let document = document(alloc, &value)?;
    Ok(document)
}

/// Checks the entries, and returns what they set up. Fails with the lowest-numbered cause that applies to them, or with
/// [`FileCause::Memory`] if an allocation fails.
fn set_up(alloc: Global, document: &Document) -> Result<Definitions, FileCause>
    ensures { StatesOrReports result (file_of document.now) }
{
    let parts = Parts::of(alloc, document)?;
    check_entries(alloc, document, &parts)?;
    let Some(users) = users_of(alloc, document.users.as_slice())? else {
        return Err(FileCause::OtherHash);
    };
    let topology = parts.sound(alloc)?;
    Ok(Definitions { topology, users })
}

/// Reads the topology and the users that a definitions file sets up.
///
/// A file has at most 16,777,216 bytes. Fails with the lowest-numbered cause that applies anywhere in the file, or with
/// [`FileCause::Memory`] if an allocation fails. Source: RabbitMQ, "Definition Export and Import"; `docs/FORMATS.md` lists
/// the members, the causes and the limits.
pub fn read_definitions(alloc: Global, bytes: &[u8]) -> Result<Definitions, FileCause>
    ensures { ReadsDefinitions result bytes.now }
{
    let document = open(alloc, bytes)?;
    set_up(alloc, &document)
}
