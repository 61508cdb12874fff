//! Finds the lowest-numbered cause below 13 that applies to the entries of a file. The users' password hashes, cause 13, are
//! checked when the users are built.

ghost use Rattle.std.specs.Prelude.{◌≡◌, ◌+◌, ◌<◌, Decides, MatchResult};
ghost use Rattle.json_file.specs.Causes.{cause_number};
ghost use Rattle.definitions.specs.Causes.{IsClear, IsClearBelow, IsReported};
ghost use Rattle.definitions.specs.File.{file_of};
ghost use Rattle.definitions.specs.Judged.{JudgesFile};
ghost use Rattle.definitions.specs.States.{topology_of};

use crate::causes::{
    has_all_join, has_all_worded, has_distinct_names, has_few, has_names_lead, has_one_vhost,
    has_overflows, has_permissions, has_types, is_supported,
};
use crate::document::{Document, UserEntry};
use crate::stating::Parts;
use json_file::FileCause;
use std::alloc::Global;
use std::marker::Model;
use topology_drafts::{Directory, Draft};

/// The entries of a file, with the directories in which names are looked up.
#[derive(Drop)]
struct Entries<'a> {
    alloc: Global,
    document: &'a Document,
    users: &'a Directory<'a, UserEntry>,
    draft: &'a Draft<'a>,
}

impl<'a> Model for Entries<'a> {
    ghost use Rattle.definitions.specs.File.{File, file_of};
    ghost use Rattle.definitions.specs.Looked.{AreLookedUp};

    ghost Value = { File };

    ghost view = { λ e. file_of e.document.now };

    ghost invariant = { λ e. AreLookedUp (file_of e.document.now) e.users.now e.draft.now };
}

impl<'a> Entries<'a> {
    /// Returns whether `cause`, below number 13, does not apply.
    fn is_clear(&self, cause: FileCause) -> bool
        requires { cause_number cause < 13 }
        ensures { Decides result (IsClear cause self.now) }
    {
        match cause {
            FileCause::OtherVhost => has_one_vhost(self.document),
            FileCause::Repeated => has_distinct_names(self.document, self.users, self.draft),
            FileCause::Absent => has_all_join(self.document, self.draft),
            FileCause::OtherType => has_types(self.document),
            FileCause::Unsupported => is_supported(self.document),
            FileCause::NoOverflow => has_overflows(self.document),
            FileCause::Worded => has_all_worded(self.document, self.draft),
            FileCause::TooMany => has_few(self.document, self.draft),
            FileCause::NoExchange => has_names_lead(self.document, self.draft),
            FileCause::OtherPermission => has_permissions(self.alloc, self.document, self.users),
            _ => true,
        }
    }

    /// Fails with `cause`, whose number is below 13, if that cause applies.
    fn tell(&self, cause: FileCause) -> Result<(), FileCause>
        requires asked { cause_number cause < 13 }
        requires below { IsClearBelow (cause_number cause) self.now }
        ensures { MatchResult result (λ _. IsClearBelow (cause_number cause + 1) self.now) (λ bad. IsReported bad self.now) }
    {
        if self.is_clear(cause) {
            Ok(())
        } else {
            Err(cause)
        }
    }

    /// Fails with the lowest-numbered cause below 13 that applies.
    fn tell_least(&self) -> Result<(), FileCause>
        ensures { JudgesFile result self.now }
    {
        self.tell(FileCause::OtherVhost)?;
        self.tell(FileCause::Repeated)?;
        self.tell(FileCause::Absent)?;
        self.tell(FileCause::OtherType)?;
        self.tell(FileCause::Unsupported)?;
        self.tell(FileCause::NoOverflow)?;
        self.tell(FileCause::Worded)?;
        self.tell(FileCause::TooMany)?;
        self.tell(FileCause::NoExchange)?;
        self.tell(FileCause::OtherPermission)
    }
}

/// Fails with the lowest-numbered cause below 13 that applies to `document`. `parts` is what it sets up.
pub fn check_entries(alloc: Global, document: &Document, parts: &Parts) -> Result<(), FileCause>
    requires { parts.now ≡ topology_of (file_of document.now) }
    ensures { JudgesFile result (file_of document.now) }
{
    let users = Directory::of(alloc, document.users.as_slice());
    let draft = parts.draft(alloc);
    let entries = Entries {
        alloc,
        document,
        users: &users,
        draft: &draft,
    };
    entries.tell_least()
}
