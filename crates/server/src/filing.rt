//! Writes the certificates that `check` found to a file. Start with [`write_out`].

ghost use Rattle.std.specs.Prelude.{[], List, MatchResult};
ghost use Rattle.certificate.specs.Drafts.{IsDraft};
ghost use Rattle.model.specs.Certificates.{Certificate as Shown};
ghost use Rattle.server.specs.Stated.{file_named};
ghost use Rattle.server.specs.Program.{Drafts, IsUnwritten, ReadsBack};
ghost use Rattle.server.specs.Performing.{FilesDraft, FilesVerdicts};

use crate::refusals::{CommandRefusal, Report};
use crate::storage::Files;
use certificate::{Draft, Unwritten};
use std::alloc::Global;

/// Returns a draft without certificates, if a file is named.
pub fn draft_for(alloc: Global, out: Option<&str>) -> Option<Draft>
    ensures { Drafts (file_named out.entry) result [] }
{
    match out {
        Some(_) => Some(Draft::new(alloc)),
        None => None,
    }
}

/// Returns the text of a drafted file. Fails if a text in it isn't UTF-8, if it would be too long, or if an allocation fails.
fn text_of(draft: Draft) -> Result<Vec<u8>, CommandRefusal>
    ensures { (cs : List Shown) → IsDraft draft cs → MatchResult result (λ text. ReadsBack text.items cs) IsUnwritten }
{
    match draft.finished() {
        Ok(text) => Ok(text),
        Err(Unwritten::NotText) => Err(CommandRefusal::Unwritten),
        Err(Unwritten::TooLong) => Err(CommandRefusal::Unwritten),
        Err(Unwritten::Memory) => Err(CommandRefusal::Memory),
    }
}

/// Writes a drafted file. Fails if its text can't be made, or if the write fails.
fn write_file<F: Files>(file: &str, draft: Draft, files: &mut F) -> Result<(), CommandRefusal>
    ensures { FilesDraft (F.holds files.old) (F.holds files.new) file.now draft result }
{
    let text = match text_of(draft) {
        Ok(text) => text,
        Err(why) => return Err(why),
    };
    match files.write(file, text.as_slice()) {
        Ok(_) => Ok(()),
        Err(_) => Err(CommandRefusal::Unwritten),
    }
}

/// Writes the drafted certificates to the file `out`, if it is named and `status` says that all guarantees hold.
pub fn write_out<'a, F: Files>(
    out: Option<&'a str>,
    status: u8,
    draft: Option<Draft>,
    files: &mut F,
) -> Result<(), Report<'a>>
    ensures { FilesVerdicts (F.holds files.old) (F.holds files.new) (file_named out.entry) status draft result }
{
    let file = match out {
        Some(file) => file,
        None => return Ok(()),
    };
    let draft = match draft {
        Some(draft) => draft,
        None => return Ok(()),
    };
    if status != 0 {
        return Ok(());
    }
    match write_file(file, draft, files) {
        Ok(_) => Ok(()),
        Err(why) => Err(Report { file, why }),
    }
}
