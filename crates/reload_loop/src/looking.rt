//! One look at the files.

ghost use Rattle.std.specs.Prelude.{◌≡◌, is_ok, true, MatchResult};
ghost use Rattle.reload_loop.specs.declared.found.Found.TheVariants.{Nothing};
ghost use Rattle.engine.specs.World.{world_of};
ghost use Rattle.engine.specs.Allocating.{MayAllocate};
ghost use Rattle.runs.specs.Reloaded.{NothingHinders};
ghost use Rattle.scripts.specs.FileNames.{FileNames};
ghost use Rattle.server.specs.Files.{AreKept};
ghost use Rattle.serving.specs.Whole.{KeepsServed};
ghost use Rattle.server.specs.Streams.{gain};
ghost use Rattle.reload_loop.specs.Snapshots.{names_of};
ghost use Rattle.reload_loop.specs.Looks.{ActsOnFound, IsFound, IsFoundAgain, IsStated, IsWhyRefused, JudgesOffer, LooksFrom, PutsOffer, WasFound};
ghost use Rattle.reload_loop.specs.Telling.{Carries, told_of};

use crate::found::Found;
use crate::lines::{last_line, recent, tell_fault, tell_refusal, told_before};
use crate::snapshots::{Names, Reading, Snapshot};
use engine::{Engine, Setup};
use runs::ReloadFault;
use server::{BrokerFiles, CommandRefusal, Files, Report, in_force};
use serving::Server;
use std::alloc::{AllocError, Global};
use std::io::Write;
use std::{io, mem};

/// Returns the setup that the files state, by the bytes in `read`, or the refusal of one of them, which is reported.
fn stated<'a>(alloc: Global, names: Names<'a>, read: &Snapshot) -> Result<Setup, Report<'a>>
    ensures { MatchResult result (IsStated (names_of names.entry) read.now) (λ r. IsWhyRefused (names_of names.entry) read.now r.file.now r.why) }
{
    let named = BrokerFiles {
        definitions: Some(names.definitions),
        guarantees: Some(names.guarantees),
        certificates: Some(names.certificates),
    };
    let mut reading = Reading {
        names,
        snapshot: read,
    };
    match in_force(alloc, named, &mut reading) {
        Ok((checked, users)) => Ok(Setup::new(checked, users)),
        Err(report) => Err(report),
    }
}

/// Returns whether the files still are as they were when `found` was read from them. Returns `false` if judging them or putting them in force failed to
/// allocate, since memory may be free again.
fn is_found_again<F: Files>(
    alloc: Global,
    names: Names<'_>,
    found: &Found<'_>,
    files: &mut F,
) -> bool
    ensures again { result ≡ true → IsFoundAgain (F.holds files.old) (names_of names.entry) found.now }
    ensures files { AreKept (F.holds files.old) (F.holds files.new) }
{
    match found {
        Found::Nothing => false,
        Found::Refused { read, report, .. } => {
            !matches!(report.why, CommandRefusal::Memory) && read.is_found(alloc, names, files)
        }
        Found::Admitted { read, .. } => read.is_found(alloc, names, files),
        Found::Wanting { .. } => false,
    }
}

/// Reads the files, and returns what they state, or `Nothing` if they have the bytes in `kept`, by which the configuration in force was judged. `before`
/// is what an earlier look found: it remembers when a line about the same files was written.
fn find<'a, F: Files>(
    alloc: Global,
    names: Names<'a>,
    kept: &Snapshot,
    before: &Found<'a>,
    files: &mut F,
) -> Found<'a>
    ensures found { IsFound (F.holds files.old) (names_of names.entry) kept.now result }
    ensures told { Carries (told_of before.now) result }
    ensures files { AreKept (F.holds files.old) (F.holds files.new) }
{
    let read = Snapshot::take(alloc, names, files);
    if read.has_same(kept) {
        return Found::Nothing;
    }
    let told = told_before(before, &read);
    match stated(alloc, names, &read) {
        Ok(setup) => Found::Admitted { read, setup, told },
        Err(report) => Found::Refused { read, report, told },
    }
}

/// Updates `found` to what the files state now. Keeps it if the files still are as they were when it was read from them. Sets it to `Nothing` if they
/// have the bytes in `kept`, by which the configuration in force was judged. It remembers still when a line about the same files was last written.
fn find_again<'a, F: Files>(
    alloc: Global,
    names: Names<'a>,
    kept: &Snapshot,
    found: &mut Found<'a>,
    files: &mut F,
)
    requires { WasFound (names_of names) kept.now found.old }
    ensures found { IsFound (F.holds files.old) (names_of names.entry) kept.now found.new }
    ensures told { Carries (told_of found.old) found.new }
    ensures files { AreKept (F.holds files.old) (F.holds files.new) }
{
    if is_found_again(alloc, names, &*found, files) {
        return;
    }
    if kept.is_held(alloc, names, files) {
        *found = Found::Nothing;
        return;
    }
    *found = find(alloc, names, kept, &*found, files);
}

/// Checks that `setup` may be put in force now. Fails with the first obstacle, or if an allocation fails. Copies nothing of `setup`.
fn judge(alloc: Global, engine: &Engine, setup: &Setup) -> Result<(), ReloadFault>
    ensures { JudgesOffer (world_of engine.now) setup.now result }
{
    if let Some(obstacle) = engine.obstacle(alloc, setup)? {
        return Err(ReloadFault::of(obstacle));
    }
    Ok(())
}

/// Puts `setup` in force, to which there is no obstacle, and keeps `read`, by which it was judged. If an allocation fails, `read` is found to be wanting,
/// and one line is written to `err`, unless one was at `told`, less than a minute before `now`; nothing else changes.
fn put_in_force<'a, E: Write>(
    alloc: Global,
    now: u64,
    server: &mut Server<Engine>,
    kept: &mut Snapshot,
    found: &mut Found<'a>,
    read: Snapshot,
    setup: Setup,
    told: Option<u64>,
    err: &mut E,
) -> io::Result<()>
    requires nothing { NothingHinders (world_of server.old.machine) setup }
    requires none { found.old ≡ Nothing }
    ensures looks { PutsOffer read setup told now (gain E.contents err.old err.new) kept.old server.old found.new kept.new server.new (is_ok result) }
    ensures found { (names : FileNames) → WasFound names kept.new found.new }
    ensures peers { server.new.peers ≡ server.old.peers }
    ensures served { KeepsServed MayAllocate world_of server.old server.new }
{
    match server.put_in_force(alloc, setup) {
        Ok(()) => {
            *kept = read;
            Ok(())
        }
        Err(AllocError) => {
            let last = recent(told, now);
            let told = Some(last_line(last, now));
            *found = Found::Wanting { read, told };
            tell_fault(alloc, last, ReloadFault::Memory, err)
        }
    }
}

/// Puts `found` in force and clears it, if it was admitted and there is no obstacle. Otherwise keeps it for the next look, without the setup if an
/// allocation failed after that was handed over, and reports why, unless a line about these files was written less than a minute before `now`. Does
/// nothing if `found` is `Nothing`.
fn act<'a, E: Write>(
    alloc: Global,
    now: u64,
    server: &mut Server<Engine>,
    kept: &mut Snapshot,
    found: &mut Found<'a>,
    err: &mut E,
) -> io::Result<()>
    ensures looks { ActsOnFound found.old now (gain E.contents err.old err.new) kept.old server.old found.new kept.new server.new (is_ok result) }
    ensures found { (names : FileNames) → WasFound names kept.old found.old → WasFound names kept.new found.new }
    ensures peers { server.new.peers ≡ server.old.peers }
    ensures served { KeepsServed MayAllocate world_of server.old server.new }
{
    match mem::replace(found, Found::Nothing) {
        Found::Nothing => Ok(()),
        Found::Wanting { .. } => Ok(()),
        Found::Refused { read, report, told } => {
            let last = recent(told, now);
            let told = Some(last_line(last, now));
            *found = Found::Refused { read, report, told };
            tell_refusal(alloc, last, report, err)
        }
        Found::Admitted { read, setup, told } => match judge(alloc, server.machine(), &setup) {
            Ok(()) => put_in_force(alloc, now, server, kept, found, read, setup, told, err),
            Err(fault) => {
                let last = recent(told, now);
                let told = Some(last_line(last, now));
                *found = Found::Admitted { read, setup, told };
                tell_fault(alloc, last, fault, err)
            }
        },
    }
}

/// Puts in force what the files state, if they have other bytes than those in `kept`, by which the configuration in force was judged. If they are
/// refused, there is an obstacle, or an allocation fails, changes nothing, and writes one line to `err`, unless an earlier look did so about the same
/// files less than a minute before `now`. Fails if `err` doesn't take the line whole.
///
/// What was found and not put in force is remembered in `found`: while the files are the same they are not judged again, unless an allocation failed
/// when they were judged or put in force. For an admitted setup the broker is asked again for an obstacle.
pub(crate) fn look<'a, F: Files, E: Write>(
    alloc: Global,
    now: u64,
    server: &mut Server<Engine>,
    names: Names<'a>,
    kept: &mut Snapshot,
    found: &mut Found<'a>,
    files: &mut F,
    err: &mut E,
) -> io::Result<()>
    requires { WasFound (names_of names) kept.old found.old }
    // The promise: what a look does.
    ensures looks { LooksFrom F.holds files.old names.entry now E.contents err.old err.new found.old kept.old server.old found.new kept.new server.new result }
    // What is remembered; the peers and the files are unchanged, and `IsServed` is kept.
    ensures found { WasFound (names_of names.entry) kept.new found.new }
    ensures peers { server.new.peers ≡ server.old.peers }
    ensures served { KeepsServed MayAllocate world_of server.old server.new }
    ensures files { AreKept (F.holds files.old) (F.holds files.new) }
{
    find_again(alloc, names, &*kept, found, files);
    act(alloc, now, server, kept, found, err)
}
