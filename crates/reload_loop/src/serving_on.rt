//! Serves, with looks at the files between rounds.

ghost use Rattle.std.specs.Prelude.{◌≤◌, true, None};
ghost use Rattle.engine.specs.World.{world_of};
ghost use Rattle.engine.specs.Allocating.{MayAllocate};
ghost use Rattle.server.specs.Files.{AreKept};
ghost use Rattle.serving.specs.Serving.{server_state};
ghost use Rattle.serving.specs.Whole.{StaysServed};
ghost use Rattle.reload_loop.specs.Snapshots.{names_of};
ghost use Rattle.reload_loop.specs.ServesOn.{ServesTelling, between_rounds};

use crate::clock::Clock;
use crate::found::Found;
use crate::looking::look;
use crate::snapshots::{Names, Snapshot};
use engine::Engine;
use server::Files;
use serving::{Server, Wire, serve};
use std::alloc::Global;
use std::io::Write;

/// Does `turns` rounds, with a look at the files after every `every` of them, except at the end.
///
/// A look puts in force what the files state if they have other bytes than `kept`, by which the configuration in force was judged. If they are
/// refused, there is an obstacle, or an allocation fails, it writes one line to `err`, and the configuration in force and `kept` stay. The next look
/// tries again: files are judged again once they have other bytes, or after an allocation failure. Until then a line about them is written again only
/// after a minute by `clock`, and an admitted setup is put in force at the first look at which there is no obstacle. Returns whether `err` took each
/// line whole.
pub fn serve_and_reload<W: Wire, F: Files, C: Clock, E: Write>(
    alloc: Global,
    server: &mut Server<Engine>,
    sockets: &mut W,
    names: Names<'_>,
    kept: &mut Snapshot,
    files: &mut F,
    clock: &mut C,
    err: &mut E,
    every: u64,
    turns: u64,
) -> bool
    requires { 1 ≤ every }
    ensures serves { ServesTelling C.may (F.holds files.old) (names_of names.entry) every turns
        (between_rounds (server_state world_of W.past server.old sockets.old) kept.old None (E.contents err.old) true)
        (between_rounds (server_state world_of W.past server.new sockets.new) kept.new None (E.contents err.new) result) }
    // `IsServed` is kept: it has all that arrived since the server was new, reloads included, and certified delivery's promises of it.
    ensures served { StaysServed MayAllocate (server_state world_of W.past server.old sockets.old) (server_state world_of W.past server.new sockets.new) }
    ensures files { AreKept (F.holds files.old) (F.holds files.new) }
{
    let mut found = Found::Nothing;
    let mut whole = true;
    let mut left = turns;
    while every < left {
        serve(alloc, server, sockets, every);
        let now = clock.seconds();
        let taken = look(alloc, now, server, names, kept, &mut found, files, err).is_ok();
        whole = taken & whole;
        left -= every;
    }
    serve(alloc, server, sockets, left);
    whole
}
