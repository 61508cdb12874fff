//! Runs arrivals on a machine, one after another, and records what is seen. Start with [`run_over`].

ghost use Rattle.std.specs.Prelude.{◌≡◌, IfOk, OnOk, length, map, take};
ghost use Rattle.model.specs.Arrivals.{new_world, is_gone, with_setup};
ghost use Rattle.model.specs.declared.events.Arrival.TheVariants as arrival;
ghost use Rattle.runs.specs.Runs.{WorksAndRecords, AnswersAndRecords, PlaysAndRecords, IsRunOf};

use crate::machine::Machine;
use crate::transcript::Transcript;
use model::{Arrival, Note};
use std::alloc::{AllocError, Global};

/// Runs `arrivals` in order on a machine without connections, each with all commands that it completes. Fails only if an allocation
/// fails, or if the machine keeps no notes.
pub fn run_over<M: Machine>(
    alloc: Global,
    machine: &mut M,
    arrivals: &[Arrival<M::Setup>],
) -> Result<Transcript, AllocError>
    requires { M.world machine.old ≡ new_world (M.world machine.old).config }
    ensures { IfOk result (λ t. IsRunOf (M.world machine.old).config (map (with_setup M.config) arrivals.now) (M.world machine.new) t) }
{
    machine.ghost_is_sound();
    let mut transcript = Transcript::new(alloc);
    play(alloc, machine, arrivals, &mut transcript)?;
    transcript.finish(machine)?;
    Ok(transcript)
}

fn play<M: Machine>(
    alloc: Global,
    machine: &mut M,
    arrivals: &[Arrival<M::Setup>],
    transcript: &mut Transcript,
) -> Result<(), AllocError>
    ensures { OnOk result (PlaysAndRecords (M.world machine.old) (map (with_setup M.config) arrivals.now) transcript.old (M.world machine.new) transcript.new) }
{
    for arrival in arrivals {
        arrive(alloc, machine, arrival, transcript)?;
    }
    Ok(())
}

/// Performs one arrival, with all commands that it completes, and records what was seen.
fn arrive<M: Machine>(
    alloc: Global,
    machine: &mut M,
    arrival: &Arrival<M::Setup>,
    transcript: &mut Transcript,
) -> Result<(), AllocError>
    ensures { OnOk result (AnswersAndRecords (M.world machine.old) (with_setup M.config arrival.now) transcript.old (M.world machine.new) transcript.new) }
{
    match arrival {
        Arrival::Open => open(alloc, machine, transcript),
        Arrival::Ready(k) => open_ready(alloc, machine, *k, transcript),
        Arrival::In(c, bytes) => hear(alloc, machine, *c, bytes.as_bytes(), transcript),
        Arrival::Sent(c, n) => take(alloc, machine, *c, *n, transcript),
        Arrival::Pump => pump(alloc, machine, transcript),
        Arrival::Lose(c) => lose(machine, *c, transcript),
        Arrival::Reload(setup) => reload(alloc, machine, M::copied(alloc, setup)?, transcript),
    }
}

/// Opens a connection that has sent no byte yet, if one can be opened.
fn open<M: Machine>(
    alloc: Global,
    machine: &mut M,
    transcript: &mut Transcript,
) -> Result<(), AllocError>
    ensures { OnOk result (AnswersAndRecords (M.world machine.old) arrival.Open transcript.old (M.world machine.new) transcript.new) }
{
    match machine.open(alloc)? {
        Some(_) => transcript.add_connection(alloc),
        None => Ok(()),
    }
}

/// Opens a connection that is running at once, if one can be opened.
fn open_ready<M: Machine>(
    alloc: Global,
    machine: &mut M,
    k: u8,
    transcript: &mut Transcript,
) -> Result<(), AllocError>
    ensures { OnOk result (AnswersAndRecords (M.world machine.old) (arrival.Ready k) transcript.old (M.world machine.new) transcript.new) }
{
    match machine.open_ready(alloc, k)? {
        Some(_) => transcript.add_connection(alloc),
        None => Ok(()),
    }
}

/// Feeds `bytes` to connection `c` and performs every command that is complete, unless the connection is over.
fn hear<M: Machine>(
    alloc: Global,
    machine: &mut M,
    c: u64,
    bytes: &[u8],
    transcript: &mut Transcript,
) -> Result<(), AllocError>
    ensures { OnOk result (AnswersAndRecords (M.world machine.old) (arrival.In c bytes.now) transcript.old (M.world machine.new) transcript.new) }
{
    if machine.is_over(c) {
        return Ok(());
    }
    machine.feed(alloc, c, bytes)?;
    work(alloc, machine, c, transcript)
}

/// Takes `n` bytes of output of connection `c` and performs the commands that waited for that, unless the connection is gone.
fn take<M: Machine>(
    alloc: Global,
    machine: &mut M,
    c: u64,
    n: u64,
    transcript: &mut Transcript,
) -> Result<(), AllocError>
    ensures { OnOk result (AnswersAndRecords (M.world machine.old) (arrival.Sent c n) transcript.old (M.world machine.new) transcript.new) }
{
    if is_gone(machine, c) {
        return Ok(());
    }
    transcript.gather(c, front(machine.output(c), n))?;
    machine.sent(c, n);
    work(alloc, machine, c, transcript)
}

/// Makes one delivery, if one can be made.
fn pump<M: Machine>(
    alloc: Global,
    machine: &mut M,
    transcript: &mut Transcript,
) -> Result<(), AllocError>
    ensures { OnOk result (AnswersAndRecords (M.world machine.old) arrival.Pump transcript.old (M.world machine.new) transcript.new) }
{
    match machine.pump(alloc)? {
        Some(delivered) => transcript.note(delivered.notes),
        None => Ok(()),
    }
}

/// Drops connection `c`, unless it is gone. Its remaining output, which is never taken, is recorded before.
fn lose<M: Machine>(machine: &mut M, c: u64, transcript: &mut Transcript) -> Result<(), AllocError>
    ensures { OnOk result (AnswersAndRecords (M.world machine.old) (arrival.Lose c) transcript.old (M.world machine.new) transcript.new) }
{
    if is_gone(machine, c) {
        return Ok(());
    }
    transcript.gather(c, machine.output(c))?;
    machine.lose(c);
    Ok(())
}

/// Puts `setup` in force, or notes the first obstacle to it.
fn reload<M: Machine>(
    alloc: Global,
    machine: &mut M,
    setup: M::Setup,
    transcript: &mut Transcript,
) -> Result<(), AllocError>
    ensures { OnOk result (AnswersAndRecords (M.world machine.old) (arrival.Reload (M.config setup)) transcript.old (M.world machine.new) transcript.new) }
{
    M::ghost_offers_sound(&setup);
    match machine.reload(alloc, setup) {
        Ok(()) => transcript.note_one(Note::Reloaded),
        Err(fault) => match fault.obstacle() {
            Some(obstacle) => transcript.note_one(Note::ReloadRefused(obstacle)),
            None => Err(AllocError),
        },
    }
}

/// Performs turns of connection `c`, and records their notes, until it is idle, paused or over.
fn work<M: Machine>(
    alloc: Global,
    machine: &mut M,
    c: u64,
    transcript: &mut Transcript,
) -> Result<(), AllocError>
    ensures { OnOk result (WorksAndRecords (M.world machine.old) c transcript.old (M.world machine.new) transcript.new) }
{
    while let Some(notes) = machine.turn(alloc, c)? {
        transcript.note(notes)?;
    }
    Ok(())
}

/// Returns whether the connection is over and its output is empty.
fn is_gone<M: Machine>(machine: &M, c: u64) -> bool
    ensures { result ≡ is_gone (M.world machine.now) c }
{
    machine.is_over(c) && machine.output(c).is_empty()
}

/// Returns the first `n` bytes, or all if there are fewer.
fn front(bytes: &[u8], n: u64) -> &[u8]
    ensures { result.now ≡ take n bytes.now }
{
    if n < bytes.len() as u64 {
        &bytes[..n as usize]
    } else {
        bytes
    }
}
