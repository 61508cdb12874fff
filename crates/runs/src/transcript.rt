//! The record of a run.

ghost use Rattle.std.specs.Prelude.{◌≡◌, ◌++◌, ◌∷◌, [], false, OnOk, OnErr, unwrap_or, option_copied};
ghost use Rattle.runs.specs.Recorded.{never_given, shown_of, gathered, with_opened, AreFinished};

use crate::machine::Machine;
use model::Note;
use notes::Notes;
use std::alloc::{AllocError, Global};
use std::marker::Model;

/// All bytes that were put out for one connection, including those taken, and whether it is over or lost.
#[derive(Drop)]
pub struct Shown {
    bytes: Vec<u8>,
    is_over: bool,
}

impl Model for Shown {
    ghost use Rattle.model.specs.Arrivals.{Shown as OfConnection};

    ghost Value = { OfConnection };

    ghost view = { λ s. record { output = s.bytes.items; is_over = s.is_over } };
}

impl Shown {
    fn new(alloc: Global) -> Shown
        ensures { result ≡ record { output = []; is_over = false } }
    {
        Shown {
            bytes: Vec::new(alloc),
            is_over: false,
        }
    }

    /// Returns all bytes that were put out for the connection.
    pub fn output(&self) -> &[u8]
        ensures { result.now ≡ self.now.output }
    {
        &self.bytes
    }

    /// Returns whether the connection is over or lost.
    pub fn is_over(&self) -> bool
        ensures { result ≡ self.now.is_over }
    {
        self.is_over
    }

    fn add(&mut self, more: &[u8]) -> Result<(), AllocError>
        ensures ok { OnOk result (self.new ≡ record self.old { output = self.old.output ++ more.now }) }
        ensures err { OnErr result (self.new ≡ self.old) }
    {
        self.bytes.extend_from_slice(more)
    }

    /// Appends the rest of the output, and sets whether the connection is over.
    fn finish(&mut self, rest: &[u8], is_over: bool) -> Result<(), AllocError>
        ensures ok { OnOk result (self.new ≡ record { output = self.old.output ++ rest.now; is_over = is_over }) }
        ensures err { OnErr result (self.new ≡ self.old) }
    {
        self.bytes.extend_from_slice(rest)?;
        self.is_over = is_over;
        Ok(())
    }
}

/// All bytes that were put out for each connection, and whether it is over or lost; and all notes in order.
pub struct Transcript {
    connections: Vec<Shown>,
    notes: Vec<Note>,
}

/// Not derived: a derived drop is expanded, and proved again, in each function that drops the value.
impl Drop for Transcript {
    fn drop(self) {
        let Transcript {
            connections: _,
            notes: _,
        } = self;
    }
}

impl Model for Transcript {
    ghost use Rattle.model.specs.Arrivals.{Seen};

    ghost Value = { Seen };

    ghost view = { λ t. record { connections = t.connections.items; notes = t.notes.items } };
}

impl Transcript {
    /// Returns an empty transcript. Never allocates.
    pub(crate) fn new(alloc: Global) -> Transcript
        ensures { result ≡ record { connections = []; notes = [] } }
    {
        Transcript {
            connections: Vec::new(alloc),
            notes: Vec::new(alloc),
        }
    }

    /// Returns the connections that were opened, in the order of their numbers, which count from 1.
    pub fn connections(&self) -> &[Shown]
        ensures { result.now ≡ self.now.connections }
    {
        self.connections.as_slice()
    }

    /// Returns all bytes that were put out for a connection; none for a number that was never given.
    pub fn output(&self, connection: u64) -> &[u8]
        ensures { result.now ≡ (shown_of self.now.connections connection).output }
    {
        output_of(&self.connections, connection)
    }

    /// Returns whether a connection is over or lost, or was never opened.
    pub fn is_over(&self, connection: u64) -> bool
        ensures { result ≡ (shown_of self.now.connections connection).is_over }
    {
        is_over_of(&self.connections, connection)
    }

    /// Returns all notes, in the order in which they were made.
    pub fn notes(&self) -> &[Note]
        ensures { result.now ≡ self.now.notes }
    {
        &self.notes
    }

    /// Records that a connection was opened.
    pub(crate) fn add_connection(&mut self, alloc: Global) -> Result<(), AllocError>
        ensures ok { OnOk result (self.new ≡ record self.old { connections = with_opened self.old.connections }) }
        ensures err { OnErr result (self.new ≡ self.old) }
    {
        self.connections.reserve(1)?;
        self.connections.push_reserved(Shown::new(alloc));
        Ok(())
    }

    /// Records that `bytes` were put out for a connection.
    pub(crate) fn gather(&mut self, connection: u64, bytes: &[u8]) -> Result<(), AllocError>
        ensures ok { OnOk result (self.new ≡ record self.old { connections = gathered self.old.connections connection bytes.now }) }
        ensures err { OnErr result (self.new ≡ self.old) }
    {
        add_to(&mut self.connections, connection, bytes)
    }

    /// Appends `notes`. Fails only if an allocation fails, or if nobody kept the notes; nothing has changed then.
    pub(crate) fn note(&mut self, notes: Notes) -> Result<(), AllocError>
        ensures ok { OnOk result (self.new ≡ record self.old { notes = self.old.notes ++ notes.items }) }
        ensures err { OnErr result (self.new ≡ self.old) }
    {
        let mut kept = notes.into_vec().ok_or(AllocError)?;
        self.notes.append(&mut kept)
    }

    /// Appends one note.
    pub(crate) fn note_one(&mut self, note: Note) -> Result<(), AllocError>
        ensures ok { OnOk result (self.new ≡ record self.old { notes = self.old.notes ++ note ∷ [] }) }
        ensures err { OnErr result (self.new ≡ self.old) }
    {
        self.notes.reserve(1)?;
        self.notes.push_reserved(note);
        Ok(())
    }

    /// Records what is left in a machine's outputs, and which connections are over.
    pub(crate) fn finish<M: Machine>(&mut self, machine: &M) -> Result<(), AllocError>
        ensures connections { OnOk result (AreFinished (M.world machine.now) self.old.connections self.new.connections) }
        ensures notes { self.new.notes ≡ self.old.notes }
    {
        finish_all(machine, &mut self.connections)
    }
}

fn find(connections: &[Shown], connection: u64) -> Option<&Shown>
    ensures { unwrap_or (option_copied result) never_given ≡ shown_of connections.now connection }
{
    if connection == 0 {
        return None;
    }
    connections.get((connection - 1) as usize)
}

fn output_of(connections: &[Shown], connection: u64) -> &[u8]
    ensures { result.now ≡ (shown_of connections.now connection).output }
{
    match find(connections, connection) {
        Some(one) => one.output(),
        None => &[],
    }
}

fn is_over_of(connections: &[Shown], connection: u64) -> bool
    ensures { result ≡ (shown_of connections.now connection).is_over }
{
    match find(connections, connection) {
        Some(one) => one.is_over(),
        None => true,
    }
}

fn add_to(connections: &mut [Shown], connection: u64, bytes: &[u8]) -> Result<(), AllocError>
    ensures ok { OnOk result (connections.new ≡ gathered connections.old connection bytes.now) }
    ensures err { OnErr result (connections.new ≡ connections.old) }
{
    if connection == 0 {
        return Ok(());
    }
    let place = (connection - 1) as usize;
    if place >= connections.len() {
        return Ok(());
    }
    connections[place].add(bytes)
}

fn finish_all<M: Machine>(machine: &M, connections: &mut [Shown]) -> Result<(), AllocError>
    ensures { OnOk result (AreFinished (M.world machine.now) connections.old connections.new) }
{
    for (i, one) in connections.iter_mut().enumerate() {
        let c = i as u64 + 1;
        one.finish(machine.output(c), machine.is_over(c))?;
    }
    Ok(())
}
