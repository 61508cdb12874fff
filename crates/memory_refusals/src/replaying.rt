//! Replays a script, and retries each call that fails for memory. Start with [`Replay`].

use crate::asking::{Setting, set_up};
use crate::counts::{Counts, count};
use crate::noting::{hex_word, note_line};
use crate::put_out::Outputs;
use crate::sections::{Section, text_of};
use engine::{Engine, Refused, Turn};
use model::{Arrival, Note};
use notes::Notes;
use runs::ReloadFault;
use scripts::{ReloadFiles, put_line};
use std::alloc::{AllocError, Global};
use std::io;

/// The number of commands that one event brings at most.
const MOST_COMMANDS: u64 = 1 << 32;

/// Makes a call of `$replay`'s engine, and makes it again if it fails, since an allocation failed. Counts that in `$counts.$sum`, and whether an
/// output differs after it.
macro_rules! again {
    ($replay:expr, $call:expr, $counts:ident.$sum:ident) => {
        match $call {
            Err(_) => {
                count(&mut $counts.$sum);
                $replay.compare($counts);
                $call
            }
            outcome => outcome,
        }
    };
}

/// An engine, with what it has sent and noted.
#[derive(Drop)]
pub struct Replay {
    engine: Engine,
    /// The outputs before the last call.
    outputs: Outputs,
    /// What was taken of each connection's output.
    taken: Vec<Vec<u8>>,
    notes: Vec<Note>,
}

/// Returns the number of the opened connection, or `None` if no further one can be opened. Fails only if an allocation failed.
fn number_of(opened: Result<u64, Refused>) -> Result<Option<u64>, AllocError> {
    match opened {
        Ok(number) => Ok(Some(number)),
        Err(Refused::Memory) => Err(AllocError),
        Err(_) => Ok(None),
    }
}

/// Returns the notes of the command that `turn` performed, if it performed one.
fn notes_of(turn: Turn) -> Option<Notes> {
    match turn {
        Turn::Did(notes) => Some(notes),
        _ => None,
    }
}

/// Returns those of `files` that `names` name.
fn setting_of<'a>(names: &ReloadFiles, files: &[Section<'a>]) -> io::Result<Setting<'a>> {
    Ok(Setting {
        definitions: text_of(files, names.definitions())?,
        guarantees: text_of(files, names.guarantees())?,
        certificates: text_of(files, names.certificates())?,
    })
}

impl Replay {
    /// Starts a replay on `engine`, on which no connection was opened. Never allocates.
    pub fn new(alloc: Global, engine: Engine) -> Replay {
        Replay {
            engine,
            outputs: Outputs::new(alloc),
            taken: Vec::new(alloc),
            notes: Vec::new(alloc),
        }
    }

    /// Copies the outputs before a call.
    fn look(&mut self) -> Result<(), AllocError> {
        self.outputs.look(&self.engine, self.taken.len() as u64)
    }

    /// Counts if the outputs differ after a failed call.
    fn compare(&self, counts: &mut Counts) {
        if !self.outputs.are_unchanged(&self.engine) {
            count(&mut counts.differing);
        }
    }

    /// Records that a connection was opened, if one was.
    fn add(&mut self, alloc: Global, number: Option<u64>) -> Result<(), AllocError> {
        if number.is_some() {
            self.taken.push(Vec::new(alloc))?;
        }
        Ok(())
    }

    /// Opens a connection from which no byte has come.
    fn open(&mut self, alloc: Global, counts: &mut Counts) -> Result<(), AllocError> {
        self.look()?;
        let number = again!(self, number_of(self.engine.open(alloc)), counts.opens)?;
        self.add(alloc, number)
    }

    /// Opens a connection that is running with channels 1 to `k`.
    fn open_ready(&mut self, alloc: Global, k: u8, counts: &mut Counts) -> Result<(), AllocError> {
        self.look()?;
        let number = again!(
            self,
            number_of(self.engine.open_ready(alloc, k)),
            counts.opens
        )?;
        self.add(alloc, number)
    }

    /// Feeds `bytes` to connection `c`.
    fn feed(&mut self, c: u64, bytes: &[u8], counts: &mut Counts) -> Result<(), AllocError> {
        self.look()?;
        again!(self, self.engine.feed(c, bytes), counts.feeds)
    }

    /// Performs the next command of connection `c`.
    fn turn(&mut self, alloc: Global, c: u64, counts: &mut Counts) -> Result<Turn, AllocError> {
        self.look()?;
        again!(self, self.engine.turn(alloc, c), counts.turns)
    }

    /// Writes down the notes of a command or a delivery.
    fn note(&mut self, notes: Notes) -> Result<(), AllocError> {
        let mut kept = notes.into_vec().ok_or(AllocError)?;
        self.notes.append(&mut kept)
    }

    /// Makes a delivery, if one can be made.
    fn pump(&mut self, alloc: Global, counts: &mut Counts) -> Result<(), AllocError> {
        self.look()?;
        match again!(self, self.engine.pump(alloc), counts.pumps)? {
            Some(delivered) => self.note(delivered.notes),
            None => Ok(()),
        }
    }

    /// Loads what the files of `setting` state, and notes whether it is in force.
    fn reload(
        &mut self,
        alloc: Global,
        setting: Setting<'_>,
        counts: &mut Counts,
    ) -> io::Result<()> {
        self.look()?;
        let (checked, users) = set_up(alloc, setting, counts)?;
        let outcome = match self.engine.reload(alloc, checked, users) {
            Err(ReloadFault::Memory) => {
                count(&mut counts.reloads);
                self.compare(counts);
                let (checked, users) = set_up(alloc, setting, counts)?;
                self.engine.reload(alloc, checked, users)
            }
            outcome => outcome,
        };
        let note = match outcome {
            Ok(()) => Note::Reloaded,
            Err(fault) => match fault.obstacle() {
                Some(obstacle) => Note::ReloadRefused(obstacle),
                None => return Err(io::Error::from(AllocError)),
            },
        };
        Ok(self.notes.push(note)?)
    }

    /// Performs commands of connection `c` until it is idle, paused or over.
    fn work(&mut self, alloc: Global, c: u64, counts: &mut Counts) -> Result<(), AllocError> {
        for _ in 0..MOST_COMMANDS {
            match notes_of(self.turn(alloc, c, counts)?) {
                Some(notes) => self.note(notes)?,
                None => return Ok(()),
            }
        }
        Ok(())
    }

    /// Records the first `most` bytes of connection `c`'s output as taken.
    fn gather(&mut self, c: u64, most: u64) -> Result<(), AllocError> {
        let output = self.engine.output(c);
        let front = if most < output.len() as u64 {
            &output[..most as usize]
        } else {
            output
        };
        match self.taken.get_mut(c.saturating_sub(1) as usize) {
            Some(taken) => taken.extend_from_slice(front),
            None => Ok(()),
        }
    }

    /// Performs an event and everything that it brings. A reload names some of `files`.
    pub fn arrive(
        &mut self,
        alloc: Global,
        arrival: &scripts::Arrival,
        files: &[Section<'_>],
        counts: &mut Counts,
    ) -> io::Result<()> {
        match arrival {
            Arrival::Open => self.open(alloc, counts)?,
            Arrival::Ready(k) => self.open_ready(alloc, *k, counts)?,
            Arrival::In(c, bytes) => {
                self.feed(*c, bytes.as_bytes(), counts)?;
                self.work(alloc, *c, counts)?;
            }
            Arrival::Sent(c, n) => {
                self.gather(*c, *n)?;
                self.engine.sent(*c, *n);
                self.work(alloc, *c, counts)?;
            }
            Arrival::Pump => self.pump(alloc, counts)?,
            Arrival::Lose(c) => {
                self.gather(*c, u64::MAX)?;
                self.engine.lose(*c);
            }
            Arrival::Reload(names) => {
                let setting = setting_of(names, files)?;
                self.reload(alloc, setting, counts)?;
            }
        }
        Ok(())
    }

    /// Returns the transcript, as `replay` prints it.
    pub fn text(mut self, alloc: Global) -> Result<Vec<u8>, AllocError> {
        let mut text = Vec::new(alloc);
        for place in 0..self.taken.len() as u64 {
            let c = place.saturating_add(1);
            self.gather(c, u64::MAX)?;
            self.put_connection(alloc, c, &mut text)?;
        }
        for note in &self.notes {
            put_line(&mut text, note_line(alloc, note)?)?;
        }
        Ok(text)
    }

    /// Appends the lines of connection `c`.
    fn put_connection(&self, alloc: Global, c: u64, text: &mut Vec<u8>) -> Result<(), AllocError> {
        let taken: &[u8] = match self.taken.get(c.saturating_sub(1) as usize) {
            Some(taken) => taken.as_slice(),
            None => &[],
        };
        let bytes = hex_word(alloc, taken)?;
        put_line(text, format!(in alloc; "out {c} {bytes}\n")?)?;
        if self.engine.is_over(c) {
            put_line(text, format!(in alloc; "over {c}\n")?)?;
        }
        Ok(())
    }
}
