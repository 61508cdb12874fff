//! The steps of a scenario, and how they are taken. Start with [`Scenario`].

use crate::crowds::{self, Crowd};
use crate::listening;
use crate::passing::{self, Pass};
use crate::reads::{self, Sight};
use crate::scenes::{Deed, Scene};
use crate::times::{self, Time};
use crate::tries::{self, Try};
use crate::writes::{self, Room};
use scenario_outcomes::Unmet;
use std::alloc::Global;

/// A scenario: steps that are taken in turn, up to the first whose expectation is not met.
#[derive(Clone, Copy, Drop)]
pub(crate) struct Scenario {
    /// What its line says.
    pub(crate) name: &'static str,
    /// Whether a socket that is not welcomed, or was bidden farewell, is ended after [`times::TIME`].
    pub(crate) is_timed: bool,
    /// The first steps.
    pub(crate) opening: &'static [Step],
    /// The steps that follow, `times` times.
    pub(crate) steps: &'static [Step],
    pub(crate) times: u32,
    /// The last steps.
    pub(crate) closing: &'static [Step],
    /// How often all of it is tried until it succeeds: on a busy machine bytes may come late once.
    pub(crate) tries: u32,
}

/// A scenario without steps, of which others say only what differs.
pub(crate) const EMPTY: Scenario = Scenario {
    name: "",
    is_timed: false,
    opening: &[],
    steps: &[],
    times: 1,
    closing: &[],
    tries: 1,
};

/// A step of a scenario. Clients are numbered from 0, as they connect.
#[derive(Clone, Copy, Drop)]
pub(crate) enum Step {
    /// A client connects, and its socket is accepted.
    Meet,
    /// A client connects.
    Connect,
    /// A round begins.
    Round,
    /// The sockets rest.
    Rest,
    /// A client does something.
    Client(usize, Deed),
    /// A client's socket is read.
    Reads(usize, Sight),
    /// A client's socket is written to, or its time begins or ends.
    Writes(usize, Room),
    /// All sockets are read, or all clients write.
    All(Crowd),
    /// Sockets are skipped, in two slots.
    Passes(Pass),
    /// Something that may fail once is tried, and counted.
    Tries(Try),
    /// Something is timed.
    Times(Time),
    /// Sockets listen at other addresses.
    Listens,
}

/// Takes a step.
fn take(scene: &mut Scene, step: Step) -> Result<(), Unmet> {
    match step {
        Step::Meet => scene.meet(),
        Step::Connect => scene.connect(),
        Step::Round => scene.begin_round(),
        Step::Rest => scene.rest(),
        Step::Client(client, deed) => scene.act(client, deed),
        Step::Reads(client, sight) => reads::take(scene, client, sight),
        Step::Writes(client, room) => writes::take(scene, client, room),
        Step::All(crowd) => crowds::take(scene, crowd),
        Step::Passes(pass) => passing::take(scene, pass),
        Step::Tries(once) => tries::take(scene, once),
        Step::Times(time) => times::take(scene, time),
        Step::Listens => listening::listen(scene),
    }
}

/// Takes steps, up to the first whose expectation is not met.
fn take_all(scene: &mut Scene, steps: &[Step]) -> Result<(), Unmet> {
    for step in steps {
        take(scene, *step)?;
    }
    Ok(())
}

/// Takes the steps of a scenario.
fn take_each(scene: &mut Scene, scenario: &Scenario) -> Result<(), Unmet> {
    take_all(scene, scenario.opening)?;
    for _ in 0..scenario.times {
        take_all(scene, scenario.steps)?;
    }
    take_all(scene, scenario.closing)
}

/// Takes the steps of a scenario, over sockets and clients of its own.
fn play_once(rt: &HostRuntime, alloc: Global, scenario: &Scenario) -> Result<(), Unmet> {
    let mut scene = Scene::new(rt, alloc, scenario.is_timed)?;
    take_each(&mut scene, scenario)
}

/// Plays a scenario, again if it failed and may be tried again, and returns how it ended.
pub(crate) fn play(rt: &HostRuntime, alloc: Global, scenario: &Scenario) -> Result<(), Unmet> {
    let mut outcome = play_once(rt, alloc, scenario);
    for _ in 1..scenario.tries {
        if outcome.is_err() {
            outcome = play_once(rt, alloc, scenario);
        }
    }
    outcome
}
