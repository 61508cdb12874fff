//! Finds the queues with a key of their own whose dead letters reach one queue.

ghost use Rattle.std.specs.Prelude.{◌≡◌, ◌<◌, ◌+◌, Decides, IfOk, None, OnOk, length};
ghost use Rattle.model.specs.Words.{Text};
ghost use Rattle.model.specs.Topology.{IsIn, Topology as Seen};
ghost use Rattle.model.specs.Routing.{Comes, of_key};
ghost use Rattle.paths.specs.Locations.{IsLocationThere};
ghost use Rattle.paths.specs.Onward.{Refixes};
ghost use Rattle.paths.specs.Exploring.{AreExplored, IsExploration};
ghost use Rattle.paths.specs.Deaths.{AreDeaths};
ghost use Rattle.paths.specs.Leading.{AddsFront, AddsLink, AreLeading, AreLinked, IsSource, Leads, LinksAll, SomeLeads};

use crate::deaths::Deaths;
use crate::explored::Explored;
use crate::locations::{Location, is_queue};
use crate::reach::{Hop, reached};
use crate::visits::Visit;
use exchange_graph::Topology;
use std::alloc::{AllocError, Global};
use std::marker::Model;

/// What leads to one queue: for each queue with a dead-letter exchange and a key of its own, whether its dead letters ever reach that
/// queue.
#[derive(Drop)]
pub struct Leading {
    marks: Vec<bool>,
}

impl Model for Leading {
    ghost use Rattle.std.specs.Prelude.{List, Bool};

    ghost Value = { List Bool };

    ghost view = { λ l. l.marks.items };
}

/// Returns the index of the queue that set the key of `location`. If none did, returns the number of all queues for a location in `queue`, otherwise
/// `None`.
fn source_of(topology: &Topology, queue: &[u8], location: Location) -> Option<usize>
    requires { IsLocationThere topology.now location }
    ensures { IsSource topology.now queue.now location result }
{
    if location.fixed.is_some() {
        return location.fixed;
    }
    if is_queue(topology, location.spot, queue) {
        return Some(topology.queues().len());
    }
    None
}

/// Adds the link from the source of `location`, if it has one, to index `to`.
fn link(
    links: &mut Vec<Hop>,
    topology: &Topology,
    queue: &[u8],
    location: Location,
    to: usize,
) -> Result<(), AllocError>
    requires { IsLocationThere topology.now location }
    ensures { OnOk result (AddsLink topology.now queue.now location to links.old.items links.new.items) }
{
    if let Some(from) = source_of(topology, queue, location) {
        links.push(Hop { from, to })?;
    }
    Ok(())
}

/// Adds the links from the sources of `visits` to index `to`.
fn link_all(
    links: &mut Vec<Hop>,
    topology: &Topology,
    queue: &[u8],
    visits: &[Visit],
    to: usize,
) -> Result<(), AllocError>
    requires { (v : Visit) → IsIn v visits.now → IsLocationThere topology.now v.location }
    ensures { OnOk result (LinksAll topology.now queue.now visits.now to links.old.items links.new.items) }
{
    for visit in visits {
        link(links, topology, queue, visit.location, to)?;
    }
    Ok(())
}

/// Adds the links to the queue at index `at`, if it has a dead-letter exchange and a key of its own.
fn link_queue(
    links: &mut Vec<Hop>,
    topology: &Topology,
    deaths: &Deaths,
    queue: &[u8],
    at: usize,
) -> Result<(), AllocError>
    requires at { at < length topology.now.queues }
    requires deaths { AreDeaths topology.now deaths.now }
    ensures { OnOk result (AddsFront topology.now queue.now at links.old.items links.new.items) }
{
    match deaths.front(at) {
        None => Ok(()),
        Some(explored) => link_all(links, topology, queue, explored.visits(), at),
    }
}

/// Returns the links between queues with a dead-letter key of their own. A link from one queue to another says that dead letters of the second
/// reach the first, die there and get its key. The index of `queue` itself is the number of all queues here.
fn all_links(
    alloc: Global,
    topology: &Topology,
    deaths: &Deaths,
    queue: &[u8],
) -> Result<Vec<Hop>, AllocError>
    requires { AreDeaths topology.now deaths.now }
    ensures { IfOk result (λ links. AreLinked topology.now queue.now links.items (length topology.now.queues)) }
{
    let mut links = Vec::new(alloc);
    for at in 0..topology.queues().len() {
        link_queue(&mut links, topology, deaths, queue, at)?;
    }
    Ok(links)
}

/// Returns whether the source of `location` is marked.
fn leads(topology: &Topology, queue: &[u8], location: Location, marks: &[bool]) -> bool
    requires there { IsLocationThere topology.now location }
    requires size { length marks.now ≡ length topology.now.queues + 1 }
    ensures { Decides result (Leads topology.now queue.now location marks.now) }
{
    match source_of(topology, queue, location) {
        Some(from) => marks[from],
        None => false,
    }
}

/// Returns whether the source of one of `visits` is marked.
fn some_leads(topology: &Topology, queue: &[u8], visits: &[Visit], marks: &[bool]) -> bool
    requires there { (v : Visit) → IsIn v visits.now → IsLocationThere topology.now v.location }
    requires size { length marks.now ≡ length topology.now.queues + 1 }
    ensures { Decides result (SomeLeads topology.now queue.now visits.now marks.now) }
{
    for visit in visits {
        if leads(topology, queue, visit.location, marks) {
            return true;
        }
    }
    false
}

impl Leading {
    /// Finds what leads to `queue`. Each key that a queue sets is explored once. Fails only if an allocation fails.
    pub fn to(alloc: Global, topology: &Topology, queue: &[u8]) -> Result<Leading, AllocError>
        ensures { IfOk result (AreLeading topology.now queue.now) }
    {
        let deaths = Deaths::of(alloc, topology)?;
        Leading::by(alloc, topology, &deaths, queue)
    }

    /// Finds what leads to `queue`, using `deaths`, which has what dead letters reach. Fails only if an allocation fails.
    pub fn by(
        alloc: Global,
        topology: &Topology,
        deaths: &Deaths,
        queue: &[u8],
    ) -> Result<Leading, AllocError>
        requires { AreDeaths topology.now deaths.now }
        ensures { IfOk result (AreLeading topology.now queue.now) }
    {
        let count = topology.queues().len();
        let links = all_links(alloc, topology, deaths, queue)?;
        let marks = reached(alloc, links.as_slice(), count + 1, count)?;
        Ok(Leading { marks })
    }

    /// Returns whether dead letters of the queue at `index`, which has a key of its own, ever reach the queue for which `self` was found.
    pub fn has(&self, index: usize) -> bool
        ensures { (t : Seen) (q x k : Text) → AreLeading t q self.now → Refixes t index x k → Decides result (Comes t (of_key k) None x q) }
    {
        match self.marks.get(index) {
            Some(mark) => *mark,
            None => false,
        }
    }

    /// Returns whether the message whose way was explored ever reaches `queue`, the queue for which `self` was found.
    pub fn leads(&self, topology: &Topology, explored: &Explored, queue: &[u8]) -> bool
        requires leading { AreLeading topology.now queue.now self.now }
        requires explored { IsExploration topology.now explored.now }
        ensures { (x key : Text) → AreExplored topology.now x key explored.now → Decides result (Comes topology.now (of_key key) None x queue.now) }
    {
        some_leads(topology, queue, explored.visits(), self.marks.as_slice())
    }

    /// Returns whether what is sent to `exchange` under `key` ever reaches `queue`, the queue for which `self` was found. Fails only if an allocation fails.
    pub fn comes(
        &self,
        alloc: Global,
        topology: &Topology,
        exchange: &[u8],
        key: &[u8],
        queue: &[u8],
    ) -> Result<bool, AllocError>
        requires { AreLeading topology.now queue.now self.now }
        ensures { IfOk result (λ yes. Decides yes (Comes topology.now (of_key key.now) None exchange.now queue.now)) }
    {
        let explored = Explored::of(alloc, topology, exchange, key)?;
        Ok(self.leads(topology, &explored, queue))
    }
}
