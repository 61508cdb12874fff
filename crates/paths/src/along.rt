//! Searches for a path along what was explored before, so that nothing is routed again. Start with [`find_path_by`].
//!
//! The search promises nothing: what it finds is checked by [`is_path`].

ghost use Rattle.std.specs.Prelude.{◌≤◌, IfOk, length};
ghost use Rattle.paths.specs.Deaths.{AreDeaths};
ghost use Rattle.paths.specs.Found.{FindsPath};

use crate::deaths::Deaths;
use crate::explored::Explored;
use crate::locations::{Location, Spot};
use crate::searching::find_path;
use crate::visits::Visit;
use crate::walking::is_path;
use exchange_graph::Topology;
use model::Text;
use std::alloc::{AllocError, Global};

/// A visit of the search, and its index in what was explored under its key.
#[derive(Clone, Copy, Drop)]
struct Stop {
    visit: Visit,
    place: usize,
}

/// Returns what was explored under the key that queue `fixed` set, or under the key that was sent (`sent`) if no queue has set one.
fn explored_at<'a>(sent: &'a [Visit], deaths: &'a Deaths, fixed: Option<usize>) -> &'a [Visit] {
    match fixed {
        None => sent,
        Some(at) => deaths.visits_of(at),
    }
}

/// Returns the number at index `line`, or 0 if there is none.
fn count_at(met: &[usize], line: usize) -> usize {
    met.get(line).copied().unwrap_or(0)
}

/// Sets the number at index `line`, if there is one.
fn set_count(met: &mut [usize], line: usize, count: usize) {
    if line < met.len() {
        met[line] = count;
    }
}

/// Returns the index behind the last visit of `row` from index `place` on that was reached from the one at index `from`.
fn end_of(row: &[Visit], place: usize, from: usize) -> usize
    ensures { result ≤ length row.now }
{
    for at in place..row.len() {
        if row[at].from != from {
            return at;
        }
    }
    row.len()
}

/// Appends `next` to `stops`, one step after the one at index `from`; `next` has index `place` in what was explored under the key that queue `fixed` set. If
/// `next` is under a key of its own, it is appended only the first time that `met` has nothing of that key. Fails only if an allocation fails.
fn meet(
    fixed: Option<usize>,
    next: Visit,
    place: usize,
    from: usize,
    met: &mut [usize],
    stops: &mut Vec<Stop>,
) -> Result<(), AllocError> {
    let Some(at) = next.location.fixed else {
        let location = Location {
            spot: next.location.spot,
            fixed,
        };
        stops.push(Stop {
            visit: Visit { location, from },
            place,
        })?;
        return Ok(());
    };
    if count_at(met, at) > 0 {
        return Ok(());
    }
    set_count(met, at, 1);
    stops.push(Stop {
        visit: Visit {
            location: next.location,
            from,
        },
        place: 0,
    })?;
    Ok(())
}

/// Appends each place one step after `stop`, which has index `at` among `stops`, that was not visited before. `met` has for each key how many places of its
/// exploration were visited, and at the end this for the key that was sent. Fails only if an allocation fails.
fn go_along(
    sent: &[Visit],
    deaths: &Deaths,
    stop: Stop,
    at: usize,
    met: &mut [usize],
    stops: &mut Vec<Stop>,
) -> Result<(), AllocError> {
    let fixed = stop.visit.location.fixed;
    let row = explored_at(sent, deaths, fixed);
    let line = fixed.unwrap_or(met.len().saturating_sub(1));
    let first = count_at(met, line).max(1);
    let end = end_of(row, first, stop.place);
    for place in first..end {
        meet(fixed, row[place], place, at, met, stops)?;
    }
    set_count(met, line, first.max(end));
    Ok(())
}

/// Returns the index of the first stop in the queue at index `queue`, if the explorations lead there. Fails only if an allocation fails.
fn search_along(
    sent: &[Visit],
    deaths: &Deaths,
    queue: usize,
    met: &mut [usize],
    stops: &mut Vec<Stop>,
) -> Result<Option<usize>, AllocError> {
    for at in 0..usize::MAX {
        if at >= stops.len() {
            return Ok(None);
        }
        let stop = stops[at];
        match stop.visit.location.spot {
            Spot::Queue(place) if place == queue => return Ok(Some(at)),
            _ => go_along(sent, deaths, stop, at, met, stops)?,
        }
    }
    Ok(None)
}

/// Returns the name of an exchange or a queue; that of one that doesn't exist is empty. Fails only if the allocation fails.
fn name_of(topology: &Topology, spot: Spot) -> Result<Text, AllocError> {
    match spot {
        Spot::Default => Ok(Text::empty()),
        Spot::Exchange(place) => match topology.exchanges().get(place) {
            Some(exchange) => exchange.name.clone(),
            None => Ok(Text::empty()),
        },
        Spot::Queue(place) => match topology.queues().get(place) {
            Some(queue) => queue.name.clone(),
            None => Ok(Text::empty()),
        },
    }
}

/// Returns the names on the way from the first of `stops` to the one at index `at`. Fails only if an allocation fails.
fn names_to(
    alloc: Global,
    topology: &Topology,
    stops: &[Stop],
    at: usize,
) -> Result<Vec<Text>, AllocError> {
    let mut names = Vec::new(alloc);
    let mut place = at;
    for _step in 0..stops.len() {
        if let Some(stop) = stops.get(place) {
            names.push(name_of(topology, stop.visit.location.spot)?)?;
            if place == 0 {
                break;
            }
            place = stop.visit.from;
        }
    }
    names.reverse();
    Ok(names)
}

/// Returns names by which what is sent to `exchange` under `key` may reach `queue`, if `deaths` lead there. Fails only if an allocation fails.
fn path_along(
    alloc: Global,
    topology: &Topology,
    deaths: &Deaths,
    exchange: &[u8],
    key: &[u8],
    queue: &[u8],
) -> Result<Option<Vec<Text>>, AllocError> {
    let Some(queue) = topology.queue_at(queue) else {
        return Ok(None);
    };
    let explored = Explored::of(alloc, topology, exchange, key)?;
    let sent = explored.visits();
    let Some(first) = sent.first() else {
        return Ok(None);
    };
    let mut met = vec![in alloc; 0usize; topology.queues().len() + 1]?;
    let mut stops = Vec::new(alloc);
    stops.push(Stop {
        visit: *first,
        place: 0,
    })?;
    match search_along(sent, deaths, queue, met.as_mut_slice(), &mut stops)? {
        Some(at) => Ok(Some(names_to(alloc, topology, stops.as_slice(), at)?)),
        None => Ok(None),
    }
}

/// Returns a path, or `None` if there is none, as [`find_path`] does, but perhaps another one. Reads from `deaths` how a message goes on under a key that a
/// queue set, and routes it under no such key again but to check the path. Only if that leads to no path, `find_path` searches for one. Fails only if an
/// allocation fails.
pub fn find_path_by(
    alloc: Global,
    topology: &Topology,
    deaths: &Deaths,
    exchange: &[u8],
    key: &[u8],
    queue: &[u8],
) -> Result<Option<Vec<Text>>, AllocError>
    requires { AreDeaths topology.now deaths.now }
    ensures { IfOk result (λ found. FindsPath topology.now exchange.now key.now queue.now found) }
{
    if let Some(path) = path_along(alloc, topology, deaths, exchange, key, queue)? {
        let key = Text::from_slice(alloc, key)?;
        if is_path(topology, alloc, exchange, &key, queue, path.as_slice())? {
            return Ok(Some(path));
        }
    }
    find_path(alloc, topology, exchange, key, queue)
}
