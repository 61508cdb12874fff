//! Counts the bytes that sockets gave and took, by the index in a socket's name.

ghost use Rattle.std.specs.Prelude.{◌≡◌, ◌%◌, ℕ, List, length, Some, IfSome};
ghost use Rattle.serving.specs.Wire.{Accepted, Got, Took, Totals as Traffic, with_got, with_taken};
ghost use Rattle.serving.specs.Answered.{accept_call};
ghost use Rattle.sockets.specs.Counts.{Counts, CountsRead, CountsWrite, totals_of, totals_in};
ghost use Rattle.sockets.specs.Traffic.{seen};

use serving::{Accept, Read, Write};

/// The number of indices for sockets, more than a server has connections.
pub(crate) const PLACES: u64 = 4096;

/// The bytes that the socket with this name gave and took since it was accepted.
#[derive(Clone, Copy, Drop)]
pub(crate) struct Count {
    pub(crate) name: u64,
    pub(crate) got: u64,
    pub(crate) taken: u64,
}

/// How many bytes a socket gave and took since it was accepted.
#[derive(Clone, Copy, PartialEq, Eq, Debug, Drop)]
pub struct Totals {
    pub got: u64,
    pub taken: u64,
}

/// Returns the index that `name` has: the remainder of a division by 4,096.
pub(crate) fn place_in(name: u64) -> usize
    ensures { result ≡ name % 4096 }
{
    (name % PLACES) as usize
}

/// Returns `count` if it is that of the socket `name`.
fn count_of(count: Option<Count>, name: u64) -> Option<Count>
    ensures same { totals_of name result ≡ totals_of name count }
    ensures name { IfSome result (λ c. c.name ≡ name) }
{
    let own = count?;
    if own.name != name {
        return None;
    }
    Some(own)
}

/// Adds `n` bytes that the socket `name` gave. Returns `None` if `count` is another socket's, or the sum doesn't fit a `u64`.
fn with_more_got(count: Option<Count>, name: u64, n: usize) -> Option<Count>
    ensures totals { (t : Traffic) → totals_of name result ≡ Some t → with_got n (totals_of name count) ≡ Some t }
    ensures name { IfSome result (λ c. c.name ≡ name) }
{
    let count = count_of(count, name)?;
    let got = count.got.checked_add(n as u64)?;
    Some(Count { got, ..count })
}

/// Adds `n` bytes that the socket `name` took. Returns `None` if `count` is another socket's, or the sum doesn't fit a `u64`.
fn with_more_taken(count: Option<Count>, name: u64, n: usize) -> Option<Count>
    ensures totals { (t : Traffic) → totals_of name result ≡ Some t → with_taken n (totals_of name count) ≡ Some t }
    ensures name { IfSome result (λ c. c.name ≡ name) }
{
    let count = count_of(count, name)?;
    let taken = count.taken.checked_add(n as u64)?;
    Some(Count { taken, ..count })
}

/// Begins the counts of a socket that was just accepted.
fn count_new(counts: &mut Vec<Option<Count>>, name: u64)
    ensures { Counts counts.old.items (Accepted name) counts.new.items }
{
    let place = place_in(name);
    if place < counts.len() {
        counts[place] = Some(Count {
            name,
            got: 0,
            taken: 0,
        });
    }
}

/// Counts `n` bytes that `socket` gave.
fn count_got(counts: &mut Vec<Option<Count>>, socket: u64, n: usize)
    ensures { (room : ℕ) (bytes : List ℕ) → length bytes ≡ n → Counts counts.old.items (Got socket room bytes) counts.new.items }
{
    let place = place_in(socket);
    if place < counts.len() {
        counts[place] = with_more_got(counts[place], socket, n);
    }
}

/// Counts `n` bytes that `socket` took.
fn count_taken(counts: &mut Vec<Option<Count>>, socket: u64, n: usize)
    ensures { (offered bytes : List ℕ) → length bytes ≡ n → Counts counts.old.items (Took socket offered bytes) counts.new.items }
{
    let place = place_in(socket);
    if place < counts.len() {
        counts[place] = with_more_taken(counts[place], socket, n);
    }
}

/// Begins the counts of a socket, if one was accepted.
pub(crate) fn count_accept(counts: &mut Vec<Option<Count>>, answer: Accept)
    ensures { Counts counts.old.items (accept_call answer) counts.new.items }
{
    match answer {
        Accept::Socket(name) => count_new(counts, name),
        Accept::Nothing => {}
        Accept::Failed => {}
    }
}

/// Counts the bytes that a read of `socket` got, if any.
pub(crate) fn count_read(counts: &mut Vec<Option<Count>>, socket: u64, answer: Read)
    ensures { CountsRead counts.old.items socket answer counts.new.items }
{
    match answer {
        Read::Got(n) => count_got(counts, socket, n),
        Read::Wait => {}
        Read::End => {}
        Read::Failed => {}
    }
}

/// Counts the bytes that a write to `socket` took, if any.
pub(crate) fn count_write(counts: &mut Vec<Option<Count>>, socket: u64, answer: Write)
    ensures { CountsWrite counts.old.items socket answer counts.new.items }
{
    match answer {
        Write::Took(n) => count_taken(counts, socket, n),
        Write::Wait => {}
        Write::Failed => {}
    }
}

/// Returns the totals of the socket `name`, if its bytes are counted.
pub(crate) fn totals_at(counts: &Vec<Option<Count>>, name: u64) -> Option<Totals>
    ensures { seen result ≡ totals_in counts.now.items name }
{
    let place = place_in(name);
    if place >= counts.len() {
        return None;
    }
    let count = count_of(counts[place], name)?;
    Some(Totals {
        got: count.got,
        taken: count.taken,
    })
}
