//! Consumer tags that the server makes.

ghost use Rattle.std.specs.Prelude.{◌≡◌};
ghost use Rattle.channels.specs.Names.{server_name, FindsName};

use crate::counted_consumers::CountedConsumers;
use arrayvec::ArrayString;
use itoa::Buffer;

/// The most bytes of a tag: the text before the number, and the most bytes that a number is formatted in.
const ROOM: usize = 49;

/// A consumer tag that the server made, with its number.
#[derive(Drop)]
pub(crate) struct Name {
    pub(crate) number: u64,
    pub(crate) tag: ArrayString<ROOM>,
}

/// Returns the tag with this number.
fn name_of(number: u64) -> ArrayString<ROOM>
    ensures { result.bytes ≡ server_name number }
{
    let mut digits = Buffer::new();
    let mut name = ArrayString::new();
    name.push_str("amq.ctag-");
    name.push_str(digits.format(number));
    name
}

/// Returns the first tag with a number at or after `from` that no consumer has, or `None` if there is none. Never allocates.
pub(crate) fn next_name(consumers: &CountedConsumers, from: u64) -> Option<Name>
    ensures { FindsName consumers.now.consumers from result }
{
    for number in from..u64::MAX {
        let tag = name_of(number);
        if !consumers.has(tag.as_bytes()) {
            return Some(Name { number, tag });
        }
    }
    None
}
