//! Guarantees as a file states them, before they are checked.

ghost use Rattle.std.specs.Prelude.{◌≡◌, All, Decides};
ghost use Rattle.topic_match.specs.Patterns.{IsPattern};
ghost use Rattle.guarantees.specs.Causes.{ArePatterns};

use model::{Mode, Text};
use std::marker::Model;
use topic_match::is_pattern;

/// A guarantee whose texts need not be patterns.
#[derive(Drop)]
pub struct StatedGuarantee {
    mode: Mode,
    exchange: Text,
    pattern: Text,
    queue: Text,
    excepts: Vec<Text>,
}

impl Model for StatedGuarantee {
    ghost use Rattle.model.specs.Guarantee.{Guarantee as Wanted};

    ghost Value = { Wanted };

    ghost view = { λ g. record { mode = g.mode; exchange = g.exchange; pattern = g.pattern; queue = g.queue; excepts = g.excepts.items } };
}

impl StatedGuarantee {
    pub fn new(
        mode: Mode,
        exchange: Text,
        pattern: Text,
        queue: Text,
        excepts: Vec<Text>,
    ) -> StatedGuarantee
        ensures { result ≡ record { mode = mode; exchange = exchange; pattern = pattern; queue = queue; excepts = excepts.items } }
    {
        StatedGuarantee {
            mode,
            exchange,
            pattern,
            queue,
            excepts,
        }
    }

    /// Returns whether the queue must be reached, or must never be.
    pub fn mode(&self) -> Mode
        ensures { result ≡ self.now.mode }
    {
        self.mode
    }

    /// Returns the name of the exchange to which covered messages are published.
    pub fn exchange(&self) -> &Text
        ensures { result.now ≡ self.now.exchange }
    {
        &self.exchange
    }

    /// Returns the topic pattern of the keys.
    pub fn pattern(&self) -> &Text
        ensures { result.now ≡ self.now.pattern }
    {
        &self.pattern
    }

    /// Returns the name of the queue that the promise is about.
    pub fn queue(&self) -> &Text
        ensures { result.now ≡ self.now.queue }
    {
        &self.queue
    }

    /// Returns the topic patterns whose keys are excepted.
    pub fn excepts(&self) -> &[Text]
        ensures { result.now ≡ self.now.excepts }
    {
        self.excepts.as_slice()
    }
}

/// Returns whether each of `texts` is a topic pattern.
fn all_patterns(texts: &[Text]) -> bool
    ensures { Decides result (All IsPattern texts.now) }
{
    texts.iter().all(|text| is_pattern(text.as_bytes()))
}

/// Returns whether the pattern and the `except` patterns of `guarantee` are topic patterns.
pub fn has_patterns(guarantee: &StatedGuarantee) -> bool
    ensures { Decides result (ArePatterns guarantee.now) }
{
    is_pattern(guarantee.pattern().as_bytes()) && all_patterns(guarantee.excepts())
}
