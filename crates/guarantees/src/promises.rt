//! Guarantees whose texts are known to be topic patterns. Start with [`Guarantee`].

ghost use Rattle.std.specs.Prelude.{◌≡◌, IfOk, Decides};
ghost use Rattle.std.specs.List.{AllByRecursion};
ghost use Rattle.model.specs.Guarantee.{Covers};
ghost use Rattle.guarantees.specs.Causes.{ArePatterns, Makes};
ghost use Rattle.guarantees.specs.Covering.{KeepsIn};

use crate::stated::{StatedGuarantee, has_patterns};
use model::{Mode, Text};
use std::alloc::{AllocError, Global};
use std::marker::Model;
use topic_match::covers_key;

/// A promise about one queue, for the routing keys that a topic pattern matches and no `except` pattern does.
#[derive(Drop)]
pub struct Guarantee {
    stated: StatedGuarantee,
}

impl Model for Guarantee {
    ghost use Rattle.model.specs.Guarantee.{Guarantee as Wanted};
    ghost use Rattle.guarantees.specs.Causes.{ArePatterns};

    ghost Value = { Wanted };

    ghost view = { λ g. g.stated };

    ghost invariant = { λ g. ArePatterns g.stated };
}

/// Returns whether none of the patterns `excepts` matches `key`. Fails only if an allocation fails.
fn all_keep_in(alloc: Global, excepts: &[Text], key: &[u8]) -> Result<bool, AllocError>
    ensures { IfOk result (λ yes. Decides yes (AllByRecursion (KeepsIn key.now) excepts.now)) }
{
    for except in excepts {
        if covers_key(alloc, except.as_bytes(), key)? {
            return Ok(false);
        }
    }
    Ok(true)
}

impl Guarantee {
    /// Builds a guarantee. Returns `None` if `pattern` or one of `excepts` is no topic pattern.
    pub fn new(
        mode: Mode,
        exchange: Text,
        pattern: Text,
        queue: Text,
        excepts: Vec<Text>,
    ) -> Option<Guarantee>
        ensures { Makes result (record { mode = mode; exchange = exchange; pattern = pattern; queue = queue; excepts = excepts.items }) }
    {
        let stated = StatedGuarantee::new(mode, exchange, pattern, queue, excepts);
        if has_patterns(&stated) {
            Some(Guarantee { stated })
        } else {
            None
        }
    }

    /// Builds a guarantee from a stated one, whose texts are patterns.
    pub(crate) fn of(stated: StatedGuarantee) -> Guarantee
        requires { ArePatterns stated }
        ensures { result ≡ stated }
    {
        Guarantee { stated }
    }

    /// Proves that the pattern and the `except` patterns are topic patterns. Does nothing at run time.
    pub fn ghost_are_patterns(&self)
        ensures { ArePatterns self.now }
    {
        let _ = &self.stated;
    }

    /// Returns whether the queue must be reached, or must never be.
    pub fn mode(&self) -> Mode
        ensures { result ≡ self.now.mode }
    {
        self.stated.mode()
    }

    /// Returns the name of the exchange to which covered messages are published.
    pub fn exchange(&self) -> &Text
        ensures { result.now ≡ self.now.exchange }
    {
        self.stated.exchange()
    }

    /// Returns the topic pattern of the keys.
    pub fn pattern(&self) -> &Text
        ensures { result.now ≡ self.now.pattern }
    {
        self.stated.pattern()
    }

    /// Returns the name of the queue that the promise is about.
    pub fn queue(&self) -> &Text
        ensures { result.now ≡ self.now.queue }
    {
        self.stated.queue()
    }

    /// Returns the topic patterns whose keys are excepted.
    pub fn excepts(&self) -> &[Text]
        ensures { result.now ≡ self.now.excepts }
    {
        self.stated.excepts()
    }

    /// Returns whether the guarantee covers a message published to `exchange` under `key`. Fails only if an allocation fails.
    pub fn covers(&self, alloc: Global, exchange: &[u8], key: &[u8]) -> Result<bool, AllocError>
        ensures { IfOk result (λ yes. Decides yes (Covers self.now exchange.now key.now)) }
    {
        if exchange != self.exchange().as_bytes() {
            return Ok(false);
        }
        let matched = covers_key(alloc, self.pattern().as_bytes(), key)?;
        let kept_in = all_keep_in(alloc, self.excepts(), key)?;
        Ok(matched & kept_in)
    }
}
