//! Messages, and the entries of queues that hold them. Start with [`Message`] and [`Entry`].

ghost use Rattle.std.specs.Prelude.{◌≡◌, IfOk};
ghost use Rattle.model.specs.Sharing;

use crate::contents::Content;
use crate::methods::Publish;
use crate::texts::Text;
use std::alloc::{AllocError, Global};
use std::marker::Model;
use std::sync::Arc;

/// An exchange and a key with which a message was sent.
#[derive(Drop)]
struct Sent {
    exchange: Text,
    key: Text,
}

impl Sent {
    /// Returns the same exchange and key, sharing their bytes.
    fn clone(&self) -> Result<Sent, AllocError>
        ensures { IfOk result (λ sent. sent ≡ self.now) }
    {
        Ok(Sent {
            exchange: self.exchange.clone()?,
            key: self.key.clone()?,
        })
    }
}

/// The exchanges and keys of a dead letter: those of its publish, and those with which it was sent last.
#[derive(Drop)]
struct Resent {
    first: Sent,
    last: Sent,
}

/// The exchanges and keys of a message, which all of its copies share.
#[derive(Drop)]
enum Sending {
    /// A publish, or a copy of it.
    Once(Sent),
    /// A dead letter. Its exchanges and keys are in a separate block, so that a publish takes less memory.
    Again(Arc<Resent>),
}

/// Returns the exchange and key of the publish, also for a dead letter.
fn first_sent(sending: &Sending) -> &Sent
    ensures { result.now ≡ Sharing.first_sent sending.now }
{
    match sending {
        Sending::Once(sent) => sent,
        Sending::Again(resent) => &resent.first,
    }
}

/// Returns the exchange and key with which the message was sent last.
fn last_sent(sending: &Sending) -> &Sent
    ensures { result.now ≡ Sharing.last_sent sending.now }
{
    match sending {
        Sending::Once(sent) => sent,
        Sending::Again(resent) => &resent.last,
    }
}

/// The part of a message that all copies of a publish share, or all copies of a dead letter.
struct Shared {
    number: u64,
    sending: Sending,
    content: Content,
}

/// Not derived: a derived drop is expanded, and proved again, in each function that drops the value.
impl Drop for Shared {
    fn drop(self) {
        let Shared {
            number: _,
            sending: _,
            content: _,
        } = self;
    }
}

/// A message, of a publish or a dead letter, in a value of 16 bytes. Its copies share its number, exchanges, keys, properties and body.
pub struct Message {
    shared: Arc<Shared>,
    redelivered: bool,
    /// Whether the message was in a queue when a reload was done.
    survived: bool,
}

/// Not derived: a derived drop is expanded, and proved again, in each function that drops the value.
impl Drop for Message {
    fn drop(self) {
        let Message {
            shared: _,
            redelivered: _,
            survived: _,
        } = self;
    }
}

impl Model for Message {
    ghost use Rattle.model.specs.Message.{Message as Seen};
    ghost use Rattle.model.specs.Sharing.{message_of};

    ghost Value = { Seen };

    ghost view = { λ m. message_of m.shared.value m.redelivered m.survived };
}

impl Message {
    ghost use Rattle.std.specs.Prelude.{true};
    ghost use Rattle.model.specs.Deaths.{dead_letter};
    ghost use Rattle.model.specs.Step.{message};

    /// Makes the message of a publish with the publish number `number`. It shares the bytes of `publish` and `content`. Fails only if an allocation fails.
    pub fn of_publish(
        alloc: Global,
        number: u64,
        publish: &Publish,
        content: &Content,
    ) -> Result<Message, AllocError>
        ensures { IfOk result (λ m. m ≡ message number publish.now content.now) }
    {
        let shared = Shared {
            number,
            sending: Sending::Once(Sent {
                exchange: publish.exchange.clone()?,
                key: publish.routing_key.clone()?,
            }),
            content: content.clone()?,
        };
        match Arc::new(alloc, shared) {
            Ok(shared) => Ok(Message {
                shared,
                redelivered: false,
                survived: false,
            }),
            Err(_) => Err(AllocError),
        }
    }

    /// Makes the dead letter of this message, sent to `exchange` under `key` with `content`. It keeps the number and the first
    /// exchange and key, counts as not delivered, and shares the bytes of all that it is made of. Fails only if an allocation fails.
    pub fn dead_letter(
        &self,
        alloc: Global,
        exchange: &Text,
        key: &Text,
        content: &Content,
    ) -> Result<Message, AllocError>
        ensures { IfOk result (λ m. m ≡ dead_letter self.now exchange.now key.now content.now) }
    {
        let shared = Shared {
            number: self.shared.number,
            sending: self.resent(alloc, exchange, key)?,
            content: content.clone()?,
        };
        match Arc::new(alloc, shared) {
            Ok(shared) => Ok(Message {
                shared,
                redelivered: false,
                survived: false,
            }),
            Err(_) => Err(AllocError),
        }
    }

    /// Returns the exchanges and keys of the message's dead letter: the first are those of its publish, the last are `exchange` and `key`.
    fn resent(&self, alloc: Global, exchange: &Text, key: &Text) -> Result<Sending, AllocError>
        ensures first { IfOk result (λ sending. Sharing.first_sent sending ≡ record { exchange = self.now.first_exchange; key = self.now.first_key }) }
        ensures last { IfOk result (λ sending. Sharing.last_sent sending ≡ record { exchange = exchange.now; key = key.now }) }
    {
        let resent = Resent {
            first: first_sent(&self.shared.sending).clone()?,
            last: Sent {
                exchange: exchange.clone()?,
                key: key.clone()?,
            },
        };
        match Arc::new(alloc, resent) {
            Ok(resent) => Ok(Sending::Again(resent)),
            Err(_) => Err(AllocError),
        }
    }

    /// Returns the same message, sharing its bytes.
    pub fn clone(&self) -> Result<Message, AllocError>
        ensures { IfOk result (λ m. m ≡ self.now) }
    {
        Ok(Message {
            shared: Arc::try_clone(&self.shared)?,
            redelivered: self.redelivered,
            survived: self.survived,
        })
    }

    /// Returns the publish number: publishes are numbered from 1 over the whole broker.
    pub fn number(&self) -> u64
        ensures { result ≡ self.now.number }
    {
        self.shared.number
    }

    /// Returns the exchange that it was sent to last, by its publish or as a dead letter.
    pub fn exchange(&self) -> &Text
        ensures { result.now ≡ self.now.exchange }
    {
        &last_sent(&self.shared.sending).exchange
    }

    /// Returns the key with which it was sent last.
    pub fn key(&self) -> &Text
        ensures { result.now ≡ self.now.key }
    {
        &last_sent(&self.shared.sending).key
    }

    /// Returns the exchange that its publish was sent to.
    pub fn first_exchange(&self) -> &Text
        ensures { result.now ≡ self.now.first_exchange }
    {
        &first_sent(&self.shared.sending).exchange
    }

    /// Returns the key under which its publish was sent.
    pub fn first_key(&self) -> &Text
        ensures { result.now ≡ self.now.first_key }
    {
        &first_sent(&self.shared.sending).key
    }

    /// Returns its properties and body.
    pub fn content(&self) -> &Content
        ensures { result.now ≡ self.now.content }
    {
        &self.shared.content
    }

    /// Returns whether it is marked as redelivered.
    pub fn is_redelivered(&self) -> bool
        ensures { result ≡ self.now.redelivered }
    {
        self.redelivered
    }

    /// Marks the message as redelivered.
    pub fn redeliver(&mut self)
        ensures { self.new ≡ record self.old { redelivered = true } }
    {
        self.redelivered = true;
    }

    /// Marks it as a message that was in a queue when a reload was done.
    pub fn mark_survived(&mut self)
        ensures { self.new ≡ record self.old { survived = true } }
    {
        self.survived = true;
    }
}

/// Who was given a message.
#[derive(Clone, Copy, PartialEq, Eq, Debug, Drop)]
pub enum Taker {
    /// A basic.get.
    Get,
    /// The consumer of this number; the consumers of a channel are numbered in the order in which they are made.
    Consumer(u64),
}

/// The channel on which a message was given out, with its delivery tag and its taker.
#[derive(Clone, Copy, PartialEq, Eq, Debug, Drop)]
pub struct Holder {
    pub connection: u64,
    pub channel: u16,
    pub tag: u64,
    pub by: Taker,
}

/// Whether an entry is ready or held.
#[derive(Clone, Copy, PartialEq, Eq, Debug, Drop)]
pub enum Mark {
    Ready,
    /// It was given out and is not settled.
    Held(Holder),
}

/// A message in a queue, in a value of at most 64 bytes.
pub struct Entry {
    pub message: Message,
    pub mark: Mark,
}

/// Not derived: a derived drop is expanded, and proved again, in each function that drops the value.
impl Drop for Entry {
    fn drop(self) {
        let Entry {
            message: _,
            mark: _,
        } = self;
    }
}

/// A user who may log in: the name, and four bytes of salt followed by the SHA-256 of salt and password.
#[derive(Drop)]
pub struct User {
    pub name: Text,
    pub hash: Text,
}
