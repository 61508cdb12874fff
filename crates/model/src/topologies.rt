//! What a definitions file sets up: exchanges, queues and bindings as plain data.

use crate::texts::Text;

/// The type of an exchange, which decides whether a binding lets a key pass. Source: AMQP 0-9-1, section 3.1.3, "Exchange Types".
#[derive(Clone, Copy, PartialEq, Eq, Debug, Drop)]
pub enum ExchangeKind {
    /// If the key is the binding key.
    Direct,
    /// Always.
    Fanout,
    /// If the key matches the binding key as a topic pattern.
    Topic,
}

/// Where a binding leads.
#[derive(Drop)]
pub enum Destination {
    Exchange(Text),
    Queue(Text),
}

/// An exchange, as the definitions file declares it.
#[derive(Drop)]
pub struct Exchange {
    pub name: Text,
    pub kind: ExchangeKind,
    /// Clients may not publish to it.
    pub internal: bool,
    /// The exchange to which a message goes if no binding lets it pass. Source: RabbitMQ, "Alternate Exchanges".
    pub alternate: Option<Text>,
}

/// A queue, as the definitions file declares it.
#[derive(Drop)]
pub struct DeclaredQueue {
    pub name: Text,
    /// The most ready messages it may have; it refuses more.
    pub limit: Option<u32>,
    /// The most bytes that the bodies of its ready messages may have together.
    pub byte_limit: Option<u32>,
    /// The exchange to which rejected messages go. Source: RabbitMQ, "Dead Letter Exchanges".
    pub dead_letter_exchange: Option<Text>,
    /// The key of its dead letters; without one they keep their own.
    pub dead_letter_key: Option<Text>,
}

/// A binding from the exchange `source`, with the binding key `key`.
#[derive(Drop)]
pub struct Binding {
    pub source: Text,
    pub to: Destination,
    pub key: Text,
}

/// The kind of a guarantee: what it promises about its queue.
#[derive(Clone, Copy, PartialEq, Eq, Debug, Drop)]
pub enum Mode {
    /// Every covered key is routed to it.
    Reaches,
    /// No message with a covered key ever reaches the queue, not even as a dead letter.
    Never,
}
