//! Limits that several crates use. Each is the greatest value that is accepted.

/// The largest file that is read or written, in bytes. Source: our own.
pub const FILE_BYTES: usize = 16_777_216;

/// The largest body of a message, in bytes. Source: our own.
pub const BODY_BYTES: u64 = 1_048_576;

/// The longest name, routing key or pattern, in bytes. Source: AMQP 0-9-1, section 4.2.5.3, short strings.
pub const SHORT_BYTES: usize = 255;

/// The highest channel number. Source: our own; RabbitMQ has 2047.
pub const CHANNEL_MAX: u16 = 255;

/// The most states that a certificate's automaton may have. Source: our own.
pub const STATES: usize = 65_536;
