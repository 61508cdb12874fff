//! The entries of a definitions file, as they are written. Start with [`Document`].

use model::Text;

/// An entry of `vhosts`.
#[derive(Drop)]
pub struct VhostEntry {
    pub name: Text,
}

/// An entry of `users`.
#[derive(Drop)]
pub struct UserEntry {
    pub name: Text,
    pub password_hash: Text,
    pub hashing_algorithm: Text,
}

/// An entry of `permissions`: what a user may do.
#[derive(Drop)]
pub struct PermissionEntry {
    pub user: Text,
    pub vhost: Text,
    pub configure: Text,
    pub write: Text,
    pub read: Text,
}

/// The arguments of an exchange.
#[derive(Drop)]
pub struct ExchangeArguments {
    pub alternate: Option<Text>,
    /// Whether no other argument is given.
    pub listed: bool,
}

/// An entry of `exchanges`.
#[derive(Drop)]
pub struct ExchangeEntry {
    pub name: Text,
    pub vhost: Text,
    pub kind: Text,
    pub auto_delete: bool,
    pub internal: bool,
    pub arguments: ExchangeArguments,
    /// Whether no unknown member is given.
    pub listed: bool,
}

/// The arguments of a queue.
#[derive(Drop)]
pub struct QueueArguments {
    pub max_length: Option<u32>,
    pub max_bytes: Option<u32>,
    pub overflow: Option<Text>,
    pub dead_letter_exchange: Option<Text>,
    pub dead_letter_key: Option<Text>,
    /// Whether no other argument is given.
    pub listed: bool,
}

/// An entry of `queues`.
#[derive(Drop)]
pub struct QueueEntry {
    pub name: Text,
    pub vhost: Text,
    pub auto_delete: bool,
    pub arguments: QueueArguments,
    /// Whether no unknown member is given.
    pub listed: bool,
}

/// An entry of `bindings`.
#[derive(Drop)]
pub struct BindingEntry {
    pub source: Text,
    pub vhost: Text,
    pub destination: Text,
    pub destination_type: Text,
    pub key: Text,
    /// Whether no unknown member and no argument is given.
    pub listed: bool,
}

/// A file's entries, each list in the file's order.
#[derive(Drop)]
pub struct Document {
    pub vhosts: Vec<VhostEntry>,
    pub users: Vec<UserEntry>,
    pub permissions: Vec<PermissionEntry>,
    pub exchanges: Vec<ExchangeEntry>,
    pub queues: Vec<QueueEntry>,
    pub bindings: Vec<BindingEntry>,
    /// Whether there is no policy, parameter or topic permission.
    pub plain: bool,
}
