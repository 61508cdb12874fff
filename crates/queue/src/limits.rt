//! Limits of a queue. Source: RabbitMQ, "Queue Length Limit", reject-publish.

ghost use Rattle.std.specs.Prelude.{◌≡◌, ◌+◌};
ghost use Rattle.model.specs.Broker as seen;

/// Returns whether `messages` is at `limit` or above it.
pub(crate) fn is_at(limit: Option<u32>, messages: usize) -> bool
    ensures { result ≡ seen.is_at limit messages }
{
    match limit {
        None => false,
        Some(limit) => limit as usize <= messages,
    }
}

/// Returns whether `bytes` and `size` together are more than `byte_limit`.
pub(crate) fn is_past(byte_limit: Option<u32>, bytes: u128, size: usize) -> bool
    ensures { result ≡ seen.is_past byte_limit (bytes + size) }
{
    match byte_limit {
        None => false,
        Some(byte_limit) => (byte_limit as u128) < bytes.saturating_add(size as u128),
    }
}
