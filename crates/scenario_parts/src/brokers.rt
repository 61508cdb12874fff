//! The definitions of the broker of these scenarios.

/// Definitions with one user, `bob`, whose password is `wonder`, and one queue, to which `orders` routes the key `new`. The hash
/// comes from another implementation of SHA-256.
pub const DEFINITIONS: &[u8] =
    b"{\"vhosts\":[{\"name\":\"/\"}],\"users\":[{\"name\":\"bob\",\"password_hash\":\"AP8QIP1+hc366UvtXAK3UQ+rq8L0LES3C50CEYORrkee+cR/\",\"hashing_algorithm\":\"rabbit_password_hashing_sha256\"}],\"permissions\":[{\"user\":\"bob\",\"vhost\":\"/\",\"configure\":\"^$\",\"write\":\".*\",\"read\":\".*\"}],\"exchanges\":[{\"name\":\"orders\",\"vhost\":\"/\",\"type\":\"direct\",\"durable\":true,\"auto_delete\":false,\"internal\":false,\"arguments\":{}}],\"queues\":[{\"name\":\"audit\",\"vhost\":\"/\",\"durable\":true,\"auto_delete\":false,\"arguments\":{}}],\"bindings\":[{\"source\":\"orders\",\"vhost\":\"/\",\"destination\":\"audit\",\"destination_type\":\"queue\",\"routing_key\":\"new\",\"arguments\":{}}]}";
