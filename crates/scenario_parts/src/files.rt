//! The files of a topology with one topic exchange, under one guarantee.

/// Definitions with a topic exchange `X`, which routes `orders` and `orders.*.#` to the queue `audit`.
pub const DEFINITIONS: &[u8] =
    b"{\"vhosts\":[{\"name\":\"/\"}],\"users\":[],\"permissions\":[],\"exchanges\":[{\"name\":\"X\",\"vhost\":\"/\",\"type\":\"topic\",\"durable\":true,\"auto_delete\":false,\"internal\":false,\"arguments\":{}}],\"queues\":[{\"name\":\"audit\",\"vhost\":\"/\",\"durable\":true,\"auto_delete\":false,\"arguments\":{}}],\"bindings\":[{\"source\":\"X\",\"vhost\":\"/\",\"destination\":\"audit\",\"destination_type\":\"queue\",\"routing_key\":\"orders\",\"arguments\":{}},{\"source\":\"X\",\"vhost\":\"/\",\"destination\":\"audit\",\"destination_type\":\"queue\",\"routing_key\":\"orders.*.#\",\"arguments\":{}}]}";

/// The guarantee that every key that `orders.#` matches reaches the queue.
pub const GUARANTEES: &[u8] =
    b"{\"guarantees\":[{\"mode\":\"reaches\",\"exchange\":\"X\",\"pattern\":\"orders.#\",\"queue\":\"audit\"}]}";

/// The certificates file for [`GUARANTEES`], with the five states that docs/FORMATS.md derives.
pub const CERTIFICATES: &[u8] =
    b"[{\"exchange\":\"X\",\"form\":1,\"mode\":\"reaches\",\"pattern\":\"orders.#\",\"queue\":\"audit\",\"states\":[[0,0,0],[1,1,1],[4,0,8],[4,0,12],[6,2,2]]}]";
