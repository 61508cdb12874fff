//! Routes as they are kept.

use crate::marks::Targets;
use model::Text;
use std::sync::Arc;

/// Whether clients may publish to an exchange.
#[derive(Clone, Copy, PartialEq, Eq, Debug, Drop)]
pub enum Access {
    /// They may. The default exchange is always open.
    Open,
    /// The exchange is internal: only other exchanges lead to it.
    Internal,
    Absent,
}

/// Where a message that is sent to `exchange` under `key` goes.
pub struct Route {
    pub exchange: Text,
    pub key: Text,
    pub access: Access,
    /// The queues that it is routed to, by index in the order of the file, each once.
    pub targets: Targets,
}

/// Not derived: a derived drop is expanded, and proved again, in each function that drops the value.
impl Drop for Route {
    fn drop(self) {
        let Route {
            exchange: _,
            key: _,
            access: _,
            targets: _,
        } = self;
    }
}

/// The result of a look-up that allocates nothing: whether clients may publish to the exchange, and the route if it is cached.
#[derive(Drop)]
pub struct Found<'a> {
    pub access: Access,
    /// The route, if it is in the cache.
    pub route: Option<&'a Arc<Route>>,
}
