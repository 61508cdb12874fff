//! What can prevent a reload.

use crate::texts::Text;

/// Why a configuration can't be put in force while messages wait.
pub enum Obstacle {
    /// This queue has a message, or a consumer takes from it, and the new topology lacks it.
    InUse(Text),
    /// `queue` holds a message that was first sent under `key`, and dead letters could bring it
    /// to a queue that guarantee number `guarantee`, counted from 1, forbids it.
    Breaks {
        queue: Text,
        key: Text,
        guarantee: usize,
    },
}

/// Not derived: a derived drop is expanded, and proved again, in each function that drops the value.
impl Drop for Obstacle {
    fn drop(self) {
        match self {
            Obstacle::InUse(_) => {}
            Obstacle::Breaks {
                queue: _,
                key: _,
                guarantee: _,
            } => {}
        }
    }
}
