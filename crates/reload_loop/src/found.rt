//! What the looks remember: files that were not put in force.

use crate::snapshots::Snapshot;
use engine::Setup;
use server::Report;

/// The outcome of the last look at the files, unless it was put in force. `told` is when a line about these files was last written, in seconds by the
/// clock.
#[derive(Drop)]
pub(crate) enum Found<'a> {
    /// Nothing is remembered.
    Nothing,
    /// The files, as they were `read`, were refused; `report` is the refusal that is reported.
    Refused {
        read: Snapshot,
        report: Report<'a>,
        told: Option<u64>,
    },
    /// The files, as they were `read`, were admitted, and state `setup`; but there was an obstacle, or judging it failed to allocate.
    Admitted {
        read: Snapshot,
        setup: Setup,
        told: Option<u64>,
    },
    /// The files, as they were `read`, were admitted, but putting them in force failed to allocate: they are judged again.
    Wanting {
        read: Snapshot,
        told: Option<u64>,
    },
}
