//! What is kept of a run while it goes on.

use hunt_failures::Monitor;
use hunt_states::Trail;

/// What is counted over a run, and what it has stored.
#[derive(Debug, Drop)]
pub(crate) struct Tracker {
    pub(crate) monitor: Monitor,
    pub(crate) trail: Trail,
}

impl Tracker {
    /// At the boot.
    pub(crate) fn new() -> Tracker {
        Tracker {
            monitor: Monitor::new(),
            trail: Trail::new(),
        }
    }
}
