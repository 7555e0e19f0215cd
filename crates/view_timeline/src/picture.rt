//! What is drawn of a window.

use crate::cells::Timeline;
use crate::places::Naming;

/// What is drawn.
#[derive(Clone, Copy)]
pub struct Picture<'a> {
    /// The window of a journal.
    pub timeline: &'a Timeline,
    pub naming: Naming<'a>,
    /// The event where the journal and another part.
    pub parts: Option<u64>,
    /// Each mutex has a lane.
    pub mutexes: bool,
}

impl Picture<'_> {
    /// How many mutexes have a lane.
    pub fn mutex_count(&self) -> u8 {
        if self.mutexes {
            self.timeline.mutex_count
        } else {
            0
        }
    }
}
