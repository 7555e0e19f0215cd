//! What a hunt shows while it goes on.

use crate::PROGRAM;
use crate::progress::HuntClock;
use evm_host::{System, World, show};
use evm_room::NoMemory;
use hunt_search::{Onlooker, Row, row_text};
use std::alloc::Global;
use text_symbols::Names;

/// An onlooker that writes each failure when it is found, and ends the hunt when its time is over or a failure can't be written.
#[derive(Drop)]
pub(crate) struct Telling<'a, S: System> {
    pub(crate) alloc: Global,
    pub(crate) names: &'a Names,
    pub(crate) seconds: Option<u64>,
    pub(crate) rt: &'a HostRuntime,
    pub(crate) clock: HuntClock,
    pub(crate) world: &'a mut World<S>,
    /// The status of the first failure that was not written, or that there was no memory for it; 0 if each was written.
    pub(crate) told: Result<u8, NoMemory>,
}

impl<S: System> Telling<'_, S> {
    // Whether each failure so far was written.
    fn is_told(&self) -> bool {
        match self.told {
            Ok(status) => status == 0,
            Err(NoMemory) => false,
        }
    }
}

impl<S: System> Onlooker for Telling<'_, S> {
    fn goes_on(&mut self, schedules: u64, failures: u64) -> bool {
        if !self.is_told() {
            return false;
        }
        self.clock.show(self.rt, schedules, failures);
        match self.seconds {
            None => true,
            Some(seconds) => self
                .clock
                .taken(self.rt)
                .is_some_and(|taken| taken < seconds),
        }
    }

    fn found(&mut self, row: &Row) {
        if !self.is_told() {
            return;
        }
        self.clock.clear(self.rt);
        self.told = match row_text(self.alloc, row, self.names) {
            Ok(text) => Ok(show(PROGRAM, text.as_str(), self.world)),
            Err(NoMemory) => Err(NoMemory),
        };
    }
}
