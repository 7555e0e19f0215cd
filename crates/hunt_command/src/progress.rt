//! How long a hunt has taken, and on a terminal how far it has come.

use std::io::{IsTerminal, Write};
use std::time::Instant;

/// The time of a hunt, and what of it is shown.
#[derive(Clone, Copy)]
pub(crate) struct HuntClock {
    begun: Option<Instant>,
    is_shown: bool,
    // how many seconds the hunt had taken when the last line was written
    seconds: u64,
}

/// The clock of a hunt, which writes to standard error, where it is a terminal, how far the hunt has come: a line after each second.
#[derive(Clone, Copy)]
pub struct HuntProgress<'a> {
    pub(crate) rt: &'a HostRuntime,
    pub(crate) clock: HuntClock,
}

impl<'a> HuntProgress<'a> {
    /// A hunt begins.
    pub fn new(rt: &'a HostRuntime) -> HuntProgress<'a> {
        HuntProgress {
            rt,
            clock: HuntClock {
                begun: Instant::now(rt).ok(),
                is_shown: rt.stderr().is_terminal(),
                seconds: 0,
            },
        }
    }
}

impl HuntClock {
    /// How many whole seconds the hunt has taken; None where there is no clock.
    pub(crate) fn taken(&self, rt: &HostRuntime) -> Option<u64> {
        match self.begun?.elapsed(rt) {
            Ok(time) => Some(time.as_secs()),
            Err(_) => None,
        }
    }

    /// Shows how far the hunt has come. What a terminal does not show is no fault of the hunt.
    pub(crate) fn show(&mut self, rt: &HostRuntime, schedules: u64, failures: u64) {
        if !self.is_shown {
            return;
        }
        if let Some(taken) = self.taken(rt)
            && taken > self.seconds
        {
            self.seconds = taken;
            let _ = eprint!(rt; "\rvardozek hunt: schedules {schedules}, failures {failures}");
        }
    }

    /// Clears what is shown.
    pub(crate) fn clear(&self, rt: &HostRuntime) {
        if self.is_shown && self.seconds > 0 {
            let _ = eprint!(rt; "\r                                                            \r");
        }
    }
}
