//! How far a run has come, on a terminal.

use std::io::{IsTerminal, Write};
use std::time::Instant;

/// Someone who shows how far a run has come.
pub trait Meter {
    /// The run has come to this event, or this round.
    fn passed(&mut self, place: u64);

    /// The run has ended.
    fn ended(&mut self);
}

/// A meter that says nothing.
#[derive(Clone, Copy, Debug, Drop)]
pub struct Silence;

impl Meter for Silence {
    fn passed(&mut self, _place: u64) {}

    fn ended(&mut self) {}
}

/// How many places are passed between two looks at the clock.
const PATIENCE: u32 = 1_024;

/// How many seconds a run takes before it is said how far it is.
const SILENT: u64 = 1;

/// A meter that writes to standard error, where it is a terminal, how far a run has come that takes longer than a second.
#[derive(Drop)]
pub struct Progress<'a> {
    rt: &'a HostRuntime,
    // what is counted, behind the name of the program
    words: &'static str,
    begun: Option<Instant>,
    passed: u32,
    shown: bool,
}

impl<'a> Progress<'a> {
    /// A meter whose line begins with these words, as `vardozek trace: event`. It says nothing where standard error is no
    /// terminal, or there is no clock.
    pub fn new(rt: &'a HostRuntime, words: &'static str) -> Progress<'a> {
        let begun = if rt.stderr().is_terminal() {
            Instant::now(rt).ok()
        } else {
            None
        };
        Progress {
            rt,
            words,
            begun,
            passed: 0,
            shown: false,
        }
    }

    fn is_late(&self) -> bool {
        let Some(begun) = self.begun else {
            return false;
        };
        match begun.elapsed(self.rt) {
            Ok(time) => time.as_secs() >= SILENT,
            Err(_) => false,
        }
    }

    // What a terminal does not show is no fault of the run.
    fn show(&mut self, place: u64) {
        self.shown = true;
        let _ = eprint!(self.rt; "\r{} {place}", self.words);
    }
}

impl Meter for Progress<'_> {
    fn passed(&mut self, place: u64) {
        self.passed = self.passed.wrapping_add(1);
        if self.passed % PATIENCE == 0 && self.is_late() {
            self.show(place);
        }
    }

    fn ended(&mut self) {
        if self.shown {
            self.shown = false;
            let _ = eprint!(self.rt; "\r                                        \r");
        }
    }
}
