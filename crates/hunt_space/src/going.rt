//! The path that a search goes, and what it counts.

use crate::bounds::EventBounds;
use crate::path::Path;
use crate::reached::ReachedText;
use crate::text::TextSpan;
use hunt_schedules::{AnyDevice, Machine, RunOutcome};
use hunt_search::Target;
use hunt_states::Trail;

/// The path that is gone. None of it changes meanwhile.
#[derive(Clone, Copy)]
pub(crate) struct Going<'a> {
    pub(crate) target: Target<'a>,
    /// How many ticks and raises may come.
    pub(crate) bounds: EventBounds,
    /// Where private rows are taken from.
    pub(crate) text: TextSpan,
    pub(crate) path: &'a Path,
    /// The number of the path.
    pub(crate) number: u32,
    /// The machine that has had no event.
    pub(crate) first: &'a Machine<AnyDevice>,
}

/// A machine that a path has reached by some steps.
#[derive(Clone, Copy)]
pub(crate) struct Position<'a> {
    pub(crate) machine: &'a Machine<AnyDevice>,
    /// What was stored up to there.
    pub(crate) trail: Trail,
    pub(crate) steps: u32,
}

/// What is counted of a search.
#[derive(Debug, Drop)]
pub(crate) struct Tally {
    /// The events that were made for the first time.
    pub(crate) events: u64,
    /// The states at which nothing more can happen.
    pub(crate) ends: u64,
    /// What of the program's text was reached.
    pub(crate) text: ReachedText,
}

impl Tally {
    /// Nothing was counted, and nothing of a text reached.
    pub(crate) fn new(text: ReachedText) -> Tally {
        Tally {
            events: 0,
            ends: 0,
            text,
        }
    }

    /// Counts an event.
    pub(crate) fn add_event(&mut self) {
        self.events = self.events.saturating_add(1);
    }

    /// Counts a state, if nothing more can happen there.
    pub(crate) fn add_end(&mut self, ended: bool) {
        if ended {
            self.ends = self.ends.saturating_add(1);
        }
    }

    /// Counts the step of a path's own processor, if it was made.
    pub(crate) fn add_step(&mut self, ended: Option<RunOutcome>) {
        if ended != Some(RunOutcome::Over) {
            self.add_event();
        }
    }
}
