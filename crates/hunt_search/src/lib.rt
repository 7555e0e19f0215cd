//! A hunt: many schedules of a program, each failure once, and the shortest list of events that makes it.
#![tactic(auto)]

mod asking;
mod dropping;
mod found;
mod going;
mod hunting;
mod joining;
mod key;
mod onlooker;
mod place;
mod playing;
mod reporting;
mod script;
mod seeing;
mod shortening;
mod switching;
mod target;
mod tracking;
mod trial;
mod walking;

pub use found::{Found, replayed, shortest};
pub use hunt_failures::{Errors, Failure, Inversion, Wanted};
pub use hunt_schedules::{
    BeginFault, Boot, CAPACITY_LIMIT, Cycle, EventList, HuntStop, Machine, Orders, SIZE_LIMIT,
    Stretch, Stretches, Way,
};
pub use hunting::{
    HuntRun, Plan, Report, Row, SearchSpan, SpaceCounts, first_choices, first_length, hunt, note,
};
pub use key::{FailureKey, kind_name};
pub use onlooker::Onlooker;
pub use reporting::{clock_text, counts_text, row_text, schedule_text, unreached_text};
pub use script::{failing_script, journal_text};
pub use shortening::{PLAY_LIMIT, PLAYED_LIMIT, shorten};
pub use switching::{Switching, hunt_all};
pub use target::Target;
pub use walking::{is_among, is_ended};
