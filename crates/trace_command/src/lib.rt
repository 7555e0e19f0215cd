//! A run of the machine as a trace, the word `trace` of the command line: the journal walked, and what the tracks show after each event.
#![tactic(auto)]

mod changes;
mod clock;
mod command;
mod interrupts;
mod labels;
mod naming;
mod noting;
mod places;
mod showing;
mod states;
mod tracing;
mod words;

pub use clock::Clock;
pub use command::{PROGRAM, trace, traces_program};
pub use tracing::{TraceEnd, TracedRun, trace_journal};
