//! Doorbells: a thread rings a line of a processor, and another takes all lines that were rung there, each by one
//! atomic operation.
#![tactic(auto)]

mod bells;
mod closing;
mod counts;
mod rule;

pub use bells::{Bells, BellsRefusal, RINGER_WEIGHT, Ringer, Taker};
pub use closing::{Closed, SeatsOut};
pub use counts::{LineCounts, PROCESSOR_LIMIT};
