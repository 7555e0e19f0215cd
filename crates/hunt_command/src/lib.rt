//! The word `hunt` of the command line, from what stands behind it to the exit status, over a system that opens files and has three
//! streams.
#![tactic(auto)]

mod cases;
mod command;
mod files;
mod job;
mod progress;
mod results;
mod telling;
mod words;

pub use command::hunt_for;
pub use progress::HuntProgress;
pub use words::{Options, Search};

/// The name in front of messages that are about no file.
const PROGRAM: &str = "vardozek hunt";
