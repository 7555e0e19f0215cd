//! The word `run` of the command line, from what stands behind it to the exit status, over a system that opens files and has three
//! streams.
#![tactic(auto)]

mod command;
mod halting;
mod machine;
mod program;
mod telling;
mod words;

pub use command::{journal_for, run_for};
pub use program::NamedImage;

/// The name in front of messages that are about no file.
const PROGRAM: &str = "vardozek run";
