//! The word `gdb` of the command line, from what stands behind it to the exit status.
#![tactic(auto)]

mod booting;
mod command;
mod saving;
mod words;

pub use command::{PROGRAM, gdb};
