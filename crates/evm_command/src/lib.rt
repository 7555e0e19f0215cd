//! The command line, from its words to the exit status, over a system that opens files and has three streams. `threads` runs an image by
//! worker threads, one for each of two processors, and writes its journal.
#![tactic(auto)]

mod assembling;
mod command;
mod help;
mod outcome;
mod program;
mod replaying;
mod running;
mod sharing;
mod threading;
mod words;
mod workers;
mod writing;

pub use command::{answer, answer_read};
pub use evm_devs::program_devices;
pub use evm_host::host_world;
pub use outcome::RunEnding;
pub use program::run;
pub use workers::threads_to;
