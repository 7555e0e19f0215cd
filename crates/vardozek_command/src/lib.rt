//! The command line of `vardozek`: the table of its words, and the job that each of them names.
#![tactic(auto)]

mod answering;
mod help;
mod parsing;
mod table;

pub use answering::{answer, run};
