//! One processor's pipe of interrupts (Dovetail, "Interrupt pipeline"): its wire, the logs of its two stages,
//! and how often what happened to each line.
#![tactic(auto)]

mod counting;
mod pipe;

pub use pipe::Pipe;
