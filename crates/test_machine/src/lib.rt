//! Rows of the machine: events, commits, bursts that were done ahead, and what is attached.
#![tactic(auto)]

#[cfg(test)]
mod bursts;
#[cfg(test)]
mod machine;
