//! Rows of threads: a machine under its lock, driven by workers, ringers and commands at the same time, and what `threads_to` writes of one.
#![tactic(auto)]

#[cfg(test)]
mod shared;
#[cfg(test)]
mod tests;
