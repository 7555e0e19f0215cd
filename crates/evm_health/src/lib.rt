//! The health monitor: which notices a task asks for, and the last ones.
#![tactic(auto)]

mod kinds;
mod notices;

pub use kinds::{asks_for, number};
pub use notices::Notices;
