//! The tasks that wait, and which of those that wait for the same goes first.
#![tactic(auto)]

mod waiter;
mod waiting;

pub use waiter::{Waiter, waiter_of};
pub use waiting::Waiting;

/// How many queues there are of tasks that wait: 8 for each number below 32, by the kinds of what they wait for.
pub const WAIT_QUEUE_LIMIT: usize = 256;
