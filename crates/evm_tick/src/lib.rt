//! The timers, and how one expires; and what the watchdog counts.
#![tactic(auto)]

mod expiring;
mod timers;
mod watches;

pub use expiring::{expired, is_due, taken};
pub use timers::Timers;
pub use watches::Watches;
