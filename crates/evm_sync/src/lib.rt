//! The objects on which tasks wait out-of-band besides mutexes and timers, each kind by its numbers; and what lines do to
//! them.
#![tactic(auto)]

mod actions;
mod events;
mod flags;
mod semaphores;

pub use actions::Actions;
pub use events::Events;
pub use flags::Flags;
pub use semaphores::Semaphores;
