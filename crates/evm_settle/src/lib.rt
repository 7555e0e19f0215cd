//! What follows an event on a processor: it plays what waits, chooses its current task, and tells the others.
#![tactic(auto)]

mod nudging;
mod playing;
mod settling;

pub use evm_parts::{
    Actions, Console, Events, Flags, Harts, Mutexes, Notices, Parts, Pipe, Schedule, Semaphores,
    Tasks, Timers, Watches,
};
pub use settling::settle_and_nudge;
