//! The parts of a machine side by side: what calls may change. Those above read and change a part by its own
//! functions; what many rows do to one processor's part, or to one task, has a function here.
#![tactic(auto)]

mod actions;
mod console;
mod deadlines;
mod events;
mod flags;
mod locks;
mod notices;
mod parts;
mod semaphores;
mod stages;
mod tasks;
mod timers;
mod watching;

pub use console::Console;
pub use evm_boost::{Mutexes, Schedule};
pub use evm_health::Notices;
pub use evm_pipe::Pipe;
pub use evm_sync::{Actions, Events, Flags, Semaphores};
pub use evm_task::{Asked, Harts, Tasks};
pub use evm_tick::{Timers, Watches};
pub use parts::Parts;
pub use watching::is_other;
