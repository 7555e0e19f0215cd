//! What events change: memory, breakpoints, and the parts of the kernels. `Board::row` is what an event does, and
//! `Board::refusal` why one is refused.
#![tactic(auto)]

mod access;
mod accessing;
mod attaching;
mod board;
mod bursting;
mod commands;
mod instructions;
mod loading;
mod memory;
mod quiet;
mod refusals;
mod row;
mod step;
mod stepping;
mod ticking;

pub use access::Access;
pub use board::Board;
pub use evm_devs::{CopyFrom, Devices};
pub use evm_quiet::{Breakpoints, Slots};
pub use evm_settle::{
    Actions, Console, Events, Flags, Harts, Mutexes, Notices, Parts, Pipe, Schedule, Semaphores,
    Tasks, Timers, Watches,
};
pub use memory::{Memory, word_in};
pub use stepping::StepsMade;
