//! What one instruction of RV64I does to a hart: its registers, its pc, and its accesses to memory.
#![tactic(auto)]

mod arithmetic;
mod burst;
mod execute;
mod hart;
mod laws;
mod memory;
mod outcome;

pub use arithmetic::{extend, is_taken, on_immediate, on_registers, on_shift, on_words};
pub use burst::{BURST_LIMIT, Burst};
pub use execute::{
    access, branch_to, effect, execute_private, go_to, move_on, no_register, private,
};
pub use hart::{Hart, REGISTER_COUNT, REGISTERS};
pub use laws::registers_hold;
pub use memory::{load_width, loaded, store_width, stored};
pub use outcome::{Access, Direction, Effect};
