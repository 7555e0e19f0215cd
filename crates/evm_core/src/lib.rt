//! The machine: `apply` is one event of its definition, and its journal is the list of the accepted events.
#![tactic(auto)]

mod accepting;
mod booting;
mod committing;
mod copying;
mod laws;
mod machine;
mod objects;
mod stages;
mod stepping;
mod typed;

pub use accepting::{apply_to, some_steps_to};
pub use committing::{CODE_LIMIT, Committed};
pub use evm_board::Devices;
pub use evm_exec::Burst;
pub use evm_history::{EventLine, Journal, MAX_STEPS};
pub use evm_model::{Answer, Boot, Event, Refusal};
pub use laws::{
    bell_refusals, booted_processors, same_boot, same_processors, step_refusals, tick_refusals,
};
pub use machine::Machine;
pub use stages::Stages;
