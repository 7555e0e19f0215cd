//! A run, of a schedule or a script: which event is next, what the program puts to its consoles, and how the run has ended.
#![tactic(auto)]

mod advancing;
mod ending;
mod looking;
mod printing;
mod random;
mod running;
mod scheduler;
mod scripting;

pub use ending::RunEnd;
pub use evm_core::{Boot, Machine};
pub use evm_devs::AnyDevice;
pub use evm_model::{CAPACITY_LIMIT, Event, NoBytes, Refusal};
pub use evm_ram::SIZE_LIMIT;
pub use hunt_schedules::BeginFault;
pub use looking::{all_exited, is_deadlocked};
pub use running::{FinishedRun, RunFault, run};
pub use scheduler::{Beat, RunPlan};
pub use scripting::{LineStop, ScriptFault, run_scripted};
