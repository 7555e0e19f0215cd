//! Schedules of a machine: what may come next, what is chosen by a seed, the branches by which all schedules of few switches are looked
//! at, and runs up to a failure.
#![tactic(auto)]

mod beginning;
mod branch;
mod chooser;
mod ordering;
mod private;
mod queue;
mod random;
mod running;
mod schedule;
mod stop;

pub use beginning::{BeginFault, begin, go_back};
pub use branch::{Branch, Choice, CpuTurn, SWITCH_LIMIT};
pub use chooser::{Chooser, POINT_LIMIT, Way};
pub use evm_core::{Boot, Machine};
pub use evm_devs::{AnyDevice, program_devices};
pub use evm_model::{CAPACITY_LIMIT, Event, NoBytes};
pub use evm_ram::SIZE_LIMIT;
pub use ordering::{Cycle, Orders};
pub use queue::{Queue, Ways};
pub use running::{RunOutcome, advance, play, run_schedule};
pub use schedule::{
    EventList, Stretch, Stretches, event_count, events_of, push_stretch, schedule_of,
};
pub use stop::HuntStop;
