//! When a machine has failed: what is noted before an event, what the event has made, and what is counted over a run.
#![tactic(auto)]

mod calls;
mod eve;
mod expiries;
mod failure;
mod leaving;
mod lines;
mod looks;
mod monitor;
mod rounds;
mod stages;
mod waking;
mod wanted;

pub use eve::{Eve, eve_of, looked};
pub use failure::{Failure, current, owner_of};
pub use looks::is_deadlock;
pub use monitor::Monitor;
pub use waking::{Awake, awake_processors, is_over};
pub use wanted::{Errors, Inversion, Wanted};
