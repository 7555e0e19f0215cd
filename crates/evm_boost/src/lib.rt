//! The mutexes: who owns them, who waits for whom, and the ranks that come of it. The schedule keeps the ranks and the
//! order of the tasks beside them.
#![tactic(auto)]

mod mutexes;
mod owned;
mod ranks;
mod schedule;
mod slot;
mod waiting;
mod walking;

pub use mutexes::Mutexes;
pub use schedule::Schedule;
