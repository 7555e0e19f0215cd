//! The tasks: what the scheduler knows of each, and apart from that their registers. There is room for all from
//! the start, and no more.
#![tactic(auto)]

mod harts;
mod tasks;
mod woken;

pub use harts::{Asked, Harts};
pub use tasks::Tasks;
