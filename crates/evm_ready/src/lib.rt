//! The tasks that are ready, on either stage, and which of them a processor should run.
#![tactic(auto)]

mod bitmap;
mod order;
mod place;
mod queue;
mod queues;
mod ready;
mod turn;
mod turns;

pub use bitmap::BITMAP_WORDS;
pub use order::{is_before, listed_rank};
pub use place::{Place, place_of};
pub use ready::Ready;
pub use turn::Turn;
pub use turns::Turns;

/// The most queues of ready tasks that there are: 256 on each of 8 processors, by the levels of their ranks.
pub const READY_QUEUE_LIMIT: usize = 2_048;
