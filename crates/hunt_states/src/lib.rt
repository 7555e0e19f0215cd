//! States of machines: whether two have the same board, which is all that events change but the journal, or boards that are alike, with their clocks or without; the hash
//! of one; and marks of those that a search has passed.
#![tactic(auto)]

mod alike;
mod hashing;
mod lists;
mod marks;
mod memory;
mod same;
mod timeless;
mod values;

pub use alike::{are_alike, are_alike_timeless};
pub use hashing::{Store, Trail, alike_hash_of, hash_of, store_of, timeless_hash_of};
pub use marks::{StateMark, StateMarks};
pub use same::have_same_boards;
pub use timeless::{has_no_times, may_call_clock};
