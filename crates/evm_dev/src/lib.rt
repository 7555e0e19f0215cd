//! What a device is: a kind, a list of words, and what touches and ticks do to it by the table of its kind.
#![tactic(auto)]

mod boxed;
mod device;
mod kind;
mod laws;
mod touch;

pub use device::Device;
pub use kind::{CONSOLE_LIMIT, Kind, MAILBOX_LIMIT};
pub use laws::{missing_registers_do_nothing, what_raises, words_stay_of_their_kind};
pub use touch::{Op, Touch};
