//! A machine under a lock: threads make events through ports, whose shares add up to what the journal has of each kind.
#![tactic(auto)]

mod checking;
mod cursor;
mod event_counts;
mod history;
mod ledgers;
mod locked;
mod lookahead;
mod port;
mod receipt;
mod shared;
mod worker;

pub use checking::{Mismatch, check_receipts};
pub use event_counts::EventCounts;
pub use history::BlankHistory;
pub use ledgers::Blanks;
pub use locked::Origin;
pub use port::Port;
pub use receipt::{Made, Receipt};
pub use shared::{Finished, PORT_LIMIT, Refused, Shared, Unfinished};
pub use worker::{Gate, Worker};
