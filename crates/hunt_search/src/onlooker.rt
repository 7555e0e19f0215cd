//! An onlooker of a hunt.

use crate::hunting::Row;

/// Someone that is shown how far a hunt has come, and may end it.
pub trait Onlooker {
    /// The hunt has looked at this number of schedules, and found this number of failures: whether it goes on.
    fn goes_on(&mut self, schedules: u64, failures: u64) -> bool;

    /// The hunt has found a failure.
    fn found(&mut self, row: &Row);
}
