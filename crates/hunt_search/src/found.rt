//! A schedule on a machine that is booted for it.

ghost use Rattle.std.specs.Prelude.{IfOk, IfSome};
ghost use Rattle.hunt_schedules.specs.Runs.{IsFound};

use crate::hunting::Row;
use crate::shortening::shorten;
use crate::target::Target;
use hunt_failures::Failure;
use hunt_schedules::{
    AnyDevice, BeginFault, Event, EventList, HuntStop, Machine, NoBytes, RunOutcome, begin,
    events_of, play, push_stretch,
};

/// A machine that has failed.
#[derive(Debug, Drop)]
pub struct Found {
    /// The machine. Its journal is what has made it fail.
    pub machine: Machine<AnyDevice>,
    /// What has failed.
    pub failure: Failure,
}

/// The machine that a list of events makes of a fresh one, up to its first failure; None if it has none.
///
/// # Errors
///
/// Why there is no machine.
pub fn replayed(target: &Target<'_>, events: &[Event<NoBytes>]) -> Result<Option<Found>, BeginFault>
    ensures { IfOk result (λ found. IfSome found (λ found. IsFound target.now.image.now target.now.boot.now target.now.wanted.now.lines found.failure found.machine)) }
{
    let mut machine = begin(target.alloc, target.image, target.boot)?;
    match play(&mut machine, events, target.wanted) {
        RunOutcome::Failed(failure) => Ok(Some(Found { machine, failure })),
        RunOutcome::Over | RunOutcome::Full => Ok(None),
    }
}

// The events of a shorter schedule that fails as a row says.
fn shortened(target: &Target<'_>, row: &Row) -> Result<EventList, HuntStop> {
    let mut schedule = Vec::new(target.alloc);
    for stretch in &row.schedule {
        push_stretch(&mut schedule, *stretch)?;
    }
    let shorter = shorten(target, &row.key, schedule)?;
    Ok(events_of(target.alloc, shorter.as_slice())?)
}

/// The machine of a row, by a shorter schedule; None of two locks that close a cycle, which no machine shows.
///
/// # Errors
///
/// Memory was refused.
pub fn shortest(target: &Target<'_>, row: &Row) -> Result<Option<Found>, HuntStop>
    ensures { IfOk result (λ found. IfSome found (λ found. IsFound target.now.image.now target.now.boot.now target.now.wanted.now.lines found.failure found.machine)) }
{
    if row.failure.is_none() {
        return Ok(None);
    }
    let events = shortened(target, row)?;
    match replayed(target, events.as_slice()) {
        Ok(found) => Ok(found),
        Err(fault) => Err(HuntStop::from(fault)),
    }
}
