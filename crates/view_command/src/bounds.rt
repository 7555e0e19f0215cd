//! Where a window begins and ends.

use crate::drawing::ViewEnd;
use evm_devs::{AnyDevice, program_devices};
use evm_ram::Image;
use std::alloc::Global;
use view_picture::{Landmark, Naming, Walk, Window, find};

/// A place in a run.
#[derive(Clone, Copy, Debug)]
pub(crate) enum Bound<'a> {
    /// The event of this number.
    Event(u64),
    /// This tick, counted from 1.
    Tick(u64),
    /// The first event that did what these words say.
    Words(&'a str),
}

/// Where a window is wanted.
#[derive(Clone, Copy, Debug)]
pub(crate) struct Bounds<'a> {
    pub(crate) from: Bound<'a>,
    pub(crate) to: Bound<'a>,
}

/// The place that a word names: `N`, `tick:N` or `mark:TEXT`.
pub(crate) fn bound_of(word: &str) -> Option<Bound<'_>> {
    if let Some(tick) = word.strip_prefix("tick:") {
        return match tick.parse::<u64>() {
            Ok(tick) => Some(Bound::Tick(tick)),
            Err(_) => None,
        };
    }
    match word.strip_prefix("mark:") {
        Some("") => None,
        Some(words) => Some(Bound::Words(words)),
        None => match word.parse::<u64>() {
            Ok(event) => Some(Bound::Event(event)),
            Err(_) => None,
        },
    }
}

// The event of a place, from where a walk is.
fn event_at(
    alloc: Global,
    walk: &mut Walk<AnyDevice>,
    bound: Bound<'_>,
    naming: Naming<'_>,
) -> Result<Option<u64>, ViewEnd> {
    let wanted = match bound {
        Bound::Event(event) => return Ok(Some(event)),
        Bound::Tick(tick) => Landmark::Tick(tick),
        Bound::Words(words) => Landmark::Words(words),
    };
    Ok(find(alloc, walk, wanted, naming)?)
}

// The events of a window, of a run that is walked from its first event on; None if it has no such place.
fn window_in(
    alloc: Global,
    walk: &mut Walk<AnyDevice>,
    bounds: Bounds<'_>,
    naming: Naming<'_>,
) -> Result<Option<Window>, ViewEnd> {
    let Some(from) = event_at(alloc, walk, bounds.from, naming)? else {
        return Ok(None);
    };
    walk.skip(from.saturating_sub(walk.next_event()))?;
    let Some(to) = event_at(alloc, walk, bounds.to, naming)? else {
        return Ok(None);
    };
    let to = match bounds.to {
        Bound::Words(_) => to.saturating_add(1),
        _ => to,
    };
    Ok(Some(Window { from, to }))
}

/// The events of a window of a journal's run; None if it has no such place. A window ends before a tick, and behind an event that
/// its words name, the first one behind where it begins.
///
/// # Errors
///
/// The first fault of the run, as a replay reports it; or memory was refused.
pub(crate) fn window_of(
    alloc: Global,
    image: &Image,
    journal: &str,
    bounds: Bounds<'_>,
    naming: Naming<'_>,
) -> Result<Option<Window>, ViewEnd> {
    if let (Bound::Event(from), Bound::Event(to)) = (bounds.from, bounds.to) {
        return Ok(Some(Window { from, to }));
    }
    let devices = program_devices(alloc)?;
    let mut walk = Walk::start(alloc, image, devices, journal)?;
    window_in(alloc, &mut walk, bounds, naming)
}
