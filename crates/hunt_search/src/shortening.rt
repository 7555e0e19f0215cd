//! A failing schedule made shorter.

use crate::key::FailureKey;
use crate::playing::{Rest, go_on_to, play_all};
use crate::target::Target;
use hunt_failures::Failure;
use hunt_schedules::{
    AnyDevice, HuntStop, Machine, Stretch, Stretches, begin, event_count, go_back, schedule_of,
};

/// How many schedules are played at most to make one shorter.
pub const PLAY_LIMIT: u32 = 2_000;

/// How many events are played at most to make a schedule shorter.
pub const PLAYED_LIMIT: u64 = 4_000_000;

/// A schedule that fails, and what is left of the plays that may make it shorter.
#[derive(Debug, Drop)]
pub(crate) struct Shortening<'a> {
    pub(crate) target: Target<'a>,
    key: FailureKey,
    /// The shortest so far.
    pub(crate) schedule: Stretches,
    plays: u32,
    events: u64,
    /// A machine that has had no event.
    first: Machine<AnyDevice>,
    /// The machine behind the first events of the shortest so far.
    kept: Machine<AnyDevice>,
    /// The machine on which a schedule is played.
    played: Machine<AnyDevice>,
}

impl Shortening<'_> {
    /// Whether a schedule of `events` events may still be played. If it may, it is counted.
    pub(crate) fn pays(&mut self, events: u64) -> bool {
        if self.plays == 0 || self.events < events {
            return false;
        }
        self.plays -= 1;
        self.events -= events;
        true
    }

    // Whether a schedule has fewer stretches than the shortest so far, or as many and fewer events.
    fn is_longer_than(&self, schedule: &[Stretch]) -> bool {
        if schedule.len() != self.schedule.len() {
            return schedule.len() < self.schedule.len();
        }
        event_count(schedule) < event_count(self.schedule.as_slice())
    }

    /// How many events there are before a place.
    pub(crate) fn events_before(&self, place: usize) -> u64 {
        match self.schedule.as_slice().get(..place) {
            Some(schedule) => event_count(schedule),
            None => 0,
        }
    }

    // The schedule of a machine, if it has failed alike.
    fn alike(
        &self,
        machine: &Machine<AnyDevice>,
        failed: Option<Failure>,
    ) -> Result<Option<Stretches>, HuntStop> {
        let Some(failure) = failed else {
            return Ok(None);
        };
        if !FailureKey::of(machine, failure).is(&self.key) {
            return Ok(None);
        }
        Ok(Some(schedule_of(self.target.alloc, machine)?))
    }

    // Takes the machine that is played to the state behind the first `known` events of the shortest so far if each state shows all that is
    // looked for, or else to the first state.
    fn take_back(&mut self, known: u64) -> Result<(), HuntStop> {
        let known = if self.target.wanted.looks_at_states() {
            known
        } else {
            0
        };
        if self.kept.event_count() > known {
            go_back(&mut self.kept, &self.first)?;
        }
        go_on_to(&mut self.kept, self.schedule.as_slice(), known);
        Ok(go_back(&mut self.played, &self.kept)?)
    }

    /// A schedule and what comes behind it up to its failure, if it fails alike. Its first `known` events are those of the shortest so far.
    ///
    /// # Errors
    ///
    /// Memory was refused.
    pub(crate) fn failing(
        &mut self,
        schedule: &[Stretch],
        known: u64,
        rest: Option<Rest>,
    ) -> Result<Option<Stretches>, HuntStop> {
        self.take_back(known)?;
        let failed = play_all(&mut self.played, schedule, rest, self.target.wanted);
        self.alike(&self.played, failed)
    }

    /// Takes a schedule in the place of the shortest so far, if it is shorter; whether it is.
    pub(crate) fn take_shorter(&mut self, found: Stretches) -> bool {
        if !self.is_longer_than(found.as_slice()) {
            return false;
        }
        self.schedule = found;
        true
    }

    /// Takes a schedule in the place of the shortest so far, if it fails alike and is shorter; whether it does.
    ///
    /// # Errors
    ///
    /// Memory was refused.
    pub(crate) fn attempt(&mut self, schedule: &[Stretch], known: u64) -> Result<bool, HuntStop> {
        if !self.pays(event_count(schedule)) {
            return Ok(false);
        }
        match self.failing(schedule, known, None)? {
            Some(found) => Ok(self.take_shorter(found)),
            None => Ok(false),
        }
    }

    /// The processor and the steps of a stretch.
    pub(crate) fn steps_at(&self, place: usize) -> Option<(u8, u32)> {
        match self.schedule.get(place) {
            Some(Stretch::Steps(cpu, count)) => Some((*cpu, *count)),
            _ => None,
        }
    }

    // Leaves out switches, and then events.
    fn pass(&mut self) -> Result<bool, HuntStop> {
        let dropped = self.drop_stretches()?;
        let joined = self.join_stretches()?;
        let ended = self.end_soon()?;
        let trimmed = self.trim_stretches()?;
        Ok(dropped || joined || ended || trimmed)
    }
}

/// A schedule that fails alike, and has fewer stretches, or as many and no more events. At most `PLAY_LIMIT` schedules with `PLAYED_LIMIT`
/// events are played.
///
/// # Errors
///
/// Memory was refused.
pub fn shorten(
    target: &Target<'_>,
    key: &FailureKey,
    schedule: Stretches,
) -> Result<Stretches, HuntStop> {
    let (alloc, image, boot) = (target.alloc, target.image, target.boot);
    let mut shortening = Shortening {
        target: *target,
        key: *key,
        schedule,
        plays: PLAY_LIMIT,
        events: PLAYED_LIMIT,
        first: begin(alloc, image, boot)?,
        kept: begin(alloc, image, boot)?,
        played: begin(alloc, image, boot)?,
    };
    for _ in 0..PLAY_LIMIT {
        if !shortening.pass()? {
            break;
        }
    }
    Ok(shortening.schedule)
}
