//! A schedule is made shorter by fewer switches: steps of a processor are moved to others of it, and a processor goes on to the end.

use crate::playing::Rest;
use crate::shortening::{PLAY_LIMIT, Shortening};
use evm_room::NoMemory;
use hunt_schedules::{HuntStop, Stretch, Stretches, event_count, push_stretch};

impl Shortening<'_> {
    // The next stretch of a processor behind a place.
    fn next_of(&self, cpu: u8, place: usize) -> Option<usize> {
        for next in place.saturating_add(1)..self.schedule.len() {
            match self.schedule.get(next) {
                Some(Stretch::Steps(other, _)) if *other == cpu => return Some(next),
                _ => {}
            }
        }
        None
    }

    // The schedule with the steps of one stretch made behind another.
    fn moved(&self, from: usize, to: usize) -> Result<Stretches, NoMemory> {
        let mut schedule = Vec::new(self.target.alloc);
        for (i, stretch) in self.schedule.iter().enumerate() {
            if i != from {
                push_stretch(&mut schedule, *stretch)?;
            }
            if i == to
                && let Some((cpu, count)) = self.steps_at(from)
            {
                push_stretch(&mut schedule, Stretch::Steps(cpu, count))?;
            }
        }
        Ok(schedule)
    }

    // Joins a stretch to the next of its processor, later or sooner, if it fails so.
    fn join_at(&mut self, place: usize) -> Result<bool, HuntStop> {
        let Some((cpu, count)) = self.steps_at(place) else {
            return Ok(false);
        };
        let Some(next) = self.next_of(cpu, place) else {
            return Ok(false);
        };
        let known = self.events_before(place);
        let later = self.moved(place, next)?;
        if self.attempt(later.as_slice(), known)? {
            return Ok(true);
        }
        let sooner = self.moved(next, place)?;
        self.attempt(sooner.as_slice(), known.saturating_add(u64::from(count)))
    }

    /// Joins stretches of one processor, which leaves out the switches between them; whether it has joined some.
    ///
    /// # Errors
    ///
    /// Memory was refused.
    pub(crate) fn join_stretches(&mut self) -> Result<bool, HuntStop> {
        let mut made = false;
        let mut place = 0;
        for _ in 0..PLAY_LIMIT {
            if place >= self.schedule.len() {
                break;
            }
            if self.join_at(place)? {
                made = true;
            } else {
                place += 1;
            }
        }
        Ok(made)
    }

    // The stretches before a place.
    fn front(&self, place: usize) -> Result<Stretches, NoMemory> {
        let mut schedule = Vec::new(self.target.alloc);
        for stretch in self.schedule.iter().take(place) {
            push_stretch(&mut schedule, *stretch)?;
        }
        Ok(schedule)
    }

    // Takes the first stretches up to a place, with steps of a processor behind them, if that fails alike and is shorter.
    fn end_at(&mut self, place: usize, cpu: u8) -> Result<bool, HuntStop> {
        let events = event_count(self.schedule.as_slice()).saturating_mul(2);
        if !self.pays(events) {
            return Ok(false);
        }
        let known = self.events_before(place);
        let first = self.front(place)?;
        match self.failing(first.as_slice(), known, Some(Rest { cpu, events }))? {
            Some(found) => Ok(self.take_shorter(found)),
            None => Ok(false),
        }
    }

    /// Makes as few switches as may be behind the first stretches, as few as may be of these; whether that is shorter.
    ///
    /// # Errors
    ///
    /// Memory was refused.
    pub(crate) fn end_soon(&mut self) -> Result<bool, HuntStop> {
        for place in 0..self.schedule.len() {
            for cpu in 0..self.target.boot.cpus.min(8) as u8 {
                if self.end_at(place, cpu)? {
                    return Ok(true);
                }
            }
        }
        Ok(false)
    }
}
