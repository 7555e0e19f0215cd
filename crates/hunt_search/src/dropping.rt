//! A schedule is made shorter by what is left out of it: whole stretches, and steps of a stretch.

use crate::shortening::{PLAY_LIMIT, Shortening};
use evm_room::NoMemory;
use hunt_schedules::{HuntStop, Stretch, Stretches, push_stretch};

impl Shortening<'_> {
    // The schedule without stretches: those from a place on, as many as there are of `count`.
    fn without(&self, start: usize, count: usize) -> Result<Stretches, NoMemory> {
        let mut left = Vec::new(self.target.alloc);
        let end = start.saturating_add(count);
        for (i, stretch) in self.schedule.iter().enumerate() {
            if i < start || i >= end {
                push_stretch(&mut left, *stretch)?;
            }
        }
        Ok(left)
    }

    // Leaves out stretches, as many in a row as `count`, wherever it fails without them.
    fn drop_some(&mut self, count: usize) -> Result<bool, HuntStop> {
        let mut made = false;
        let mut start = 0;
        for _ in 0..PLAY_LIMIT {
            if start >= self.schedule.len() {
                break;
            }
            let schedule = self.without(start, count)?;
            let known = self.events_before(start);
            if self.attempt(schedule.as_slice(), known)? {
                made = true;
            } else {
                start = start.saturating_add(count);
            }
        }
        Ok(made)
    }

    /// Leaves out stretches, first many in a row (Zeller and Hildebrandt, "Simplifying and isolating failure-inducing input", 2002); whether it
    /// has left out some.
    ///
    /// # Errors
    ///
    /// Memory was refused.
    pub(crate) fn drop_stretches(&mut self) -> Result<bool, HuntStop> {
        let mut made = false;
        let mut count = self.schedule.len().div_ceil(2);
        for _ in 0..usize::BITS {
            if self.drop_some(count)? {
                made = true;
            }
            if count <= 1 {
                break;
            }
            count = count.div_ceil(2);
        }
        Ok(made)
    }

    // The schedule with this number of steps at a place.
    fn trimmed(&self, place: usize, steps: u32) -> Result<Stretches, NoMemory> {
        let mut schedule = Vec::new(self.target.alloc);
        for (i, stretch) in self.schedule.iter().enumerate() {
            match stretch {
                Stretch::Steps(cpu, _) if i == place => {
                    push_stretch(&mut schedule, Stretch::Steps(*cpu, steps))?
                }
                _ => push_stretch(&mut schedule, *stretch)?,
            }
        }
        Ok(schedule)
    }

    // Leaves out steps of a stretch, first many.
    fn trim_at(&mut self, place: usize) -> Result<bool, HuntStop> {
        let mut made = false;
        let mut cut = match self.steps_at(place) {
            Some((_, count)) => count,
            None => 0,
        };
        for _ in 0..PLAY_LIMIT {
            let Some((_, count)) = self.steps_at(place) else {
                break;
            };
            cut = cut.min(count);
            if cut == 0 {
                break;
            }
            let steps = count - cut;
            let schedule = self.trimmed(place, steps)?;
            let known = self.events_before(place).saturating_add(u64::from(steps));
            if self.attempt(schedule.as_slice(), known)? {
                made = true;
            } else {
                cut /= 2;
            }
        }
        Ok(made)
    }

    /// Leaves out steps of each stretch; whether it has left out some.
    ///
    /// # Errors
    ///
    /// Memory was refused.
    pub(crate) fn trim_stretches(&mut self) -> Result<bool, HuntStop> {
        let mut made = false;
        for place in 0..self.schedule.len() {
            if self.trim_at(place)? {
                made = true;
            }
        }
        Ok(made)
    }
}
