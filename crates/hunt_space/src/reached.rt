//! Which of a program's text a search has reached. No contract speaks of it.

use crate::text::TextSpan;
use evm_room::NoMemory;
use hunt_failures::current;
use hunt_schedules::{AnyDevice, Machine};
use std::alloc::Global;

/// How many bytes an instruction has.
const WORD: u64 = 4;

/// Instructions in a row that were not reached.
#[derive(Clone, Copy, Debug, PartialEq, Eq)]
pub struct Gap {
    /// The address of the first.
    pub first: u64,
    /// The address of the last.
    pub last: u64,
}

/// The instructions of a text, and which of them a processor that may step has come to.
#[derive(Debug, Drop)]
pub struct ReachedText {
    low: u64,
    reached: Vec<bool>,
}

impl ReachedText {
    /// Nothing of a text was reached.
    ///
    /// # Errors
    ///
    /// Memory was refused.
    pub(crate) fn new(alloc: Global, text: TextSpan) -> Result<ReachedText, NoMemory> {
        let count = text.high.saturating_sub(text.low) / WORD;
        let mut reached = Vec::new(alloc);
        match reached.resize(count as usize, false) {
            Ok(()) => Ok(ReachedText {
                low: text.low,
                reached,
            }),
            Err(_) => Err(NoMemory),
        }
    }

    /// How many instructions the text has.
    pub fn count(&self) -> usize {
        self.reached.len()
    }

    // An instruction was reached.
    fn mark(&mut self, pc: u64) {
        let place = self.place(pc);
        if let Some(reached) = self.reached.get_mut(place) {
            *reached = true;
        }
    }

    /// Notes where a processor goes on.
    pub(crate) fn note(&mut self, machine: &Machine<AnyDevice>, cpu: u8) {
        if let Some(t) = current(machine, cpu)
            && let Some(hart) = machine.hart(t)
        {
            self.mark(hart.pc);
        }
    }

    /// Notes where processors go on.
    pub(crate) fn note_all(&mut self, machine: &Machine<AnyDevice>, cpus: &[u8]) {
        for cpu in cpus {
            self.note(machine, *cpu);
        }
    }

    // How many instructions from one on were all reached, or none of them.
    fn alike_from(&self, from: usize, wanted: bool) -> usize {
        for count in 0..self.reached.len() {
            match self.reached.get(from.saturating_add(count)) {
                Some(reached) if *reached == wanted => {}
                _ => return count,
            }
        }
        self.reached.len()
    }

    // The address of an instruction.
    fn address(&self, place: usize) -> u64 {
        self.low.saturating_add((place as u64).saturating_mul(WORD))
    }

    // Where an instruction stands among those of the text.
    fn place(&self, address: u64) -> usize {
        (address.wrapping_sub(self.low) / WORD) as usize
    }

    /// The next gap of the text, or the first.
    pub fn gap_after(&self, gap: Option<Gap>) -> Option<Gap> {
        let from = match gap {
            None => 0,
            Some(gap) => self.place(gap.last).saturating_add(1),
        };
        let place = from.saturating_add(self.alike_from(from, true));
        match self.alike_from(place, false) {
            0 => None,
            count => Some(Gap {
                first: self.address(place),
                last: self.address(place.saturating_add(count - 1)),
            }),
        }
    }
}
