//! Rounds of a run: one is over when each processor that can step has done so.

use crate::waking::awake_processors;
use evm_core::Machine;
use evm_devs::AnyDevice;
use evm_model::{PROCESSOR_LIMIT, TASK_LIMIT};

/// The number of the round, and of each task the round from which on it is counted.
#[derive(Debug, Drop)]
pub(crate) struct Rounds {
    round: u32,
    // which processors have stepped in this round
    stepped: [bool; PROCESSOR_LIMIT],
    since: [u32; TASK_LIMIT],
    // how many tasks there were
    tasks: u8,
}

impl Rounds {
    pub(crate) fn new() -> Rounds {
        Rounds {
            round: 0,
            stepped: [false; PROCESSOR_LIMIT],
            since: [0; TASK_LIMIT],
            tasks: 0,
        }
    }

    /// A task is counted from this round on.
    pub(crate) fn renew(&mut self, task: u8) {
        if let Some(since) = self.since.get_mut(usize::from(task)) {
            *since = self.round;
        }
    }

    /// Whether a task has been counted for more than `rounds` rounds.
    pub(crate) fn is_past(&self, task: u8, rounds: u32) -> bool {
        match self.since.get(usize::from(task)) {
            Some(since) => self.round.saturating_sub(*since) > rounds,
            None => false,
        }
    }

    // Whether each processor that can step has done so.
    fn is_over(&self, machine: &Machine<AnyDevice>) -> bool {
        for c in awake_processors(machine).as_slice() {
            if !self.stepped.get(usize::from(*c)).copied().unwrap_or(true) {
                return false;
            }
        }
        true
    }

    /// A processor has stepped.
    pub(crate) fn step(&mut self, machine: &Machine<AnyDevice>, cpu: u8) {
        for t in self.tasks..machine.task_count() {
            self.renew(t);
        }
        self.tasks = machine.task_count();
        if let Some(stepped) = self.stepped.get_mut(usize::from(cpu)) {
            *stepped = true;
        }
        if self.is_over(machine) {
            self.round = self.round.saturating_add(1);
            self.stepped = [false; PROCESSOR_LIMIT];
        }
    }
}
