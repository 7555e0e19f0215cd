//! The order in which tasks lock mutexes, over all schedules.

use crate::beginning::begin;
use crate::schedule::{events_of, schedule_of};
use crate::stop::HuntStop;
use evm_core::{Boot, Machine};
use evm_devs::AnyDevice;
use evm_model::{Answer, Event, MUTEX_LIMIT, NoBytes, TaskState, Wait};
use evm_ram::Image;
use std::alloc::Global;

/// Two locks that close a cycle: each of the two orders was seen, though maybe in two schedules.
#[derive(Clone, Copy, Debug, PartialEq, Eq)]
pub struct Cycle {
    /// The address of the ECALL that locks the later mutex of the order that was seen last.
    pub place: u64,
    /// That of an order which leads back.
    pub other: u64,
}

/// The orders that were seen: of each two mutexes the address at which a task that had the first locked the second, 0 if none did.
#[derive(Debug, Drop)]
pub struct Orders {
    places: [[u64; MUTEX_LIMIT]; MUTEX_LIMIT],
}

// Whether a task has a mutex.
fn has(machine: &Machine<AnyDevice>, t: u8, m: u8) -> bool {
    match machine.mutex(m) {
        Some(mutex) => mutex.owner == Some(t),
        None => false,
    }
}

// The mutex that a task waits for.
fn awaited(machine: &Machine<AnyDevice>, t: u8) -> Option<u8> {
    let task = machine.task(t)?;
    match task.state {
        TaskState::Waits(Wait::Lock(m)) => Some(m),
        _ => None,
    }
}

// The mutexes of a task, a bit for each.
fn held_by(machine: &Machine<AnyDevice>, t: u8) -> [bool; MUTEX_LIMIT] {
    let mut held = [false; MUTEX_LIMIT];
    for m in 0..machine.mutex_count() {
        if let Some(place) = held.get_mut(usize::from(m)) {
            *place = has(machine, t, m);
        }
    }
    held
}

fn pc_of(machine: &Machine<AnyDevice>, t: u8) -> u64 {
    match machine.hart(t) {
        Some(hart) => hart.pc,
        None => 0,
    }
}

impl Orders {
    /// No order was seen.
    pub fn new() -> Orders {
        Orders {
            places: [[0; MUTEX_LIMIT]; MUTEX_LIMIT],
        }
    }

    fn place(&self, first: usize, second: usize) -> u64 {
        match self.places.get(first) {
            Some(row) => match row.get(second) {
                Some(place) => *place,
                None => 0,
            },
            None => 0,
        }
    }

    // The mutexes that were locked behind one, through any chain of orders.
    fn behind(&self, first: usize) -> [bool; MUTEX_LIMIT] {
        let mut reached = [false; MUTEX_LIMIT];
        for _ in 0..MUTEX_LIMIT {
            for second in 0..MUTEX_LIMIT {
                if self.is_behind(first, second, &reached) {
                    reached[second] = true;
                }
            }
        }
        reached
    }

    // Whether a mutex was locked behind the first, or behind one of those that were reached.
    fn is_behind(&self, first: usize, second: usize, reached: &[bool; MUTEX_LIMIT]) -> bool {
        if self.place(first, second) != 0 {
            return true;
        }
        for between in 0..MUTEX_LIMIT {
            if reached[between] && self.place(between, second) != 0 {
                return true;
            }
        }
        false
    }

    // The address of an order that leads from a mutex back to another.
    fn way_back(&self, from: usize, to: usize) -> Option<u64> {
        let behind = self.behind(from);
        if !behind.get(to).copied().unwrap_or(false) {
            return None;
        }
        for next in 0..MUTEX_LIMIT {
            let place = self.place(from, next);
            if place != 0 {
                return Some(place);
            }
        }
        None
    }

    // Adds an order; the cycle that it closes.
    fn add(&mut self, first: usize, second: usize, place: u64) -> Option<Cycle> {
        if first == second || self.place(first, second) != 0 {
            return None;
        }
        if let Some(row) = self.places.get_mut(first)
            && let Some(kept) = row.get_mut(second)
        {
            *kept = place;
        }
        let other = self.way_back(second, first)?;
        Some(Cycle { place, other })
    }

    // Adds the orders of a task that has mutexes and locks one more.
    fn add_all(&mut self, held: &[bool; MUTEX_LIMIT], m: u8, place: u64) -> Option<Cycle> {
        let mut closed = None;
        for first in 0..MUTEX_LIMIT {
            if held[first]
                && let Some(cycle) = self.add(first, usize::from(m), place)
            {
                closed = Some(cycle);
            }
        }
        closed
    }

    // What a task that did an instruction has locked, or waits for.
    fn look(
        &mut self,
        machine: &Machine<AnyDevice>,
        t: u8,
        before: &[bool; MUTEX_LIMIT],
    ) -> Option<Cycle> {
        let place = pc_of(machine, t).saturating_sub(4);
        for m in 0..machine.mutex_count() {
            let had = before.get(usize::from(m)).copied().unwrap_or(false);
            if (has(machine, t, m) && !had) || awaited(machine, t) == Some(m) {
                return self.add_all(before, m, place);
            }
        }
        None
    }

    // One event of a schedule.
    fn follow(&mut self, machine: &mut Machine<AnyDevice>, event: Event<NoBytes>) -> Option<Cycle> {
        let task = match event {
            Event::Step(c) => machine.cpu(c)?.current,
            _ => None,
        };
        let before = match task {
            Some(t) => held_by(machine, t),
            None => [false; MUTEX_LIMIT],
        };
        match machine.apply(event.widen()) {
            Ok(Answer::Ran(t)) => self.look(machine, t, &before),
            _ => None,
        }
    }

    /// Adds the orders of a machine's journal: the cycle that one of them closes, if one does, with the number of events up to it.
    ///
    /// # Errors
    ///
    /// Memory was refused.
    pub fn add_run(
        &mut self,
        alloc: Global,
        image: &Image,
        boot: &Boot,
        run: &Machine<AnyDevice>,
    ) -> Result<Option<(Cycle, u64)>, HuntStop> {
        let schedule = schedule_of(alloc, run)?;
        let events = events_of(alloc, schedule.as_slice())?;
        let mut machine = begin(alloc, image, boot)?;
        let mut closed = None;
        for event in &events {
            if let Some(cycle) = self.follow(&mut machine, *event) {
                closed = Some((cycle, machine.event_count()));
            }
        }
        Ok(closed)
    }
}
