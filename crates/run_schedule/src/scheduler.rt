//! The scheduler of a run: which event is next.

ghost use Rattle.std.specs.Prelude.{IfSome};
ghost use Rattle.run_schedule.specs.Choices.{IsChoice};
ghost use Rattle.run_schedule.specs.Endings.{HasEndedSo};

use crate::ending::RunEnd;
use crate::looking::{is_asleep, is_deadlocked};
use crate::random::Random;
use evm_core::Machine;
use evm_devs::AnyDevice;
use evm_model::{Event, NoBytes};
use hunt_failures::{Awake, awake_processors};

/// An event that comes again and again: behind each round whose number, counted from 1, is a multiple of `every`; never where that is 0.
#[derive(Clone, Copy)]
pub struct Beat {
    pub event: Event<NoBytes>,
    pub every: u64,
}

impl Beat {
    fn is_due(&self, round: u64) -> bool {
        self.every != 0 && round % self.every == 0
    }

    // The first round from one on behind which it comes.
    fn next(&self, round: u64) -> u64 {
        if self.every == 0 {
            return u64::MAX;
        }
        match round % self.every {
            0 => round,
            past => round.saturating_add(self.every - past),
        }
    }
}

/// How events are chosen. In a round each processor that has something to do makes a step. Where none has, the rounds up to the next beat
/// are skipped.
#[derive(Clone, Copy)]
pub struct RunPlan<'a> {
    /// What comes from outside: ticks, and lines.
    pub beats: &'a [Beat],
    /// Of what the processors that step are drawn; without it each steps in turn.
    pub seed: Option<u64>,
    /// Whether the run ends where no processor has anything to do.
    pub until_idle: bool,
}

/// What comes next.
#[derive(Clone, Copy)]
pub(crate) enum Choice {
    Make(Event<NoBytes>),
    End(RunEnd),
}

/// Chooses the events of a run by its plan, one after the other.
#[derive(Drop)]
pub(crate) struct Scheduler<'a> {
    plan: RunPlan<'a>,
    random: Option<Random>,
    round: u64,
    // the processors of this round, and how many of their steps were made
    turns: Awake,
    made: usize,
    // the beat that may come next behind this round
    beat: usize,
}

// Whether a line is to come.
fn raises(beats: &[Beat]) -> bool {
    for beat in beats {
        if let Event::Raise(_, _) = beat.event {
            return true;
        }
    }
    false
}

impl<'a> Scheduler<'a> {
    pub(crate) fn new(plan: RunPlan<'a>) -> Scheduler<'a> {
        Scheduler {
            plan,
            random: plan.seed.map(Random::of_seed),
            round: 0,
            turns: Awake::new(),
            made: 0,
            beat: plan.beats.len(),
        }
    }

    // The place of the next turn among those of this round.
    fn place(&mut self, count: usize) -> usize {
        match &mut self.random {
            Some(random) if count != 0 => random.below(count as u64) as usize,
            _ => self.made,
        }
    }

    // The processor that steps next in this round.
    fn turn(&mut self) -> Option<u8> {
        let count = self.turns.len();
        if self.made >= count {
            return None;
        }
        let place = self.place(count);
        self.made = self.made.saturating_add(1);
        self.turns.get(place).copied()
    }

    // The beat that comes next behind this round.
    fn due(&mut self) -> Option<Event<NoBytes>> {
        let beats = self.plan.beats;
        for i in self.beat..beats.len() {
            if let Some(beat) = beats.get(i)
                && beat.is_due(self.round)
            {
                self.beat = i + 1;
                return Some(beat.event);
            }
        }
        self.beat = beats.len();
        None
    }

    // What is left of this round.
    fn rest(&mut self) -> Option<Event<NoBytes>> {
        if let Some(c) = self.turn() {
            return Some(Event::Step(c));
        }
        self.due()
    }

    // The next round begins.
    fn begin(&mut self, turns: Awake) {
        self.turns = turns;
        self.round = self.round.saturating_add(1);
        self.made = 0;
        self.beat = 0;
    }

    // The next event where no processor has anything to do: the next beat, or else a tick.
    fn skip(&mut self) -> Event<NoBytes> {
        let mut next = u64::MAX;
        for beat in self.plan.beats {
            next = next.min(beat.next(self.round));
        }
        self.round = next;
        self.beat = 0;
        match self.due() {
            Some(event) => event,
            None => Event::Tick,
        }
    }

    // How the run ends where no processor has anything to do, if it does.
    fn end(&self, machine: &Machine<AnyDevice>) -> Option<RunEnd>
        ensures { IfSome result (λ ending. HasEndedSo ending machine.now) }
    {
        if !raises(self.plan.beats) && is_deadlocked(machine) {
            return Some(RunEnd::Deadlock);
        }
        if self.plan.until_idle && is_asleep(machine) {
            return Some(RunEnd::Idle);
        }
        None
    }

    /// What comes next on a machine.
    pub(crate) fn next(&mut self, machine: &Machine<AnyDevice>) -> Choice
        ensures { IsChoice result machine.now }
    {
        if let Some(event) = self.rest() {
            return Choice::Make(event);
        }
        self.begin(awake_processors(machine));
        if let Some(c) = self.turn() {
            return Choice::Make(Event::Step(c));
        }
        match self.end(machine) {
            Some(ending) => Choice::End(ending),
            None => Choice::Make(self.skip()),
        }
    }
}
