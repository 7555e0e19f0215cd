//! How many ticks and raises may come, and what is compared of them.

ghost use Rattle.std.specs.Prelude.{◌≡◌, ◌≤◌, ℕ, option_map, false, true, map, Option, slice_get};
ghost use Rattle.evm_core.specs.evm_history.EventLine.{line_lent};
ghost use Rattle.evm_model.specs.Devices.{Attached};
ghost use Rattle.evm_model.specs.declared.event.Event.{Event as EventOf};
ghost use Rattle.hunt_space.specs.Raises.{raise_count, raises_in};
ghost use Rattle.hunt_space.specs.Runs.{MayHaveMore};
ghost use Rattle.hunt_space.specs.Space.{AreAlikeStates, CallsNone, FitsClock, RaisesNoMore};

use crate::hashing::whole_hash;
use evm_core::EventLine;
use evm_lines::LineSet;
use evm_model::{Block, Event};
use hunt_schedules::{AnyDevice, Machine};
use hunt_states::{
    Trail, alike_hash_of, are_alike, are_alike_timeless, has_no_times, may_call_clock,
    timeless_hash_of,
};

/// How many events of a kind a schedule may have.
#[derive(Clone, Copy, Debug, PartialEq, Eq)]
pub enum Bound {
    /// At most this number.
    AtMost(u64),
    /// Any number.
    Free,
}

impl Bound {
    // Whether one more may come behind some.
    fn has_room(self, count: u64) -> bool
        ensures { MayHaveMore self count → result ≡ true }
    {
        match self {
            Bound::AtMost(most) => count < most,
            Bound::Free => true,
        }
    }
}

// How many raises a line of a journal has.
fn raises_in(line: Option<EventLine<&Block>>) -> u64
    ensures raises { result ≡ raises_in (option_map line_lent line.entry) }
    ensures most { result ≤ 1 }
{
    match line {
        Some(EventLine::One(Event::Raise(_, _))) => 1,
        _ => 0,
    }
}

// How many raises a machine has had.
fn raise_count(machine: &Machine<AnyDevice>) -> u64
    ensures { result ≡ raise_count machine.now.journal }
{
    let mut count = 0;
    'lines: for i in 0..machine.journal_line_count() {
        count += raises_in(machine.journal_line(i));
    }
    count
}

/// How many ticks a schedule may have, and how many raises. If any number of ticks may come, no call may read the clock or name a time.
#[derive(Clone, Copy, Debug, PartialEq, Eq)]
pub struct EventBounds {
    /// The ticks.
    pub ticks: Bound,
    /// The raises, of all lines on all processors.
    pub raises: Bound,
}

impl EventBounds {
    /// Whether a tick may come at a state of a machine.
    pub(crate) fn may_tick(self, machine: &Machine<AnyDevice>) -> bool
        ensures { MayHaveMore self.ticks machine.now.board.parts.ticks → result ≡ true }
    {
        self.ticks.has_room(machine.ticks())
    }

    /// Those of some lines that may be raised at a state of a machine: all, or none if there were as many raises as may come.
    pub(crate) fn lines(self, machine: &Machine<AnyDevice>, lines: LineSet) -> LineSet
        ensures { MayHaveMore self.raises (raise_count machine.now.journal) → result ≡ lines }
    {
        match self.raises {
            Bound::Free => lines,
            Bound::AtMost(_) if self.raises.has_room(raise_count(machine)) => lines,
            Bound::AtMost(_) => LineSet::new(),
        }
    }

    /// Whether no time is named at a state of a machine, where any number of ticks may come.
    pub(crate) fn fits(self, machine: &Machine<AnyDevice>) -> bool
        ensures { result ≡ true → FitsClock self.ticks machine.now }
    {
        match self.ticks {
            Bound::AtMost(_) => true,
            Bound::Free => has_no_times(machine),
        }
    }

    // Whether two machines are alike but for their raises, if their devices are of the same kinds and the second fits.
    fn are_alike(self, seen: &Machine<AnyDevice>, machine: &Machine<AnyDevice>) -> bool
        requires { FitsClock self.ticks machine.now }
        ensures { result ≡ true → map (λ (device : Attached). device.kind) seen.now.board.memory.devices ≡ map (λ (device : Attached). device.kind) machine.now.board.memory.devices → AreAlikeStates self.ticks seen.now machine.now }
    {
        match self.ticks {
            Bound::AtMost(_) => are_alike(seen, machine),
            Bound::Free => {
                if !has_no_times(seen) {
                    return false;
                }
                are_alike_timeless(seen, machine)
            }
        }
    }

    // Whether one machine has had no more raises than another, if they are bounded.
    fn raises_no_more(self, seen: &Machine<AnyDevice>, machine: &Machine<AnyDevice>) -> bool
        ensures { result ≡ true → RaisesNoMore self.raises seen.now machine.now }
    {
        match self.raises {
            Bound::AtMost(_) => raise_count(seen) <= raise_count(machine),
            Bound::Free => true,
        }
    }

    /// Whether two machines are alike, and the first has had no more raises, if their devices are of the same kinds and the second fits.
    pub(crate) fn compare(self, seen: &Machine<AnyDevice>, machine: &Machine<AnyDevice>) -> bool
        requires { FitsClock self.ticks machine.now }
        ensures { result ≡ true → map (λ (device : Attached). device.kind) seen.now.board.memory.devices ≡ map (λ (device : Attached). device.kind) machine.now.board.memory.devices → AreAlikeStates self.ticks seen.now machine.now × RaisesNoMore self.raises seen.now machine.now }
    {
        if !self.raises_no_more(seen, machine) {
            return false;
        }
        self.are_alike(seen, machine)
    }

    /// The hash of a machine: the same for machines that are alike.
    pub(crate) fn hash(self, machine: &Machine<AnyDevice>, trail: &Trail) -> u64 {
        let hash = match self.ticks {
            Bound::AtMost(_) => alike_hash_of(machine, 0, trail),
            Bound::Free => timeless_hash_of(machine, 0, trail),
        };
        whole_hash(machine, hash)
    }

    // Whether a step of a processor may read the clock or name a time, where any number of ticks may come.
    fn is_called(self, machine: &Machine<AnyDevice>, cpu: u8) -> bool
        ensures { result ≡ false → CallsNone self.ticks (EventOf.Step cpu) machine.now }
    {
        match self.ticks {
            Bound::AtMost(_) => false,
            Bound::Free => may_call_clock(machine, cpu),
        }
    }

    /// The first of some processors whose step may do so.
    pub(crate) fn caller(self, machine: &Machine<AnyDevice>, cpus: &[u8]) -> Option<u8>
        ensures { result ≡ Option.None → (i cpu : ℕ) → slice_get cpus.now i ≡ Option.Some cpu → CallsNone self.ticks (EventOf.Step cpu) machine.now }
    {
        'cpus: for cpu in cpus {
            if self.is_called(machine, *cpu) {
                return Some(*cpu);
            }
        }
        None
    }
}
