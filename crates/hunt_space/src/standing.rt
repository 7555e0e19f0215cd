//! A machine that is taken from one state to another: on from where it stands, if that is on the way, or else from the boot.

ghost use Rattle.std.specs.Prelude.{◌≡◌, ◌-◌, ◌≤◌, true, replicate, slice_get, IfOk, OnOk};
ghost use Rattle.evm_model.specs.Replay.{IsReplayOf, replay};
ghost use Rattle.evm_model.specs.State.{State};
ghost use Rattle.evm_model.specs.declared.event.Event.{Event};
ghost use Rattle.hunt_space.specs.Space.{IsAt};
ghost use Rattle.hunt_space.specs.Standing.{IsOnTheWay, IsStanding};

use crate::replaying::{repeat_steps, repeat_turns};
use evm_room::NoMemory;
use hunt_schedules::{AnyDevice, CpuTurn, HuntStop, Machine, go_back};
use std::alloc::Global;

/// A machine at the state that turns and then some steps of a processor lead to.
#[derive(Debug, Drop)]
pub struct Stand {
    /// The machine.
    pub machine: Box<Machine<AnyDevice>>,
    /// The turns.
    pub turns: Vec<CpuTurn>,
    /// The processor.
    pub cpu: u8,
    /// Its steps.
    pub steps: u32,
}

// Puts turns in the place of others.
fn put_turns(into: &mut Vec<CpuTurn>, turns: &[CpuTurn]) -> Result<(), NoMemory>
    ensures { OnOk result (into.new.items ≡ turns.now) }
{
    into.clear();
    match into.extend_from_slice(turns) {
        Ok(()) => Ok(()),
        Err(_) => Err(NoMemory),
    }
}

// Whether a turn is the same as another.
fn is_same(turn: &CpuTurn, other: &CpuTurn) -> bool
    ensures { result ≡ true → turn.now ≡ other.now }
{
    turn.cpu == other.cpu && turn.steps == other.steps && turn.choice == other.choice
}

// Whether both are the same turn, or none.
fn are_both(turn: Option<CpuTurn>, other: Option<CpuTurn>) -> bool
    ensures { result ≡ true → turn ≡ other }
{
    match (turn, other) {
        (None, None) => true,
        (Some(turn), Some(other)) => is_same(&turn, &other),
        _ => false,
    }
}

// Whether the same turn is at a place of both.
fn is_same_at(turns: &[CpuTurn], others: &[CpuTurn], i: usize) -> bool
    ensures { result ≡ true → slice_get turns.now i ≡ slice_get others.now i }
{
    are_both(turns.get(i).copied(), others.get(i).copied())
}

// Whether turns are the same as others.
fn are_same(turns: &[CpuTurn], others: &[CpuTurn]) -> bool
    ensures { result ≡ true → turns.now ≡ others.now }
{
    if turns.len() != others.len() {
        return false;
    }
    'places: for i in 0..turns.len() {
        if !is_same_at(turns, others, i) {
            return false;
        }
    }
    true
}

impl Stand {
    /// A machine that has had no event.
    pub(crate) fn new(alloc: Global, machine: Box<Machine<AnyDevice>>) -> Stand
        requires { IsReplayOf machine.value machine.value }
        ensures { IsStanding machine.value result }
    {
        let turns = Vec::new(alloc);
        Stand {
            machine,
            turns,
            cpu: 0,
            steps: 0,
        }
    }

    // Whether more steps alone lead to a state.
    fn is_on_the_way(&self, turns: &[CpuTurn], cpu: u8, steps: u32) -> bool
        ensures { result ≡ true → IsOnTheWay self.now turns.now cpu steps }
    {
        if self.cpu != cpu {
            return false;
        }
        if self.steps > steps {
            return false;
        }
        are_same(self.turns.as_slice(), turns)
    }

    // Goes back to the boot, and makes turns.
    #[tactic(auto, using(crate::proofs::Stands::stands_behind_turns))]
    fn make_turns(
        &mut self,
        first: &Machine<AnyDevice>,
        turns: &[CpuTurn],
        cpu: u8,
    ) -> Result<(), HuntStop>
        requires { IsReplayOf first.now first.now }
        ensures way { OnOk result (IsOnTheWay self.new turns.now cpu 0) }
        ensures stands { OnOk result (IsStanding first.now self.new) }
    {
        match put_turns(&mut self.turns, turns) {
            Ok(()) => {}
            Err(fault) => return Err(HuntStop::from(fault)),
        }
        match go_back(&mut self.machine, first) {
            Ok(()) => {}
            Err(fault) => return Err(HuntStop::from(fault)),
        }
        repeat_turns(&mut self.machine, turns);
        self.cpu = cpu;
        self.steps = 0;
        Ok(())
    }

    // Goes back to the boot and makes turns, unless more steps alone lead to a state.
    fn set_out(
        &mut self,
        first: &Machine<AnyDevice>,
        turns: &[CpuTurn],
        cpu: u8,
        steps: u32,
    ) -> Result<(), HuntStop>
        requires fresh { IsReplayOf first.now first.now }
        requires stands { IsStanding first.now self.old }
        ensures way { OnOk result (IsOnTheWay self.new turns.now cpu steps) }
        ensures stands { OnOk result (IsStanding first.now self.new) }
    {
        if self.is_on_the_way(turns, cpu, steps) {
            return Ok(());
        }
        match self.make_turns(first, turns, cpu) {
            Ok(()) => Ok(()),
            Err(stop) => Err(stop),
        }
    }

    // Makes more steps, up to this number.
    fn make_steps(&mut self, steps: u32)
        requires { self.old.steps ≤ steps }
        ensures turns { self.new.turns ≡ self.old.turns }
        ensures cpu { self.new.cpu ≡ self.old.cpu }
        ensures steps { self.new.steps ≡ steps }
        ensures repeats { self.new.machine.value ≡ replay self.old.machine.value (replicate (steps - self.old.steps) (Event.Step self.old.cpu)) }
        ensures replays { (first : State) → IsReplayOf first self.old.machine.value → IsReplayOf first self.new.machine.value }
    {
        repeat_steps(&mut self.machine, self.cpu, steps - self.steps);
        self.steps = steps;
    }

    /// Takes the machine to the state that turns and then some steps of a processor lead to from the first machine, which has had no event.
    ///
    /// # Errors
    ///
    /// Memory was refused, or the first machine began with other numbers.
    pub(crate) fn take_to(
        &mut self,
        first: &Machine<AnyDevice>,
        turns: &[CpuTurn],
        cpu: u8,
        steps: u32,
    ) -> Result<(), HuntStop>
        requires fresh { IsReplayOf first.now first.now }
        requires stands { IsStanding first.now self.old }
        ensures at { OnOk result (IsAt first.now turns.now cpu steps self.new.machine.value) }
        ensures stands { OnOk result (IsStanding first.now self.new) }
    {
        match self.set_out(first, turns, cpu, steps) {
            Ok(()) => {}
            Err(stop) => return Err(stop),
        }
        self.make_steps(steps);
        Ok(())
    }
}
