//! A branch of a search: the events with which it begins, and its further steps.

ghost use Rattle.std.specs.Prelude.{◌≡◌, ◌∷◌, [], ◌<◌, ℕ, true, false, length, replicate, slice_get, IfNone, IfOk, IfSome, IsTrue, MatchOption, OnOk, Option};
ghost use Rattle.evm_model.specs.Event.{short_event};
ghost use Rattle.evm_model.specs.Replay.{IsReplayOf};
ghost use Rattle.evm_model.specs.State.{State};
ghost use Rattle.evm_model.specs.declared.event.Event.{Event};
ghost use Rattle.hunt_search.specs.Searches.{EndsBranch};
ghost use Rattle.hunt_failures.specs.Failures.{FailsAsWanted};
ghost use Rattle.hunt_failures.specs.Awake.{IsAwake, IsOver};
ghost use Rattle.hunt_schedules.specs.Making.{MayMake};
ghost use Rattle.hunt_schedules.specs.Runs.{HasFailed};
ghost use Rattle.hunt_schedules.specs.Branches.{KeepsBranches, events_of_turns, turn_events};
ghost use Rattle.hunt_schedules.specs.Walks.{AreForked, HasPassed, HasStepped};

use crate::tracking::Tracker;
use crate::trial::Trial;
use evm_lines::LineSet;
use evm_room::NoMemory;
use hunt_failures::{Failure, Wanted, awake_processors, is_over};
use hunt_schedules::{
    AnyDevice, Branch, CpuTurn, Event, Machine, NoBytes, Queue, RunOutcome, Ways, advance,
};
use hunt_states::store_of;

// The failure that an event has made, if it is accepted.
fn attempt(
    machine: &mut Machine<AnyDevice>,
    event: Event<NoBytes>,
    wanted: &Wanted,
    tracker: &mut Tracker,
) -> Option<Failure>
    ensures ends { IfSome result (λ failure. HasFailed wanted.now.lines failure machine.new) }
    ensures passes { IfNone result (HasPassed (FailsAsWanted wanted.now) machine.old (short_event event ∷ []) machine.new) }
    ensures replays { (first : State) → IsReplayOf first machine.old → IsReplayOf first machine.new }
{
    let store = store_of(machine, event);
    match advance(machine, event, wanted, &mut tracker.monitor) {
        Ok(seen) => {
            tracker.trail.follow(machine, &store);
            seen
        }
        Err(_) => None,
    }
}

/// Makes Steps of a processor, up to one that makes the machine fail.
pub(crate) fn take_steps(
    machine: &mut Machine<AnyDevice>,
    cpu: u8,
    steps: u32,
    wanted: &Wanted,
    tracker: &mut Tracker,
) -> Option<Failure>
    ensures ends { IfSome result (λ failure. HasFailed wanted.now.lines failure machine.new) }
    ensures passes { IfNone result (HasPassed (FailsAsWanted wanted.now) machine.old (replicate steps (Event.Step cpu)) machine.new) }
    ensures replays { (first : State) → IsReplayOf first machine.old → IsReplayOf first machine.new }
{
    'steps: for _i in 0..steps {
        match attempt(machine, Event::Step(cpu), wanted, tracker) {
            Some(failure) => return Some(failure),
            None => {}
        }
    }
    None
}

// Makes the events of a turn, up to one that makes the machine fail.
fn take_turn(
    machine: &mut Machine<AnyDevice>,
    turn: &CpuTurn,
    wanted: &Wanted,
    tracker: &mut Tracker,
) -> Option<Failure>
    ensures ends { IfSome result (λ failure. HasFailed wanted.now.lines failure machine.new) }
    ensures passes { IfNone result (HasPassed (FailsAsWanted wanted.now) machine.old (turn_events turn.now) machine.new) }
    ensures replays { (first : State) → IsReplayOf first machine.old → IsReplayOf first machine.new }
{
    match take_steps(machine, turn.cpu, turn.steps, wanted, tracker) {
        Some(failure) => return Some(failure),
        None => {}
    }
    attempt(machine, turn.choice.event(), wanted, tracker)
}

/// Makes the events with which a branch begins, up to one that makes the machine fail.
pub(crate) fn begin_with(
    machine: &mut Machine<AnyDevice>,
    turns: &[CpuTurn],
    wanted: &Wanted,
    tracker: &mut Tracker,
) -> Option<Failure>
    ensures ends { IfSome result (λ failure. HasFailed wanted.now.lines failure machine.new) }
    ensures passes { IfNone result (HasPassed (FailsAsWanted wanted.now) machine.old (events_of_turns turns.now) machine.new) }
    ensures replays { (first : State) → IsReplayOf first machine.old → IsReplayOf first machine.new }
{
    'turns: for turn in turns {
        match take_turn(machine, turn, wanted, tracker) {
            Some(failure) => return Some(failure),
            None => {}
        }
    }
    None
}

/// Whether a processor is one of some.
pub fn is_among(cpus: &[u8], cpu: u8) -> bool
    ensures { result ≡ false → (i : ℕ) → slice_get cpus.now i ≡ Option.Some cpu → ⊥ }
{
    'cpus: for c in cpus {
        if *c == cpu {
            return true;
        }
    }
    false
}

// Whether a branch has fewer switches than there may be.
fn has_more(trial: &Trial<'_>) -> bool
    ensures { result ≡ false → length trial.now.branch.now.turns.items < trial.now.switches → ⊥ }
{
    trial.branch.turns.len() < usize::from(trial.switches)
}

// Adds the branches that go another way behind some steps of one, if there may be one more switch.
fn fork(
    trial: &Trial<'_>,
    machine: &Machine<AnyDevice>,
    steps: u32,
    awake: &[u8],
    queue: &mut Queue,
) -> Result<(), NoMemory>
    requires { (c : ℕ) → IsAwake c machine.now → (i : ℕ) × (slice_get awake.now i ≡ Option.Some c) }
    ensures keeps { KeepsBranches queue.old.branches.items queue.new.branches.items }
    ensures cut { queue.new.cut ≡ false → queue.old.cut ≡ false }
    ensures forks { OnOk result (queue.new.cut ≡ false → AreForked (MayMake trial.now.target.wanted.now.lines) trial.now.switches queue.new.branches.items trial.now.branch.now steps machine.now) }
{
    if !has_more(trial) {
        return Ok(());
    }
    let ways = Ways {
        awake,
        cpus: machine.cpu_count(),
        lines: trial.target.wanted.lines,
    };
    queue.fork_all(trial.branch, steps, &ways)?;
    Ok(())
}

// Makes the next step of a branch, if its processor can step; else, or if the step makes the machine fail, how the branch ends.
fn step_on(
    machine: &mut Machine<AnyDevice>,
    branch: &Branch,
    awake: &[u8],
    wanted: &Wanted,
    tracker: &mut Tracker,
) -> Option<RunOutcome>
    requires { (c : ℕ) → IsAwake c machine.old → (i : ℕ) × (slice_get awake.now i ≡ Option.Some c) }
    ensures steps { MatchOption result (HasStepped (FailsAsWanted wanted.now) branch.now machine.old machine.new) (λ outcome. EndsBranch wanted.now branch.now machine.old machine.new outcome) }
    ensures replays { (first : State) → IsReplayOf first machine.old → IsReplayOf first machine.new }
{
    if !is_among(awake, branch.cpu) {
        return Some(RunOutcome::Over);
    }
    let store = store_of(machine, Event::Step(branch.cpu));
    match advance(
        machine,
        Event::Step(branch.cpu),
        wanted,
        &mut tracker.monitor,
    ) {
        Ok(Some(failure)) => Some(RunOutcome::Failed(failure)),
        Ok(None) => {
            tracker.trail.follow(machine, &store);
            None
        }
        Err(_) => Some(RunOutcome::Full),
    }
}

/// Whether nothing more can happen, where no other processor than these can step.
pub fn is_ended(machine: &Machine<AnyDevice>, awake: &[u8], lines: LineSet) -> bool
    requires { (c : ℕ) → IsAwake c machine.now → (i : ℕ) × (slice_get awake.now i ≡ Option.Some c) }
    ensures { IsTrue result → IsOver lines machine.now }
{
    if !awake.is_empty() {
        return false;
    }
    is_over(machine, lines)
}

/// Adds the branches that go another way, and makes the next step of one; how the branch ends, if it does.
///
/// # Errors
///
/// Memory was refused.
pub(crate) fn go_on_once(
    trial: &Trial<'_>,
    machine: &mut Machine<AnyDevice>,
    steps: u32,
    tracker: &mut Tracker,
    queue: &mut Queue,
) -> Result<Option<RunOutcome>, NoMemory>
    ensures keeps { KeepsBranches queue.old.branches.items queue.new.branches.items }
    ensures cut { queue.new.cut ≡ false → queue.old.cut ≡ false }
    ensures forks { OnOk result (queue.new.cut ≡ false → AreForked (MayMake trial.now.target.wanted.now.lines) trial.now.switches queue.new.branches.items trial.now.branch.now steps machine.old) }
    ensures steps { IfOk result (λ outcome. MatchOption outcome (HasStepped (FailsAsWanted trial.now.target.wanted.now) trial.now.branch.now machine.old machine.new) (λ outcome. EndsBranch trial.now.target.wanted.now trial.now.branch.now machine.old machine.new outcome)) }
    ensures replays { (first : State) → IsReplayOf first machine.old → IsReplayOf first machine.new }
{
    let awake = awake_processors(machine);
    let wanted = trial.target.wanted;
    if is_ended(machine, awake.as_slice(), wanted.lines) {
        return Ok(Some(RunOutcome::Over));
    }
    match fork(trial, machine, steps, awake.as_slice(), queue) {
        Ok(()) => Ok(step_on(machine, trial.branch, awake.as_slice(), wanted, tracker)),
        Err(fault) => Err(fault),
    }
}
