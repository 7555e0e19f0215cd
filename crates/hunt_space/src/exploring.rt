//! One state of a path: the paths that fork from it, and the step of the path's own processor.

ghost use Rattle.std.specs.Prelude.{◌≡◌, ℕ, true, false, IfOk, MatchOption, OnOk, Option, slice_get};
ghost use Rattle.evm_model.specs.Replay.{IsReplayOf};
ghost use Rattle.evm_model.specs.State.{State};
ghost use Rattle.evm_model.specs.Event.{Event};
ghost use Rattle.evm_model.specs.declared.event.Event.{Event as EventOf};
ghost use Rattle.hunt_failures.specs.Awake.{IsAwake};
ghost use Rattle.hunt_space.specs.Exploring.{EndsPath, LeadsSafely};
ghost use Rattle.hunt_space.specs.Going.{MayGo, Opens};
ghost use Rattle.hunt_space.specs.Space.{AreAllPaths, CallsNone, IsUndebugged, KeepsPaths, SparesText};

use crate::attempt::{Attempt, make};
use crate::frontier::{Choices, Fork, Frontier};
use crate::going::{Going, Tally};
use crate::undebugged::is_undebugged;
use evm_room::NoMemory;
use hunt_failures::awake_processors;
use hunt_schedules::{AnyDevice, Choice, Machine, RunOutcome};
use hunt_search::{is_among, is_ended};
use hunt_states::Trail;

// Adds the paths of what may come at a state, but a step of the path's own processor.
fn fork(
    going: &Going<'_>,
    machine: &Machine<AnyDevice>,
    steps: u32,
    awake: &[u8],
    trail: Trail,
    frontier: &mut Frontier,
) -> Result<(), NoMemory>
    requires { (c : ℕ) → IsAwake c machine.now → (i : ℕ) × (slice_get awake.now i ≡ Option.Some c) }
    ensures keeps { KeepsPaths frontier.old.paths.items frontier.new.paths.items }
    ensures cut { frontier.new.cut ≡ false → frontier.old.cut ≡ false }
    ensures forks { OnOk result (frontier.new.cut ≡ false → AreAllPaths (MayGo going.now) frontier.new.paths.items going.now.path.now.turns.items going.now.path.now.cpu steps machine.now) }
{
    let from = Fork {
        alloc: going.target.alloc,
        path: going.path,
        steps,
        trail,
    };
    let choices = Choices {
        awake,
        cpus: machine.cpu_count(),
        lines: going.bounds.lines(machine, going.target.wanted.lines),
        tick: going.bounds.may_tick(machine),
    };
    match frontier.fork_all(&from, &choices) {
        Ok(()) => Ok(()),
        Err(fault) => Err(fault),
    }
}

// Whether the step of a processor that is awake may read the clock or name a time where any number of ticks may come: that cuts the search.
fn calls_clock(
    going: &Going<'_>,
    machine: &Machine<AnyDevice>,
    awake: &[u8],
    frontier: &mut Frontier,
) -> bool
    requires { (c : ℕ) → IsAwake c machine.now → (i : ℕ) × (slice_get awake.now i ≡ Option.Some c) }
    ensures paths { frontier.new.paths.items ≡ frontier.old.paths.items }
    ensures cut { frontier.new.cut ≡ false → frontier.old.cut ≡ false }
    ensures called { result ≡ true → frontier.new.cut ≡ true }
    ensures calls { result ≡ false → (event : Event) → MayGo going.now machine.now event → CallsNone going.now.bounds.ticks event machine.now }
{
    match going.bounds.caller(machine, awake) {
        Some(cpu) => {
            frontier.cut = true;
            frontier.note_clock(machine, cpu);
            true
        }
        None => false,
    }
}

// Whether private rows stay what they are: the step of no processor that is awake stores to the text, and nothing is debugged. Else the search
// is cut.
fn stays_private(
    going: &Going<'_>,
    machine: &Machine<AnyDevice>,
    awake: &[u8],
    frontier: &mut Frontier,
) -> bool
    requires { (c : ℕ) → IsAwake c machine.now → (i : ℕ) × (slice_get awake.now i ≡ Option.Some c) }
    ensures paths { frontier.new.paths.items ≡ frontier.old.paths.items }
    ensures cut { frontier.new.cut ≡ false → frontier.old.cut ≡ false }
    ensures changed { result ≡ false → frontier.new.cut ≡ true }
    ensures spares { result ≡ true → SparesText going.now.text.low going.now.text.high (MayGo going.now) machine.now }
    ensures undebugged { result ≡ true → IsUndebugged machine.now }
{
    if is_undebugged(machine) {
        if going.text.is_spared(machine, awake) {
            return true;
        }
        frontier.hit = true;
    }
    frontier.cut = true;
    false
}

// Does all at a state but the step of the path's own processor; whether the search isn't cut there.
fn open(
    going: &Going<'_>,
    machine: &Machine<AnyDevice>,
    steps: u32,
    awake: &[u8],
    trail: Trail,
    frontier: &mut Frontier,
) -> Result<bool, NoMemory>
    requires { (c : ℕ) → IsAwake c machine.now → (i : ℕ) × (slice_get awake.now i ≡ Option.Some c) }
    ensures keeps { KeepsPaths frontier.old.paths.items frontier.new.paths.items }
    ensures cut { frontier.new.cut ≡ false → frontier.old.cut ≡ false }
    ensures opens { OnOk result (frontier.new.cut ≡ false → Opens going.now frontier.new.paths.items steps machine.now) }
    ensures closed { IfOk result (λ opened. opened ≡ false → frontier.new.cut ≡ true) }
{
    if !stays_private(going, machine, awake, frontier) {
        return Ok(false);
    }
    if calls_clock(going, machine, awake, frontier) {
        return Ok(false);
    }
    if is_ended(machine, awake, going.target.wanted.lines) {
        return Ok(true);
    }
    match fork(going, machine, steps, awake, trail, frontier) {
        Ok(()) => Ok(true),
        Err(fault) => Err(fault),
    }
}

// Makes the step of the path's own processor, if it can step; else, or if the step makes the machine fail, how the path ends.
fn step_on(
    going: &Going<'_>,
    machine: &mut Machine<AnyDevice>,
    awake: &[u8],
    trail: &mut Trail,
    frontier: &mut Frontier,
) -> Option<RunOutcome>
    requires { (c : ℕ) → IsAwake c machine.old → (i : ℕ) × (slice_get awake.now i ≡ Option.Some c) }
    ensures paths { frontier.new.paths.items ≡ frontier.old.paths.items }
    ensures cut { frontier.new.cut ≡ false → frontier.old.cut ≡ false }
    ensures moved { MatchOption result (LeadsSafely going.now.target.wanted.now machine.old (EventOf.Step going.now.path.now.cpu) machine.new) (λ outcome. EndsPath going.now.target.wanted.now going.now.bounds going.now.path.now.cpu frontier.new.cut machine.old machine.new outcome) }
    ensures replays { (first : State) → IsReplayOf first machine.old → IsReplayOf first machine.new }
{
    let cpu = going.path.cpu;
    if !is_among(awake, cpu) {
        return Some(RunOutcome::Over);
    }
    match make(machine, Choice::Step(cpu), going.target.wanted, trail) {
        Attempt::Harmless => None,
        Attempt::Fails(failure) => Some(RunOutcome::Failed(failure)),
        Attempt::Refused => {
            frontier.cut = true;
            Some(RunOutcome::Full)
        }
    }
}

/// Adds the paths of what may come at a state, and makes the step of the path's own processor; how the path ends, if it does.
///
/// # Errors
///
/// Memory was refused.
pub(crate) fn explore(
    going: &Going<'_>,
    machine: &mut Machine<AnyDevice>,
    steps: u32,
    trail: &mut Trail,
    frontier: &mut Frontier,
    tally: &mut Tally,
) -> Result<Option<RunOutcome>, NoMemory>
    ensures keeps { KeepsPaths frontier.old.paths.items frontier.new.paths.items }
    ensures cut { frontier.new.cut ≡ false → frontier.old.cut ≡ false }
    ensures opens { OnOk result (frontier.new.cut ≡ false → Opens going.now frontier.new.paths.items steps machine.old) }
    ensures moved { IfOk result (λ ended. MatchOption ended (LeadsSafely going.now.target.wanted.now machine.old (EventOf.Step going.now.path.now.cpu) machine.new) (λ outcome. EndsPath going.now.target.wanted.now going.now.bounds going.now.path.now.cpu frontier.new.cut machine.old machine.new outcome)) }
    ensures replays { (first : State) → IsReplayOf first machine.old → IsReplayOf first machine.new }
{
    let awake = awake_processors(machine);
    tally.add_end(is_ended(machine, awake.as_slice(), going.target.wanted.lines));
    tally.text.note_all(machine, awake.as_slice());
    match open(going, machine, steps, awake.as_slice(), *trail, frontier) {
        Ok(true) => {}
        Ok(false) => return Ok(Some(RunOutcome::Full)),
        Err(fault) => return Err(fault),
    }
    let ended = step_on(going, machine, awake.as_slice(), trail, frontier);
    tally.add_step(ended);
    Ok(ended)
}
