//! Runs: a schedule on a machine, up to a failure.

ghost use Rattle.std.specs.Prelude.{◌≡◌, ◌∷◌, ◌++◌, [], OnErr, OnOk, IfOk, IfErr, IfSome, Result};
ghost use Rattle.evm_model.specs.Event.{short_event};
ghost use Rattle.evm_model.specs.Replay.{apply, IsReplayOf};
ghost use Rattle.evm_model.specs.State.{State};
ghost use Rattle.evm_model.specs.declared.event.Answer.{Answer};
ghost use Rattle.hunt_failures.specs.Failures.{IsSeen};
ghost use Rattle.hunt_schedules.specs.Runs.{Ends, HasFailed};

use crate::chooser::Chooser;
use evm_core::{Machine, Refusal};
use evm_devs::AnyDevice;
use evm_model::{Event, NoBytes};
use hunt_failures::{Failure, Monitor, Wanted, eve_of, looked};

/// How a run ended.
#[derive(Clone, Copy, Debug, PartialEq, Eq)]
pub enum RunOutcome {
    /// The machine has failed, by its last event.
    Failed(Failure),
    /// Nothing more can happen, or all events of the list were made.
    Over,
    /// The journal is full: a bound, and no failure.
    Full,
}

/// One event, and the failure that it has made, if that is looked for. A machine that is its journal's replay stays so.
///
/// # Errors
///
/// Why the event is refused; nothing is changed then.
pub fn advance(
    machine: &mut Machine<AnyDevice>,
    event: Event<NoBytes>,
    wanted: &Wanted,
    monitor: &mut Monitor,
) -> Result<Option<Failure>, Refusal>
    ensures fails { IfOk result (λ failed. IfSome failed (λ failure. HasFailed wanted.now.lines failure machine.new)) }
    // what it answers is all that the event has made fail
    ensures seen { IfOk result (λ seen. (answer : Answer) × (apply machine.old (short_event event) ≡ Result.Ok (machine.new, answer)) × IsSeen wanted.now machine.old (short_event event) answer machine.new seen) }
    ensures refused { IfErr result (λ refusal. apply machine.old (short_event event) ≡ Result.Err refusal) }
    ensures journaled { OnOk result (machine.new.journal ≡ machine.old.journal ++ short_event event ∷ []) }
    ensures booted { machine.new.boot ≡ machine.old.boot }
    ensures unchanged { OnErr result (machine.new ≡ machine.old) }
    ensures replays { (first : State) → IsReplayOf first machine.old → IsReplayOf first machine.new }
{
    let eve = eve_of(machine, event, wanted);
    match machine.apply(event.widen()) {
        Ok(answer) => Ok(looked(machine, answer, &eve, wanted, monitor)),
        Err(refusal) => Err(refusal),
    }
}

/// Makes events as they are chosen, up to the first failure that is looked for. A machine that is its journal's replay stays so.
pub fn run_schedule(
    machine: &mut Machine<AnyDevice>,
    chooser: &mut Chooser,
    wanted: &Wanted,
) -> RunOutcome
    ensures ends { Ends wanted.now.lines result machine.new }
    ensures replays { (first : State) → IsReplayOf first machine.old → IsReplayOf first machine.new }
{
    let mut monitor = Monitor::new();
    'events: for _ in 0..machine.room() {
        let Some(event) = chooser.next(machine) else {
            return RunOutcome::Over;
        };
        match advance(machine, event, wanted, &mut monitor) {
            Ok(Some(failure)) => return RunOutcome::Failed(failure),
            Ok(None) => {}
            Err(_) => return RunOutcome::Full,
        }
    }
    RunOutcome::Full
}

/// Makes the events of a list, up to the first failure that is looked for. A machine that is its journal's replay stays so.
pub fn play(
    machine: &mut Machine<AnyDevice>,
    events: &[Event<NoBytes>],
    wanted: &Wanted,
) -> RunOutcome
    ensures ends { Ends wanted.now.lines result machine.new }
    ensures replays { (first : State) → IsReplayOf first machine.old → IsReplayOf first machine.new }
{
    let mut monitor = Monitor::new();
    'events: for event in events {
        match advance(machine, *event, wanted, &mut monitor) {
            Ok(Some(failure)) => return RunOutcome::Failed(failure),
            Ok(None) => {}
            Err(_) => return RunOutcome::Full,
        }
    }
    RunOutcome::Over
}
